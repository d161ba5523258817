// The metric of a pair of blades, by the language's own bit counts.
ghost use Rattle.std.specs.Prelude.{◌≡◌, ◌<◌, ltb};
ghost use Rattle.product.specs.inner.Metric.{mask_of, squares_below, odd_below, blade_of};

use masks::flavor::Flavor;

// The basis vectors that square to 0, and those that square to -1, as masks.
#[derive(Clone, Copy)]
pub struct Squares {
    pub null: u32,
    pub minus: u32,
}

// A blade of the right factor: its mask, the vectors that it has and that square to 0, and those of the left factor that
// change the sign when they meet it.
#[derive(Clone, Copy)]
pub struct Blade {
    pub mask: u32,
    pub null: u32,
    pub flips: u32,
}

// The lowest k bits of nine.
fn low_bits(k: u32) -> u32
    ensures { result ≡ mask_of 9 (λ i. ltb i k) }
{
    if k < 9 { (1 << k) - 1 } else { 511 }
}

// The squares of the nine basis vectors.
pub(crate) fn squares_of(flavor: Flavor) -> Squares
    ensures { result ≡ squares_below 9 flavor }
{
    match flavor {
        Flavor::Vanilla => Squares { null: 0, minus: 0 },
        Flavor::Projective => Squares { null: 1, minus: 0 },
        Flavor::Cl(_, n, z) => {
            let null = low_bits(z as u32);
            Squares {
                null,
                minus: low_bits(z as u32 + n as u32) ^ null,
            }
        }
    }
}

// The bits that an odd number of b's bits stand below: each x ^ x << k doubles the run of bits that a bit sums, to eight.
fn below_bits(b: u32) -> u32
    requires { b < 512 }
    ensures { result ≡ odd_below b }
{
    let p1 = b << 1;
    let p2 = p1 ^ (p1 << 1);
    let p4 = p2 ^ (p2 << 2);
    let p8 = p4 ^ (p4 << 4);
    p8 & 511
}

pub(crate) fn blade_of(s: Squares, mask: u32) -> Blade
    requires { mask < 512 }
    ensures { result ≡ blade_of s mask }
{
    Blade {
        mask,
        null: mask & s.null,
        flips: below_bits(mask) ^ (mask & s.minus),
    }
}
