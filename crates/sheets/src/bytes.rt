// Numbers in a slice of bytes, the lowest byte first, and items in it, one after the other.
ghost use Rattle.std.specs.Prelude.{◌≡◌, map, ℕ, ◌+◌, ◌*◌, ◌≤◌, List, length, take, drop};
ghost use Rattle.std.proofs.lemmas.List.Edits.{sets};
ghost use Rattle.masks.specs.Outcome.{laid};
ghost use Rattle.sheets.specs.Bytes.{from_little_endian, little_endian, all_bytes};
ghost use Rattle.sheets.specs.inner.Items.{Makes};

// The number that `count` bytes from the place `at` on stand for.
pub(crate) fn number_at(bytes: &[u8], at: usize, count: usize) -> u64
    requires { (count ≤ 8) × (at + count ≤ length bytes.now) }
    ensures { result ≡ from_little_endian (take count (drop at bytes.now)) }
{
    let mut eight = [0; 8];
    eight[..count].copy_from_slice(&bytes[at..at + count]);
    u64::from_le_bytes(eight)
}

// The pattern that eight bytes stand for.
pub(crate) fn pattern_from(bytes: [u8; 8]) -> u64
    ensures { result ≡ from_little_endian bytes }
{
    u64::from_le_bytes(bytes)
}

// The eight bytes of a pattern.
pub(crate) fn pattern_bytes(pattern: u64) -> [u8; 8]
    ensures { result ≡ little_endian 8 pattern }
{
    u64::to_le_bytes(pattern)
}

// A number in `count` bytes, from the place `at` on.
pub(crate) fn put_number(number: u64, count: usize, at: usize, out: &mut [u8])
    requires { (count ≤ 8) × (at + count ≤ length out.old) }
    ensures { out.new ≡ sets out.old at (little_endian count number) }
{
    out[at..at + count].copy_from_slice(&number.to_le_bytes()[..count]);
}

// What f makes of each item, from the front of the output.
pub(crate) fn put_made<A: Copy, B: Copy, F: Fn(A) -> B>(items: &[A], f: F, out: &mut [B])
    requires callable { F.IsAlwaysCallable f }
    requires room { length items.now ≤ length out.old }
    ensures { (g : A → B) → Makes (F.post f) g items.now → out.new ≡ laid (map g items.now) out.old }
{
    for (i, item) in items.iter().enumerate() {
        out[i] = f(*item);
    }
}

// The first `width` of the bytes that f makes of each item, from the place `at` on.
pub(crate) fn put_bytes<A: Copy, F: Fn(A) -> [u8; 8]>(
    items: &[A],
    width: usize,
    f: F,
    at: usize,
    out: &mut [u8],
)
    requires callable { F.IsAlwaysCallable f }
    requires narrow { width ≤ 8 }
    requires room { at + width * length items.now ≤ length out.old }
    ensures { (g : A → List ℕ) → Makes (F.post f) g items.now → ((x : A) → length (g x) ≡ 8) → out.new ≡ sets out.old at (all_bytes (λ x. take width (g x)) items.now) }
{
    for (i, item) in items.iter().enumerate() {
        let start = at + width * i;
        out[start..start + width].copy_from_slice(&f(*item)[..width]);
    }
}
