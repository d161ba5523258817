// A shape as six bytes: dims, kind, p, n, z, mark. The mark is written 0, and not looked at. Functions and no `From`: its promise would stand in a ghost
// member, and what the clauses of every export name is the definition `shape_from` all the same. The kinds are numbers as C has them.
ghost use Rattle.std.specs.Prelude.{◌≡◌};
ghost use Rattle.masks.specs.ShapeBytes.{flavor_from, shape_from, shape_bytes};

use super::flavor::Flavor;
use super::outcome::shape_of;
use super::shape::Shape;

// The flavor that four numbers say: kind 0 is Vanilla, 1 Projective, and any other is taken for Cl.
fn flavor_from(kind: u8, p: u8, n: u8, z: u8) -> Flavor
    ensures { result ≡ flavor_from kind p n z }
{
    match kind {
        0 => Flavor::Vanilla,
        1 => Flavor::Projective,
        _ => Flavor::Cl(p, n, z),
    }
}

// The shape that six bytes say.
pub fn shape_from(bytes: &[u8; 6]) -> Shape
    ensures { result ≡ shape_from bytes.now }
{
    shape_of(
        bytes[0],
        flavor_from(bytes[1], bytes[2], bytes[3], bytes[4]),
    )
}

// The six bytes of a shape.
pub fn shape_bytes(shape: Shape) -> [u8; 6]
    ensures { result ≡ shape_bytes shape }
{
    let dims = shape.dims;
    let flavor = shape.flavor;
    match flavor {
        Flavor::Vanilla => [dims, 0, 0, 0, 0, 0],
        Flavor::Projective => [dims, 1, 0, 0, 0, 0],
        Flavor::Cl(p, n, z) => [dims, 2, p, n, z, 0],
    }
}
