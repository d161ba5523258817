// The five modes of the product.
ghost use Rattle.std.specs.Prelude.{◌≡◌};
ghost use Rattle.product.specs.Mode.{flavor_for};

use masks::flavor::{Flavor, null_flavor};

// Which pairs of blades a product takes: all; a within b; b within a; either; all, under `Flavor::NULL`.
#[derive(Clone, Copy, PartialEq, Eq, Debug)]
pub enum Mode {
    All,
    Left,
    Right,
    Inner,
    Outer,
}

// The flavor whose metric the mode uses, for a left value of the given one.
#[tactic(auto, unfolding(crate::specs::Mode::flavor_for))]
pub(crate) fn flavor_for(mode: Mode, flavor: Flavor) -> Flavor
    ensures { result ≡ flavor_for mode flavor }
{
    match mode {
        Mode::All | Mode::Left | Mode::Right | Mode::Inner => flavor,
        Mode::Outer => null_flavor(),
    }
}
