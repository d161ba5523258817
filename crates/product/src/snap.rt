// The snap, by the nearest whole number.
ghost use Rattle.std.specs.Prelude.{◌≡◌};
ghost use Rattle.std.specs.Float.{binary64};
ghost use Rattle.rounding.specs.Snap.{snap};

// 1.5 x 2 ^ 52: a float below 2 ^ 51 in size has no fraction left once this is added. From there on no float is within 1e-14 of another.
const WHOLE: f64 = 6755399441055744.0;

// Where the fraction of x's size is below 1e-14, or 1 less it is, the nearest whole number, with x's sign; x otherwise.
pub(crate) fn snap_one(x: f64) -> f64
    ensures { result ≡ snap binary64 x }
{
    let r = (x + WHOLE) - WHOLE;
    let e = x - r;
    let w = if r == 0.0 { 0.0 * x } else { r };
    if (e < 1e-14) & (-1e-14 < e) { w } else { x }
}
