// Bit patterns to numbers and back: every NaN is one number and gets one pattern.
ghost use Rattle.std.specs.Prelude.{◌≡◌, length};
ghost use Rattle.std.specs.Float.{binary64};
ghost use Rattle.std.specs.Float.Ieee.{of_bits, to_bits};
ghost use Rattle.masks.specs.Outcome.{Writes};
ghost use Rattle.sheets.specs.Bytes.{from_little_endian};
ghost use Rattle.sheets.specs.Patterns.{converted, numbers_of, patterns_of, numbers_in};
ghost use Rattle.sheets.specs.inner.Items.{Makes};

use super::bytes::{pattern_from, put_made};
use masks::outcome::Refusal;

// The pattern that a NaN is given.
pub const NAN_PATTERN: u64 = 0x7ff8_0000_0000_0000;

// The number of a pattern: any NaN's pattern gives NaN.
fn number_of(pattern: u64) -> f64
    ensures { result ≡ of_bits binary64 pattern }
{
    if 0x7ff0_0000_0000_0000 < pattern % 0x8000_0000_0000_0000 {
        return 0.0 / 0.0;
    }
    f64::from_bits(pattern)
}

// The number of a pattern that eight bytes stand for.
fn number_from(bytes: [u8; 8]) -> f64
    ensures { result ≡ of_bits binary64 (from_little_endian bytes) }
{
    number_of(pattern_from(bytes))
}

// The pattern of a number.
fn pattern_of(number: f64) -> u64
    ensures { result ≡ to_bits binary64 number }
{
    if number.is_nan() {
        return NAN_PATTERN;
    }
    f64::to_bits(number)
}

// What f makes of each item, and how many there are.
fn convert<A: Copy, B: Copy, F: Fn(A) -> B>(
    items: &[A],
    f: F,
    out: &mut [B],
) -> Result<usize, Refusal>
    requires { F.IsAlwaysCallable f }
    ensures { (g : A → B) → Makes (F.post f) g items.now → Writes (converted g items.now (length out.old)) result out.old out.new }
{
    if out.len() < items.len() {
        return Err(Refusal::NoRoom);
    }
    put_made(items, f, out);
    Ok(items.len())
}

// The numbers of patterns, and how many there are.
pub fn numbers_of(patterns: &[u64], out: &mut [f64]) -> Result<usize, Refusal>
    ensures { Writes (numbers_of patterns.now (length out.old)) result out.old out.new }
{
    convert(patterns, number_of, out)
}

// The numbers of patterns that are bytes, eight each, and how many there are.
pub fn numbers_in(bytes: &[u8], out: &mut [f64]) -> Result<usize, Refusal>
    ensures { Writes (numbers_in bytes.now (length out.old)) result out.old out.new }
{
    let (patterns, rest) = bytes.as_chunks::<8>();
    if !rest.is_empty() {
        return Err(Refusal::WrongCount);
    }
    convert(patterns, number_from, out)
}

// The patterns of numbers, and how many there are.
pub fn patterns_of(numbers: &[f64], out: &mut [u64]) -> Result<usize, Refusal>
    ensures { Writes (patterns_of numbers.now (length out.old)) result out.old out.new }
{
    convert(numbers, pattern_of, out)
}
