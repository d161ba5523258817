// The text of a flavor, read and written.
ghost use Rattle.std.specs.Prelude.{◌≡◌, [], ◌∷◌, reverse, ◌+◌, ◌-◌, ◌≤◌, leb, length, take, drop};
ghost use Rattle.std.proofs.lemmas.List.Edits.{sets};
ghost use Rattle.masks.specs.Outcome.{IsAnswer, Writes, laid};
ghost use Rattle.masks.specs.Text.{blank, separator, take_while, drop_while, every, same, trimmed, part, after_part, octet_of, octet, or_zero, read_flavor, decimal, text_of, write_flavor};
ghost use Rattle.masks.specs.inner.Text.{spec_of, read_cl};

use super::flavor::Flavor;
use super::outcome::Refusal;

fn is_blank(c: u8) -> bool
    ensures { result ≡ blank c }
{
    matches!(c, 9..=13 | b' ')
}

fn is_separator(c: u8) -> bool
    ensures { result ≡ separator c }
{
    matches!(c, b' ' | b'\t' | b',')
}

// Whether no byte is above 127.
fn is_ascii(t: &[u8]) -> bool
    ensures { result ≡ every (λ c. leb c 127) t.now }
{
    t.iter().all(|c| *c <= 127)
}

// The text without the blanks at its front.
fn trim_start(mut t: &[u8]) -> &[u8]
    ensures { result.now ≡ drop_while blank t.now }
{
    while let [first, rest @ ..] = t
        && is_blank(*first)
    {
        t = rest;
    }
    t
}

// The text without the blanks at its back.
fn trim_end(mut t: &[u8]) -> &[u8]
    ensures { result.now ≡ reverse (drop_while blank (reverse t.now)) }
{
    while let [rest @ .., last] = t
        && is_blank(*last)
    {
        t = rest;
    }
    t
}

// The text without the blanks at its ends.
fn trim(t: &[u8]) -> &[u8]
    ensures { result.now ≡ trimmed t.now }
{
    trim_end(trim_start(t))
}

// The text without the separators at its front.
fn skip_separators(mut t: &[u8]) -> &[u8]
    ensures { result.now ≡ drop_while separator t.now }
{
    while let [first, rest @ ..] = t
        && is_separator(*first)
    {
        t = rest;
    }
    t
}

// The first part that is not empty, and what follows it.
fn split_part(t: &[u8]) -> (&[u8], &[u8])
    ensures part { result.0.now ≡ part t.now }
    ensures after { result.1.now ≡ after_part t.now }
{
    let rest = skip_separators(t);
    let end = rest.iter().position(|c| is_separator(*c));
    rest.split_at(end.unwrap_or(rest.len()))
}

// Digits as a number of at most 255. Byte by byte: `parse` takes text, and a part is bytes.
fn digits(t: &[u8]) -> Option<u8>
    ensures { result ≡ octet_of t.now }
{
    if t.is_empty() {
        return None;
    }
    let mut v: u32 = 0;
    for c in t {
        if !c.is_ascii_digit() {
            return None;
        }
        v = v * 10 + (*c - b'0') as u32;
        if 255 < v {
            return None;
        }
    }
    Some(v as u8)
}

// A part as a u8: a leading + and zeros allowed.
fn octet_in(t: &[u8]) -> Option<u8>
    ensures { result ≡ octet t.now }
{
    match t {
        [b'+', rest @ ..] => digits(rest),
        _ => digits(t),
    }
}

// The number of a part, 0 where it is missing or no u8.
fn octet_or_zero(t: &[u8]) -> u8
    ensures { result ≡ or_zero (octet t.now) }
{
    octet_in(t).unwrap_or(0)
}

// The spec of a Cl flavor.
fn read_spec(t: &[u8]) -> Result<Flavor, Refusal>
    ensures { IsAnswer (spec_of t.now).number (spec_of t.now).flavor result }
{
    let (first, rest) = split_part(t);
    let (second, rest) = split_part(rest);
    let (third, rest) = split_part(rest);
    let (fourth, _) = split_part(rest);
    let p = octet_in(first).ok_or(Refusal::NoSpec)?;
    if !fourth.is_empty() {
        return Err(Refusal::NoSpec);
    }
    Ok(Flavor::Cl(p, octet_or_zero(second), octet_or_zero(third)))
}

// Text that begins with Cl, and any other.
fn read_cl(t: &[u8]) -> Result<Flavor, Refusal>
    ensures { IsAnswer (read_cl t.now).number (read_cl t.now).flavor result }
{
    match t {
        [b'C', b'l', spec @ ..] => read_spec(trim(spec)),
        _ => Err(Refusal::NoFlavor),
    }
}

// How many bytes a number takes in decimal.
fn decimal_length(n: u8) -> usize
    ensures { result ≡ length (decimal n) }
{
    match n {
        0..=9 => 1,
        10..=99 => 2,
        _ => 3,
    }
}

// A number in decimal, written from the place `at` on; the place after it. By hand: the room is tested before a byte is
// written, so `write!` would need a writer over the slice beside it.
fn put_decimal(n: u8, out: &mut [u8], at: usize) -> usize
    requires { at + length (decimal n) ≤ length out.old }
    ensures { (result ≡ at + length (decimal n)) × (out.new ≡ sets out.old at (decimal n)) }
{
    let ones = b'0' + n % 10;
    let tens = b'0' + n / 10 % 10;
    let end = at + decimal_length(n);
    match n {
        0..=9 => out[at] = ones,
        10..=99 => out[at..end].copy_from_slice(&[tens, ones]),
        _ => out[at..end].copy_from_slice(&[b'0' + n / 100, tens, ones]),
    }
    end
}

// A space and a number.
fn put_spaced(n: u8, out: &mut [u8], at: usize) -> usize
    requires { at + 1 + length (decimal n) ≤ length out.old }
    ensures { (result ≡ at + 1 + length (decimal n)) × (out.new ≡ sets out.old at (32 ∷ decimal n)) }
{
    out[at] = b' ';
    put_decimal(n, out, at + 1)
}

// How many bytes a Cl flavor's text has.
fn cl_length(p: u8, n: u8, z: u8) -> usize
    ensures { result ≡ length (text_of (Flavor.Cl p n z)) }
{
    if z != 0 {
        5 + decimal_length(p) + decimal_length(n) + decimal_length(z)
    } else if n != 0 {
        4 + decimal_length(p) + decimal_length(n)
    } else {
        2 + decimal_length(p)
    }
}

// The text of a Cl flavor, from the front of the output.
fn put_cl(p: u8, n: u8, z: u8, out: &mut [u8])
    requires { length (text_of (Flavor.Cl p n z)) ≤ length out.old }
    ensures { out.new ≡ laid (text_of (Flavor.Cl p n z)) out.old }
{
    out[0] = b'C';
    out[1] = b'l';
    if z != 0 {
        let at = put_spaced(p, out, 2);
        let next = put_spaced(n, out, at);
        put_spaced(z, out, next);
    } else if n != 0 {
        let at = put_spaced(p, out, 2);
        put_spaced(n, out, at);
    } else {
        put_decimal(p, out, 2);
    }
}

fn text_length(f: Flavor) -> usize
    ensures { result ≡ length (text_of f) }
{
    match f {
        Flavor::Vanilla | Flavor::Projective => 3,
        Flavor::Cl(p, n, z) => cl_length(p, n, z),
    }
}

fn put_text(f: Flavor, out: &mut [u8])
    requires { length (text_of f) ≤ length out.old }
    ensures { out.new ≡ laid (text_of f) out.old }
{
    match f {
        Flavor::Vanilla => out[..3].copy_from_slice(b"VGA"),
        Flavor::Projective => out[..3].copy_from_slice(b"PGA"),
        Flavor::Cl(p, n, z) => put_cl(p, n, z, out),
    }
}

impl Flavor {
    // The flavor of a text.
    pub fn try_from_str(t: &[u8]) -> Result<Flavor, Refusal>
        ensures { IsAnswer (read_flavor t.now).number (read_flavor t.now).flavor result }
    {
        if !is_ascii(t) {
            return Err(Refusal::NoFlavor);
        }
        match t {
            b"VGA" => Ok(Flavor::Vanilla),
            b"PGA" => Ok(Flavor::Projective),
            _ => read_cl(t),
        }
    }

    // The text of the flavor, and how many bytes it has.
    pub fn write_to(self, out: &mut [u8]) -> Result<usize, Refusal>
        ensures { Writes (write_flavor self (length out.old)) result out.old out.new }
    {
        let count = text_length(self);
        if out.len() < count {
            return Err(Refusal::NoRoom);
        }
        put_text(self, out);
        Ok(count)
    }
}
