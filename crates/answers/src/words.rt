// Hexadecimal words of a line, and what they say: numbers by their patterns, patterns and bytes.
ghost use Rattle.std.specs.Prelude.{◌<◌, ◌≤◌, IfSome};

// A hexadecimal digit's value.
fn digit(c: u8) -> Option<u64>
    ensures { IfSome result (λ d. d < 16) }
{
    match c {
        b'0'..=b'9' => Some((c - b'0') as u64),
        b'a'..=b'f' => Some((c - b'a' + 10) as u64),
        _ => None,
    }
}

// A NaN of either sign, as the machine has it.
fn nan_of(negative: bool) -> f64 {
    let nan = 0.0 / 0.0;
    if negative { -nan } else { nan }
}

// The number of a pattern: any NaN's pattern gives a NaN.
fn number_of(bits: u64) -> f64 {
    let size = bits % 0x8000_0000_0000_0000;
    if 0x7ff0_0000_0000_0000 < size {
        return nan_of(size < bits);
    }
    f64::from_bits(bits)
}

// The pattern of a number: one pattern for every NaN.
fn bits_of(x: f64) -> u64 {
    if x == x {
        return f64::to_bits(x);
    }
    0x7ff8_0000_0000_0000
}

// The same pattern for every NaN, and any other as it is.
fn one_nan(bits: u64) -> u64 {
    let size = bits % 0x8000_0000_0000_0000;
    if 0x7ff0_0000_0000_0000 < size {
        return 0x7ff8_0000_0000_0000;
    }
    bits
}

// What stands in an input or an output of a call.
pub trait Item: Copy {
    // The word of what an output holds before a call, in every place.
    const MARK: u64;

    // What a word says.
    fn from_word(word: u64) -> Self;

    // Whether a word says it.
    fn is(self, word: u64) -> bool;
}

impl Item for f64 {
    const MARK: u64 = 0x4132_d687_1000_0000;

    fn from_word(word: u64) -> f64 {
        number_of(word)
    }

    // All NaNs are one.
    fn is(self, word: u64) -> bool {
        bits_of(self) == one_nan(word)
    }
}

impl Item for u64 {
    const MARK: u64 = 0x4132_d687_1000_0000;

    fn from_word(word: u64) -> u64 {
        word
    }

    fn is(self, word: u64) -> bool {
        self == word
    }
}

pub fn byte(word: u64) -> u8 {
    (word % 256) as u8
}

impl Item for u8 {
    const MARK: u64 = 0xa5;

    fn from_word(word: u64) -> u8 {
        byte(word)
    }

    fn is(self, word: u64) -> bool {
        self as u64 == word
    }
}

pub fn at_most(n: u64, most: usize) -> usize
    ensures { result ≤ most }
{
    if n < most as u64 { n as usize } else { most }
}

// The words of a line that are still to be read.
#[derive(Drop)]
pub struct Words<'a> {
    pub rest: &'a [u8],
}

impl<'a> Words<'a> {
    // The next word: its last sixteen digits count, and one byte after it is passed over. At the end of the line it is 0.
    pub fn next_word(&mut self) -> u64 {
        let mut value: u64 = 0;
        while let Some((c, rest)) = self.rest.split_first() {
            self.rest = rest;
            match digit(*c) {
                Some(d) => value = value << 4 | d,
                None => return value,
            }
        }
        value
    }

    // A count, and that many items as far as there is room for them: those that were read.
    pub fn read_into<'s, T: Item>(&mut self, to: &'s mut [T]) -> &'s [T] {
        let count = at_most(self.next_word(), to.len());
        let items = &mut to[..count];
        for item in items.iter_mut() {
            *item = T::from_word(self.next_word());
        }
        items
    }

    // As much of a space as the next word says, marked in every place.
    pub fn room<'s, T: Item>(&mut self, space: &'s mut [T]) -> &'s mut [T] {
        let count = at_most(self.next_word(), space.len());
        let out = &mut space[..count];
        for item in out.iter_mut() {
            *item = T::from_word(T::MARK);
        }
        out
    }

    // Whether the next words are these.
    pub fn are_next(&mut self, words: &[u64]) -> bool {
        for word in words {
            if self.next_word() != *word {
                return false;
            }
        }
        true
    }

    // The same with their count before them.
    pub fn says(&mut self, words: &[u64]) -> bool {
        self.next_word() == words.len() as u64 && self.are_next(words)
    }

    // Whether an output holds the items that the line gives, and past them its marks.
    pub fn gives<T: Item>(&mut self, out: &[T]) -> bool {
        let count = self.next_word();
        if (out.len() as u64) < count {
            return false;
        }
        let (given, kept) = out.split_at(count as usize);
        for item in given {
            if !item.is(self.next_word()) {
                return false;
            }
        }
        kept.iter().all(|item| item.is(T::MARK))
    }
}
