// The calls of the crate `sheets`: each is made as its line says, and what comes out is held against the answer that the
// line gives. Bytes, patterns and numbers stand in the caller's space.
use super::calls::NoCall;
use super::shapes::{BLANK, parts, shape_words};
use super::sheet_lines::blank_shapes;
use super::words::Words;
use masks::outcome::Refusal;
use sheets::read::SheetRead;
use sheets::values::Placed;
use sheets::{patterns, read, values, write};

// How many words the answer of a read has: three, and five for each shape that is held.
const READ_WORDS: u64 = 323;

#[derive(Clone, Copy, PartialEq, Eq, Debug)]
pub enum SheetOp {
    Read,
    Write,
    ValueAt,
    NumbersOf,
    PatternsOf,
}

impl TryFrom<u64> for SheetOp {
    type Error = NoCall;

    fn try_from(number: u64) -> Result<SheetOp, NoCall> {
        Ok(match number {
            57 => SheetOp::Read,
            58 => SheetOp::Write,
            59 => SheetOp::ValueAt,
            60 => SheetOp::NumbersOf,
            61 => SheetOp::PatternsOf,
            _ => return Err(NoCall),
        })
    }
}

// Room for the bytes, the patterns and the numbers of a line on sheets.
#[derive(Drop)]
pub struct Space<'a> {
    pub bytes: &'a mut [u8],
    pub patterns: &'a mut [u64],
    pub numbers: &'a mut [f64],
}

// Whether a sheet that was read is the one that the line gives.
fn says_read(line: &mut Words, answer: Result<SheetRead, Refusal>) -> bool {
    let blank = SheetRead {
        shapes: blank_shapes(),
        count: 0,
    };
    let (number, sheet) = parts(answer, blank);
    let head = [
        READ_WORDS,
        number,
        sheet.shapes.count as u64,
        sheet.count as u64,
    ];
    line.are_next(&head) && line.are_next_shapes(sheet.shapes)
}

// The bytes; then nothing, and the room for patterns.
fn read_agrees(line: &mut Words, space: &mut Space) -> bool {
    let bytes = line.read_into(&mut *space.bytes);
    line.next_word();
    let out = line.room(&mut *space.patterns);
    let answer = read::read(bytes, out);
    says_read(line, answer) && line.gives(out)
}

// The shapes, of which so many are listed, the patterns, and the room for bytes.
fn write_agrees(line: &mut Words, count: usize, space: &mut Space) -> bool {
    let shapes = line.read_shapes(count);
    let patterns = line.read_into(&mut *space.patterns);
    let out = line.room(&mut *space.bytes);
    let answer = write::write(shapes, patterns, out);
    line.says_count(answer) && line.gives(out)
}

// The shapes, of which so many are listed; then nothing, and no room.
fn value_at_agrees(line: &mut Words, count: usize, index: usize) -> bool {
    let shapes = line.read_shapes(count);
    line.next_word();
    line.next_word();
    let blank = Placed {
        shape: BLANK,
        start: 0,
    };
    let (number, placed) = parts(values::value_at(shapes, index), blank);
    let [dims, kind, p, n, z] = shape_words(placed.shape);
    line.says(&[number, dims, kind, p, n, z, placed.start as u64]) && line.next_word() == 0
}

// The patterns; then nothing, and the room for numbers.
fn numbers_agree(line: &mut Words, space: &mut Space) -> bool {
    let patterns = line.read_into(&mut *space.patterns);
    line.next_word();
    let out = line.room(&mut *space.numbers);
    let answer = patterns::numbers_of(patterns, out);
    line.says_count(answer) && line.gives(out)
}

// The numbers, given by their patterns; then nothing, and the room for patterns.
fn patterns_agree(line: &mut Words, space: &mut Space) -> bool {
    let numbers = line.read_into(&mut *space.numbers);
    line.next_word();
    let out = line.room(&mut *space.patterns);
    let answer = patterns::patterns_of(numbers, out);
    line.says_count(answer) && line.gives(out)
}

impl SheetOp {
    // Whether the call of a line gives what the line says; the words have the count of the shapes that are listed, and an index.
    pub fn agrees(self, words: [u64; 16], line: &mut Words, space: &mut Space) -> bool {
        let [count, index, ..] = words;
        match self {
            SheetOp::Read => read_agrees(line, space),
            SheetOp::Write => write_agrees(line, count as usize, space),
            SheetOp::ValueAt => value_at_agrees(line, count as usize, index as usize),
            SheetOp::NumbersOf => numbers_agree(line, space),
            SheetOp::PatternsOf => patterns_agree(line, space),
        }
    }
}
