// The calls by their number, and one call on values held against its answer.
use super::flavor_calls::FlavorOp;
use super::product_calls::ProductOp;
use super::shape_calls::ShapeOp;
use super::shapes::{flavor_from, shape_from};
use super::sheet_calls::SheetOp;
use super::values::ValueOp;
use super::words::{Words, byte};
use masks::flavor::Flavor;
use masks::shape::Shape;

// The calls, by the crate and the file that has them.
#[derive(Clone, Copy, PartialEq, Eq, Debug)]
pub enum Op {
    Flavor(FlavorOp),
    Shape(ShapeOp),
    Product(ProductOp),
    Value(ValueOp),
    Sheet(SheetOp),
    Replay,
}

// No call has the number.
#[derive(Clone, Copy, PartialEq, Eq, Debug)]
pub struct NoCall;

impl TryFrom<u64> for Op {
    type Error = NoCall;

    fn try_from(number: u64) -> Result<Op, NoCall> {
        Ok(match number {
            1..=6 | 26 | 32 | 53..=56 | 62 => Op::Flavor(FlavorOp::try_from(number)?),
            7..=25 => Op::Shape(ShapeOp::try_from(number)?),
            27..=31 => Op::Product(ProductOp::try_from(number)?),
            33..=52 => Op::Value(ValueOp::try_from(number)?),
            57..=61 => Op::Sheet(SheetOp::try_from(number)?),
            64 => Op::Replay,
            _ => return Err(NoCall),
        })
    }
}

// What a call takes: words, of which so many are given and the others are 0, two lists of numbers, and two outputs.
#[derive(Drop)]
pub struct Call<'i, 'o> {
    pub words: [u64; 16],
    pub given: usize,
    pub a: &'i [f64],
    pub b: &'i [f64],
    pub out: &'o mut [f64],
    pub right: &'o mut [f64],
}

impl<'i, 'o> Call<'i, 'o> {
    // A flavor stands after one word.
    pub fn flavor(&self) -> Flavor {
        let w = self.words;
        flavor_from([w[1], w[2], w[3], w[4]])
    }

    pub fn shape(&self) -> Shape {
        let w = self.words;
        shape_from([w[0], w[1], w[2], w[3], w[4]])
    }

    pub fn second_shape(&self) -> Shape {
        let w = self.words;
        shape_from([w[5], w[6], w[7], w[8], w[9]])
    }

    pub fn second_flavor(&self) -> Flavor {
        let shape = self.second_shape();
        shape.flavor
    }

    // The dimensions, and what stands behind a shape.
    pub fn dims(&self) -> u8 {
        byte(self.words[0])
    }

    pub fn sixth(&self) -> u8 {
        byte(self.words[5])
    }

    // The number of a call that takes one.
    pub fn number(&self) -> Option<f64> {
        self.b.first().copied()
    }
}

// Numbers to an output, as far as it goes.
pub fn put<T: Copy + Into<f64>>(items: &[T], out: &mut [f64]) {
    for (to, item) in out.iter_mut().zip(items.iter()) {
        *to = (*item).into();
    }
}

// Whether a call answers the words that the line gives. No call answers none.
fn is_answered(op: Option<Op>, call: &mut Call, line: &mut Words) -> bool {
    match op {
        Some(Op::Flavor(op)) => op.agrees(call, line),
        Some(Op::Shape(op)) => op.agrees(call, line),
        Some(Op::Product(op)) => op.agrees(call, line),
        Some(Op::Value(op)) => op.agrees(call, line),
        _ => line.says(&[]),
    }
}

// Whether the call of a line gives what the line says: words, and what the outputs hold.
pub fn agrees(op: Option<Op>, words: [u64; 16], given: usize, line: &mut Words) -> bool {
    let mut a_space = [0.0; 520];
    let mut b_space = [0.0; 520];
    let mut out_space = [0.0; 520];
    let mut right_space = [0.0; 520];
    let a = line.read_into(&mut a_space);
    let b = line.read_into(&mut b_space);
    let out = line.room(&mut out_space);
    let right = line.room(&mut right_space);
    let mut call = Call {
        words,
        given,
        a,
        b,
        out: &mut *out,
        right: &mut *right,
    };
    let answered = is_answered(op, &mut call, line);
    answered && line.gives(out) && line.gives(right)
}
