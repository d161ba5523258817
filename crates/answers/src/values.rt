// The calls of the crate `arithmetic`.
use super::calls::{Call, NoCall, put};
use super::shapes::{BLANK, parts, shape_words};
use super::words::Words;
use arithmetic::outcome::Taken;
use arithmetic::scalar::ScalarTest;
use arithmetic::{
    compare, dual, inverse, kept, magnitude, operators, power, quotient, reverse, scalar, scale,
};
use std::cmp::Ordering;

#[derive(Clone, Copy, PartialEq, Eq, Debug)]
pub enum ValueOp {
    ScalarTest,
    Mul,
    Add,
    Sub,
    MulF64,
    DivF64,
    Div,
    Neg,
    Reverse,
    InvReverse,
    Dual,
    Antidual,
    RegressiveProduct,
    SquaredMagnitude,
    Inverted,
    Powi,
    Eq,
    Cmp,
    TakeScalar,
    MakeScalarOnly,
}

impl TryFrom<u64> for ValueOp {
    type Error = NoCall;

    fn try_from(number: u64) -> Result<ValueOp, NoCall> {
        Ok(match number {
            33 => ValueOp::ScalarTest,
            34 => ValueOp::Mul,
            35 => ValueOp::Add,
            36 => ValueOp::Sub,
            37 => ValueOp::MulF64,
            38 => ValueOp::DivF64,
            39 => ValueOp::Div,
            40 => ValueOp::Neg,
            41 => ValueOp::Reverse,
            42 => ValueOp::InvReverse,
            43 => ValueOp::Dual,
            44 => ValueOp::Antidual,
            45 => ValueOp::RegressiveProduct,
            46 => ValueOp::SquaredMagnitude,
            47 => ValueOp::Inverted,
            48 => ValueOp::Powi,
            49 => ValueOp::Eq,
            50 => ValueOp::Cmp,
            51 => ValueOp::TakeScalar,
            52 => ValueOp::MakeScalarOnly,
            _ => return Err(NoCall),
        })
    }
}

// The test's answer as a word: scalar, planar or neither. The numbers that it gives go to the output.
fn scalar_test(call: &mut Call, line: &mut Words) -> bool {
    let answer = scalar::scalar_test(call.shape(), call.a);
    let (number, test) = parts(answer, ScalarTest::Neither);
    let word = match test {
        ScalarTest::Scalar(x) => {
            put(&[x], call.out);
            0
        }
        ScalarTest::Planar(c) => {
            put(&[c.re, c.im], call.out);
            1
        }
        ScalarTest::Neither => 2,
    };
    line.says(&[number, word])
}

fn squared_magnitude(call: &mut Call, line: &mut Words) -> bool {
    let answer = magnitude::squared_magnitude(call.shape(), call.a);
    let (number, value) = parts(answer, 0.0);
    put(&[value], call.out);
    line.says(&[number])
}

fn take_scalar(call: &mut Call, line: &mut Words) -> bool {
    let blank = Taken {
        shape: BLANK,
        value: 0.0,
    };
    let (number, taken) = parts(kept::take_scalar(call.shape(), call.a, call.out), blank);
    put(&[taken.value], call.right);
    let [dims, kind, p, n, z] = shape_words(taken.shape);
    line.says(&[number, dims, kind, p, n, z])
}

// The power of a word's last 32 digits, in two's complement.
fn power_in(word: u64) -> i32 {
    let low = word % 0x1_0000_0000;
    if low < 0x8000_0000 {
        return low as i32;
    }
    !((0xffff_ffff - low) as i32)
}

// By a number, where the line gives one.
fn by_number(op: ValueOp, call: &mut Call, line: &mut Words) -> bool {
    let Some(x) = call.number() else {
        return line.says(&[]);
    };
    line.says_shape(match op {
        ValueOp::MulF64 => scale::mul_f64(call.shape(), x, call.a, call.out),
        _ => scale::div_f64(call.shape(), x, call.a, call.out),
    })
}

fn eq(call: &Call, line: &mut Words) -> bool {
    let answer = compare::eq(call.shape(), call.second_shape(), call.a, call.b);
    let (number, yes) = parts(answer, false);
    line.says(&[number, yes as u64])
}

fn cmp(call: &Call, line: &mut Words) -> bool {
    let answer = compare::cmp(call.shape(), call.second_shape(), call.a, call.b);
    let (number, order) = parts(answer, Ordering::Equal);
    let word = match order {
        Ordering::Less => 0,
        Ordering::Equal => 1,
        Ordering::Greater => 2,
    };
    line.says(&[number, word])
}

// Of two values.
fn of_two(op: ValueOp, call: &mut Call, line: &mut Words) -> bool {
    let (s, t) = (call.shape(), call.second_shape());
    line.says_shape(match op {
        ValueOp::Mul => operators::mul(s, t, call.a, call.b, call.out),
        ValueOp::Add => operators::add(s, t, call.a, call.b, call.out),
        ValueOp::Sub => operators::sub(s, t, call.a, call.b, call.out),
        ValueOp::Div => quotient::div(s, t, call.a, call.b, call.out),
        _ => dual::regressive_product(s, t, call.a, call.b, call.out),
    })
}

// Of one value.
fn of_one(op: ValueOp, call: &mut Call, line: &mut Words) -> bool {
    let s = call.shape();
    line.says_shape(match op {
        ValueOp::Neg => scale::neg(s, call.a, call.out),
        ValueOp::Reverse => reverse::reverse(s, call.a, call.out),
        ValueOp::InvReverse => reverse::inv_reverse(s, call.a, call.out),
        ValueOp::Dual => dual::dual(s, call.a, call.out),
        ValueOp::Antidual => dual::antidual(s, call.a, call.out),
        ValueOp::Inverted => inverse::inverted(s, call.a, call.out),
        ValueOp::Powi => power::powi(s, power_in(call.words[5]), call.a, call.out),
        _ => kept::make_scalar_only(s, call.a, call.out),
    })
}

impl ValueOp {
    pub fn agrees(self, call: &mut Call, line: &mut Words) -> bool {
        match self {
            ValueOp::ScalarTest => scalar_test(call, line),
            ValueOp::SquaredMagnitude => squared_magnitude(call, line),
            ValueOp::TakeScalar => take_scalar(call, line),
            ValueOp::Eq => eq(call, line),
            ValueOp::Cmp => cmp(call, line),
            ValueOp::MulF64 | ValueOp::DivF64 => by_number(self, call, line),
            ValueOp::Mul
            | ValueOp::Add
            | ValueOp::Sub
            | ValueOp::Div
            | ValueOp::RegressiveProduct => of_two(self, call, line),
            _ => of_one(self, call, line),
        }
    }
}
