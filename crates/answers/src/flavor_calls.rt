// The calls of the crate `masks` that take no value.
use super::calls::{Call, NoCall, put};
use super::shapes::{flavor_words, parts, shape_words};
use super::words::{Words, byte};
use masks::flavor::{Flavor, Metric, null_flavor};
use masks::order;
use masks::outcome::{pair_refusal, refusal_of, shape_of, value_refusal};
use masks::shape::promotion;

#[derive(Clone, Copy, PartialEq, Eq, Debug)]
pub enum FlavorOp {
    GradeSize,
    BladeCount,
    OrderOf,
    Metric,
    TryFromStr,
    WriteTo,
    NullFlavor,
    Promotion,
    AddedDims,
    RefusalOf,
    ValueRefusal,
    PairRefusal,
    ShapeOf,
}

impl TryFrom<u64> for FlavorOp {
    type Error = NoCall;

    fn try_from(number: u64) -> Result<FlavorOp, NoCall> {
        Ok(match number {
            1 => FlavorOp::GradeSize,
            2 => FlavorOp::BladeCount,
            3 => FlavorOp::OrderOf,
            4 => FlavorOp::Metric,
            5 => FlavorOp::TryFromStr,
            6 => FlavorOp::WriteTo,
            26 => FlavorOp::NullFlavor,
            32 => FlavorOp::Promotion,
            53 => FlavorOp::AddedDims,
            54 => FlavorOp::RefusalOf,
            55 => FlavorOp::ValueRefusal,
            56 => FlavorOp::PairRefusal,
            62 => FlavorOp::ShapeOf,
            _ => return Err(NoCall),
        })
    }
}

fn order_of(call: &mut Call, line: &mut Words) -> bool {
    match order::order_of(call.dims()) {
        Ok(order) => {
            put(&order.masks, call.out);
            put(&order.places, call.right);
            line.says(&[0, order.dims as u64])
        }
        Err(refusal) => line.says(&[refusal.number() as u64, 0]),
    }
}

fn metric(call: &Call, line: &mut Words) -> bool {
    let word = match call.flavor().metric(call.sixth()) {
        Metric::Minus => 0,
        Metric::Zero => 1,
        Metric::Plus => 2,
    };
    line.says(&[word])
}

// The bytes of a text stand one to a word.
fn try_from_str(call: &Call, line: &mut Words) -> bool {
    let mut text = [0u8; 16];
    for (to, word) in text.iter_mut().zip(call.words.iter()) {
        *to = byte(*word);
    }
    let Some(text) = text.get(..call.given) else {
        return line.says(&[]);
    };
    let (number, flavor) = parts(Flavor::try_from_str(text), Flavor::Vanilla);
    let [kind, p, n, z] = flavor_words(flavor);
    line.says(&[number, kind, p, n, z])
}

// The bytes that are there before stand for those past the text.
fn write_to(call: &mut Call, line: &mut Words) -> bool {
    let mut text = [7u8; 16];
    let Some(room) = text.get_mut(..call.out.len()) else {
        return line.says(&[]);
    };
    let answer = call.flavor().write_to(room);
    put(room, call.out);
    line.says_count(answer)
}

// Dimensions, counts and rooms, as the call takes them.
fn refusal(op: FlavorOp, call: &Call, line: &mut Words) -> bool {
    let [_, e, i, j, k, m, ..] = call.words;
    let (d, e) = (call.dims(), byte(e));
    let (i, j, k) = (i as usize, j as usize, k as usize);
    line.says_done(match op {
        FlavorOp::RefusalOf => refusal_of(d, e, i, j, k),
        FlavorOp::ValueRefusal => value_refusal(d, i),
        _ => pair_refusal(d, e, byte(m), i, j, k),
    })
}

impl FlavorOp {
    pub fn agrees(self, call: &mut Call, line: &mut Words) -> bool {
        let flavor = call.flavor();
        match self {
            FlavorOp::GradeSize => {
                line.says_count(order::grade_size(call.dims(), byte(call.words[1])))
            }
            FlavorOp::BladeCount => line.says_count(order::blade_count(call.dims())),
            FlavorOp::OrderOf => order_of(call, line),
            FlavorOp::Metric => metric(call, line),
            FlavorOp::TryFromStr => try_from_str(call, line),
            FlavorOp::WriteTo => write_to(call, line),
            FlavorOp::NullFlavor => line.says(&flavor_words(null_flavor())),
            FlavorOp::Promotion => line.says(&[promotion(flavor, call.second_flavor()) as u64]),
            FlavorOp::AddedDims => line.says(&[flavor.added_dims() as u64]),
            FlavorOp::ShapeOf => line.says(&shape_words(shape_of(call.dims(), flavor))),
            _ => refusal(self, call, line),
        }
    }
}
