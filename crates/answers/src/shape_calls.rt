// The calls of the crate `masks` on values, and those that make one.
use super::calls::{Call, NoCall, put};
use super::shapes::{BLANK, parts, shape_words};
use super::words::Words;
use masks::build;

#[derive(Clone, Copy, PartialEq, Eq, Debug)]
pub enum ShapeOp {
    SetDims,
    SetFlavor,
    ConformTo,
    Conform,
    GetBlade,
    SetBlade,
    Grade,
    Vector,
    N1Blades,
    Scalar,
    Pseudoscalar,
    BladesLeft,
    BladesRight,
    UnpackAll,
    UnpackEven,
    UnpackOdd,
    UnpackOwnEven,
    UnpackOwnOdd,
    UnpackVector,
}

impl TryFrom<u64> for ShapeOp {
    type Error = NoCall;

    fn try_from(number: u64) -> Result<ShapeOp, NoCall> {
        Ok(match number {
            7 => ShapeOp::SetDims,
            8 => ShapeOp::SetFlavor,
            9 => ShapeOp::ConformTo,
            10 => ShapeOp::Conform,
            11 => ShapeOp::GetBlade,
            12 => ShapeOp::SetBlade,
            13 => ShapeOp::Grade,
            14 => ShapeOp::Vector,
            15 => ShapeOp::N1Blades,
            16 => ShapeOp::Scalar,
            17 => ShapeOp::Pseudoscalar,
            18 => ShapeOp::BladesLeft,
            19 => ShapeOp::BladesRight,
            20 => ShapeOp::UnpackAll,
            21 => ShapeOp::UnpackEven,
            22 => ShapeOp::UnpackOdd,
            23 => ShapeOp::UnpackOwnEven,
            24 => ShapeOp::UnpackOwnOdd,
            25 => ShapeOp::UnpackVector,
            _ => return Err(NoCall),
        })
    }
}

fn conform(call: &mut Call, line: &mut Words) -> bool {
    let answer = call
        .shape()
        .conform(call.second_shape(), call.a, call.b, call.out, call.right);
    let (number, (left, right)) = parts(answer, (BLANK, BLANK));
    let [d, kind, p, n, z] = shape_words(left);
    let [e, other, q, m, y] = shape_words(right);
    line.says(&[number, d, kind, p, n, z, e, other, q, m, y])
}

fn get_blade(call: &mut Call, line: &mut Words) -> bool {
    let answer = call.shape().get_blade(call.words[5] as usize, call.a);
    let (number, value) = parts(answer, 0.0);
    put(&[value], call.out);
    line.says(&[number])
}

fn grade(call: &mut Call, line: &mut Words) -> bool {
    let (number, _) = parts(call.shape().grade_refusal(call.sixth(), call.a), ());
    let part = call.shape().grade(call.sixth(), call.a);
    put(part, call.out);
    line.says(&[number, part.len() as u64])
}

// The calls that take a number, where the line gives one.
fn numbered(op: ShapeOp, x: f64, call: &mut Call, line: &mut Words) -> bool {
    let d = call.dims();
    line.says_shape(match op {
        ShapeOp::SetBlade => {
            call.shape()
                .set_blade(call.words[5] as usize, x, call.a, call.out)
        }
        ShapeOp::Scalar => build::scalar(d, x, call.flavor(), call.out),
        _ => build::pseudoscalar(d, x, call.flavor(), call.out),
    })
}

// The calls that answer a value.
fn shaped(op: ShapeOp, call: &mut Call, line: &mut Words) -> bool {
    let (s, d) = (call.shape(), call.dims());
    let flavor = s.flavor;
    line.says_shape(match op {
        ShapeOp::SetDims => s.set_dims(call.sixth(), call.a, call.out),
        ShapeOp::SetFlavor => s.set_flavor(call.second_flavor(), call.a, call.out),
        ShapeOp::ConformTo => s.conform_to(call.second_shape(), call.a, call.out),
        ShapeOp::Vector => build::vector(call.a, flavor, call.out),
        ShapeOp::N1Blades => build::n_1_blades(call.a, flavor, call.out),
        ShapeOp::BladesLeft => build::blades_left(d, call.a, flavor, call.out),
        _ => build::blades_right(d, call.a, flavor, call.out),
    })
}

// The calls that answer a count.
fn unpacked(op: ShapeOp, call: &mut Call, line: &mut Words) -> bool {
    let (s, d) = (call.shape(), call.sixth());
    line.says_count(match op {
        ShapeOp::UnpackAll => s.unpack_all(d, call.a, call.out),
        ShapeOp::UnpackEven => s.unpack_even(d, call.a, call.out),
        ShapeOp::UnpackOdd => s.unpack_odd(d, call.a, call.out),
        ShapeOp::UnpackOwnEven => s.unpack_own_even(call.a, call.out),
        ShapeOp::UnpackOwnOdd => s.unpack_own_odd(call.a, call.out),
        _ => s.unpack_vector(call.a, call.out),
    })
}

impl ShapeOp {
    pub fn agrees(self, call: &mut Call, line: &mut Words) -> bool {
        match self {
            ShapeOp::Conform => conform(call, line),
            ShapeOp::GetBlade => get_blade(call, line),
            ShapeOp::Grade => grade(call, line),
            ShapeOp::SetBlade | ShapeOp::Scalar | ShapeOp::Pseudoscalar => match call.number() {
                Some(x) => numbered(self, x, call, line),
                None => line.says(&[]),
            },
            ShapeOp::UnpackAll
            | ShapeOp::UnpackEven
            | ShapeOp::UnpackOdd
            | ShapeOp::UnpackOwnEven
            | ShapeOp::UnpackOwnOdd
            | ShapeOp::UnpackVector => unpacked(self, call, line),
            _ => shaped(self, call, line),
        }
    }
}
