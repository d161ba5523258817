// The calls of the crate `product`.
use super::calls::{Call, NoCall};
use super::words::Words;
use product::products::{
    general_product, inner_product, left_contraction, outer_product, right_contraction,
};

#[derive(Clone, Copy, PartialEq, Eq, Debug)]
pub enum ProductOp {
    General,
    LeftContraction,
    RightContraction,
    Inner,
    Outer,
}

impl TryFrom<u64> for ProductOp {
    type Error = NoCall;

    fn try_from(number: u64) -> Result<ProductOp, NoCall> {
        Ok(match number {
            27 => ProductOp::General,
            28 => ProductOp::LeftContraction,
            29 => ProductOp::RightContraction,
            30 => ProductOp::Inner,
            31 => ProductOp::Outer,
            _ => return Err(NoCall),
        })
    }
}

impl ProductOp {
    pub fn agrees(self, call: &mut Call, line: &mut Words) -> bool {
        let (s, t) = (call.shape(), call.second_shape());
        line.says_product(match self {
            ProductOp::General => general_product(s, t, call.a, call.b, call.out),
            ProductOp::LeftContraction => left_contraction(s, t, call.a, call.b, call.out),
            ProductOp::RightContraction => right_contraction(s, t, call.a, call.b, call.out),
            ProductOp::Inner => inner_product(s, t, call.a, call.b, call.out),
            ProductOp::Outer => outer_product(s, t, call.a, call.b, call.out),
        })
    }
}
