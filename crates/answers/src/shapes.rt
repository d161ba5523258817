// Flavors and shapes from words, and what calls answer as words.
use super::words::{Words, byte};
use masks::flavor::Flavor;
use masks::outcome::Refusal;
use masks::shape::Shape;
use product::outcome::Product;

// The shape of a refused call's words: 0 Vanilla.
pub const BLANK: Shape = Shape {
    dims: 0,
    flavor: Flavor::Vanilla,
};

// A flavor is kind, p, n, z.
pub fn flavor_from(words: [u64; 4]) -> Flavor {
    let [kind, p, n, z] = words;
    match kind {
        0 => Flavor::Vanilla,
        1 => Flavor::Projective,
        _ => Flavor::Cl(byte(p), byte(n), byte(z)),
    }
}

// A shape is dims, kind, p, n, z.
pub fn shape_from(words: [u64; 5]) -> Shape {
    let [dims, kind, p, n, z] = words;
    Shape {
        dims: byte(dims),
        flavor: flavor_from([kind, p, n, z]),
    }
}

pub fn flavor_words(flavor: Flavor) -> [u64; 4] {
    match flavor {
        Flavor::Vanilla => [0, 0, 0, 0],
        Flavor::Projective => [1, 0, 0, 0],
        Flavor::Cl(p, n, z) => [2, p as u64, n as u64, z as u64],
    }
}

pub fn shape_words(shape: Shape) -> [u64; 5] {
    let [kind, p, n, z] = flavor_words(shape.flavor);
    [shape.dims as u64, kind, p, n, z]
}

// The number of an answer, and its value; where the call is refused, what the line has in its place.
pub fn parts<T: Copy>(answer: Result<T, Refusal>, blank: T) -> (u64, T) {
    match answer {
        Ok(value) => (0, value),
        Err(refusal) => (refusal.number() as u64, blank),
    }
}

// Whether the line says what a call answers, count and all.
impl<'a> Words<'a> {
    pub fn says_done(&mut self, answer: Result<(), Refusal>) -> bool {
        let (number, _) = parts(answer, ());
        self.says(&[number])
    }

    pub fn says_count(&mut self, answer: Result<usize, Refusal>) -> bool {
        let (number, count) = parts(answer, 0);
        self.says(&[number, count as u64])
    }

    pub fn says_shape(&mut self, answer: Result<Shape, Refusal>) -> bool {
        let (number, shape) = parts(answer, BLANK);
        let [dims, kind, p, n, z] = shape_words(shape);
        self.says(&[number, dims, kind, p, n, z])
    }

    pub fn says_product(&mut self, answer: Result<Product, Refusal>) -> bool {
        let blank = Product {
            shape: BLANK,
            pairs: 0,
        };
        let (number, product) = parts(answer, blank);
        let [dims, kind, p, n, z] = shape_words(product.shape);
        self.says(&[number, dims, kind, p, n, z, product.pairs as u64])
    }
}
