// The shapes of a sheet's line.
use super::shapes::{BLANK, shape_from, shape_words};
use super::words::{Words, at_most};
use masks::shape::Shape;
use sheets::shapes::Shapes;

// No shape is listed, and each that is held is blank.
pub fn blank_shapes() -> Shapes {
    Shapes {
        count: 0,
        held: [BLANK; 64],
    }
}

fn read_shape(line: &mut Words) -> Shape {
    let mut words = [0u64; 5];
    for word in words.iter_mut() {
        *word = line.next_word();
    }
    shape_from(words)
}

impl<'a> Words<'a> {
    // The shapes that are held, five words each, and blank ones past them. Their count is the given one.
    pub fn read_shapes(&mut self, count: usize) -> Shapes {
        let given = at_most(self.next_word() / 5, 64);
        let mut shapes = blank_shapes();
        for shape in shapes.held.iter_mut().take(given) {
            *shape = read_shape(self);
        }
        shapes.count = count;
        shapes
    }

    // Whether every shape that is held is the next one that the line gives, past those that are listed too.
    pub fn are_next_shapes(&mut self, shapes: Shapes) -> bool {
        for shape in shapes.held.iter() {
            if !self.are_next(&shape_words(*shape)) {
                return false;
            }
        }
        true
    }
}
