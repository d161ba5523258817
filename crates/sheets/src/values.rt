// The value at an index of a sheet.
ghost use Rattle.masks.specs.Outcome.{IsAnswer};
ghost use Rattle.sheets.specs.Values.{value_at};

use super::shapes::{Shapes, any_above_nine, blade_total};
use masks::outcome::Refusal;
use masks::shape::Shape;

// Where a value of a sheet is: its shape, and the place at which its patterns start.
#[derive(Clone, Copy)]
pub struct Placed {
    pub shape: Shape,
    pub start: usize,
}

// The value at an index: its shape, and where its patterns start.
pub fn value_at(shapes: Shapes, index: usize) -> Result<Placed, Refusal>
    ensures { IsAnswer (value_at shapes index).number (value_at shapes index).place result }
{
    let listed = shapes.listed();
    if any_above_nine(listed) {
        return Err(Refusal::TooManyDims);
    }
    if listed.len() <= index {
        return Err(Refusal::WrongCount);
    }
    let start = blade_total(&listed[..index]);
    Ok(Placed {
        shape: listed[index],
        start,
    })
}
