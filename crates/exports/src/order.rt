// The order of masks, and the sizes of grades.
ghost use Rattle.std.specs.Prelude.{◌≡◌, ◌≤◌, length, take};
ghost use Rattle.masks.specs.Outcome.{laid};
ghost use Rattle.masks.specs.Order.{blade_count, grade_size};
ghost use Rattle.exports.specs.Reports.{ReportsCount};
ghost use Rattle.exports.specs.Order.{ReportsOrderOf};

use super::reports::{DONE, report};
use masks::order::{blade_count, blades_or_none, grade_size, order_of};
use masks::outcome::Refusal;
use std::convert::identity;

// The first n of an array's masks or places, from the front of an output.
fn copy_masks(from: &[u16; 512], n: usize, to: &mut [u16])
    requires { (n ≤ 512) × (n ≤ length to.old) × (length from.now ≡ 512) }
    ensures { to.new ≡ laid (take n from.now) to.old }
{
    to[..n].copy_from_slice(&from[..n]);
}

// How many blades there are.
#[unsafe(no_mangle)]
pub extern "C" fn thresholm_blade_count(dims: u8, to_count: &mut usize) -> u8
    ensures { ReportsCount (blade_count dims) result to_count.old to_count.new }
{
    report(blade_count(dims), identity, to_count)
}

// The size of a grade: 0 for a grade above the dimensions.
#[unsafe(no_mangle)]
pub extern "C" fn thresholm_grade_size(dims: u8, grade: u8, to_count: &mut usize) -> u8
    ensures { ReportsCount (grade_size dims grade) result to_count.old to_count.new }
{
    report(grade_size(dims, grade), identity, to_count)
}

// The order of `dims` dimensions, the place of each mask in it, and how many there are.
#[unsafe(no_mangle)]
pub extern "C" fn thresholm_order_of(
    dims: u8,
    masks: &mut [u16],
    places: &mut [u16],
    to_count: &mut usize,
) -> u8
    ensures { ReportsOrderOf dims result masks.old masks.new places.old places.new to_count.old to_count.new }
{
    let order = match order_of(dims) {
        Ok(order) => order,
        Err(refusal) => return refusal.number(),
    };
    let count = blades_or_none(dims);
    if masks.len() < count {
        return Refusal::NoRoom.number();
    }
    if places.len() < count {
        return Refusal::NoRoom.number();
    }
    copy_masks(&order.masks, count, masks);
    copy_masks(&order.places, count, places);
    *to_count = count;
    DONE
}
