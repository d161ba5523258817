// The numbers of one value with its dimensions, as what changes, builds and unpacks values takes them once they are tested.
ghost use Rattle.std.specs.Prelude.{◌≡◌, ◌≤◌, ◌^◌, length};

// A value's numbers: as many as its dimensions, at most nine, have blades.
#[derive(Clone, Copy)]
pub(crate) struct Coefs<'a> {
    pub dims: u8,
    pub numbers: &'a [f64],
    ghost small: { dims ≤ 9 },
    ghost counted: { length numbers.now ≡ 2 ^ dims },
}
