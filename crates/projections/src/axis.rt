// A kept variable: how many values it has, and its coefficients in the projected task and in the whole one.
ghost use Rattle.std.specs.Prelude.{◌*◌, ◌<◌, ◌≤◌};

#[derive(Clone, Copy)]
pub(crate) struct Axis {
    pub(crate) size: u8,
    pub(crate) coefficient: usize,
    pub(crate) whole_coefficient: usize,
    ghost sized: { (2 ≤ size) × (size ≤ 16) },
    ghost scaled: { 0 < coefficient },
    ghost placed: { 0 < whole_coefficient },
    ghost few: { coefficient * size ≤ 1048576 },
}
