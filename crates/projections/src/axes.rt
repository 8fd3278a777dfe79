// The kept variables, by their new numbers.
ghost use Rattle.std.specs.Prelude.{◌≡◌, ◌≤◌};
ghost use Rattle.sas.specs.Model.{product};
ghost use Rattle.projections.specs.Parts.{axis_coefficients, axis_sizes, scales};

use crate::axis::Axis;

mod digits;
mod keeps;

// Together they have at most 1048576 states, and each has the coefficient of its number.
#[derive(Drop)]
pub(crate) struct Axes {
    pub(crate) list: Vec<Axis>,
    ghost few: { product (axis_sizes list.items) ≤ 1048576 },
    ghost scaled: { axis_coefficients list.items ≡ scales (axis_sizes list.items) },
}
