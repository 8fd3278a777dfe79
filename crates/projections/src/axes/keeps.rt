// Keeps the variables of a pattern.
ghost use Rattle.std.specs.Prelude.{◌≡◌, ◌≤◌, IfOk};
ghost use Rattle.std.specs.List.{AllByRecursion};
ghost use Rattle.sas.specs.Model.{product};
ghost use Rattle.projections.specs.Parts.{axis_places, axis_sizes, scales};
ghost use Rattle.projections.specs.Projection.{among, only};

use super::Axes;
use crate::axis::Axis;
use crate::pattern::has;
use std::alloc::{AllocError, Global};

impl Axes {
    // Of the variables that have these sizes, the pattern's.
    pub(crate) fn kept(heap: Global, sizes: &[u8], pattern: &[u8]) -> Result<Axes, AllocError>
        requires sized { AllByRecursion (λ z. (2 ≤ z) × (z ≤ 16)) sizes.now }
        requires few { product sizes.now ≤ 1048576 }
        ensures sizes { IfOk result (λ a. axis_sizes a.list.items ≡ only (among pattern.now) sizes.now) }
        ensures places { IfOk result (λ a. axis_places a.list.items ≡ only (among pattern.now) (scales sizes.now)) }
    {
        let mut list = Vec::new(heap);
        let mut coefficient: usize = 1;
        let mut whole_coefficient: usize = 1;
        for (variable, &size) in sizes.iter().enumerate() {
            if has(pattern, variable) {
                list.push(Axis {
                    size,
                    coefficient,
                    whole_coefficient,
                })?;
                coefficient *= usize::from(size);
            }
            whole_coefficient *= usize::from(size);
        }
        Ok(Axes { list })
    }
}
