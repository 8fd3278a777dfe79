// Whether a record may stand on a line: in order, and not one too many.
ghost use Rattle.std.specs.Prelude.{◌≡◌};
ghost use Rattle.cards.specs.Reading.{place_for, variable_place, operator_place, part_place, pattern_place};
ghost use Rattle.drafts.specs.View.{said};

use crate::parts::Draft;
use fields::LineFault;

const MOST_VARIABLES: usize = 16;

const MOST_OPERATORS: usize = 128;

const MOST_PATTERNS: usize = 2;

fn place_for(line: usize, ordered: bool, room: bool) -> Result<(), LineFault>
    ensures { result ≡ place_for line ordered room }
{
    if !ordered {
        Err(LineFault::Order { line })
    } else if room {
        Ok(())
    } else {
        Err(LineFault::Many { line })
    }
}

impl<'a> Draft<'a> {
    pub(crate) fn may_add_variable(&self, line: usize) -> Result<(), LineFault>
        ensures { result ≡ variable_place line (said self.now) }
    {
        place_for(
            line,
            self.operators.is_empty() && self.patterns.is_empty(),
            self.variables.len() < MOST_VARIABLES,
        )
    }

    pub(crate) fn may_add_operator(&self, line: usize) -> Result<(), LineFault>
        ensures { result ≡ operator_place line (said self.now) }
    {
        place_for(
            line,
            self.patterns.is_empty(),
            self.operators.len() < MOST_OPERATORS,
        )
    }

    // For a precondition or an effect.
    pub(crate) fn may_add_part(&self, line: usize) -> Result<(), LineFault>
        ensures { result ≡ part_place line (said self.now) }
    {
        place_for(line, self.patterns.is_empty(), true)
    }

    pub(crate) fn may_add_pattern(&self, line: usize) -> Result<(), LineFault>
        ensures { result ≡ pattern_place line (said self.now) }
    {
        place_for(line, true, self.patterns.len() < MOST_PATTERNS)
    }
}
