// Records on top of what was read before.
ghost use Rattle.std.specs.Prelude.{◌≡◌};
ghost use Rattle.fields.specs.Cursor.{left};
ghost use Rattle.fields.specs.Lines.{plain_record};
ghost use Rattle.cards.specs.Reading.{add_variable, add_operator, add_part, add_pattern, add_record, line_on};
ghost use Rattle.drafts.specs.View.{said};
ghost use Rattle.drafts.specs.Parts.{add_to};
ghost use Rattle.drafts.specs.Told.{GivesLine};

use crate::parts::Draft;
use crate::patterns::{distinct, indices};
use crate::valued::Part;
use crate::values::{operator_of, variable_of};
use cards::CardFault;
use fields::{LineFault, Pieces, Record, ValueTexts, VariableTexts, cut_line};
use sas::{Fact, Precondition};
use std::alloc::Global;

impl<'a> Draft<'a> {
    fn add_variable(&mut self, line: usize, texts: VariableTexts<'a>) -> Result<(), CardFault>
        ensures { GivesLine result (said self.new) (add_variable line (said self.old) texts.entry.name.now texts.entry.size.now texts.entry.start.now texts.entry.goal.now) }
    {
        self.may_add_variable(line)?;
        let v = variable_of(line, texts)?;
        self.variables.push(v)?;
        Ok(())
    }

    fn add_operator(
        &mut self,
        heap: Global,
        line: usize,
        name: &'a [u8],
        cost: &'a [u8],
    ) -> Result<(), CardFault>
        ensures same { self.new.variables ≡ self.old.variables }
        ensures told { GivesLine result (said self.new) (add_operator line (said self.old) name.now cost.now) }
    {
        self.may_add_operator(line)?;
        let o = operator_of(heap, line, name, cost)?;
        self.operators.push(o)?;
        Ok(())
    }

    // A precondition or an effect more for the last operator.
    fn add_part<T: Part>(&mut self, line: usize, texts: ValueTexts<'a>) -> Result<(), CardFault>
        ensures same { self.new.variables ≡ self.old.variables }
        ensures told { GivesLine result (said self.new) (add_part line (said self.old) (add_to T.Valued.of T.Valued.make T.Part.parts T.Part.with_parts line (said self.old).vars texts.entry.variable.now texts.entry.value.now)) }
    {
        self.may_add_part(line)?;
        // Popped and pushed back: what is added reads the whole draft.
        let mut o = self.operators.pop().ok_or(LineFault::Order { line })?;
        T::add_to(&mut o, self, line, texts)?;
        self.operators.push(o)?;
        Ok(())
    }

    fn add_pattern(
        &mut self,
        heap: Global,
        line: usize,
        variables: Pieces<'a>,
    ) -> Result<(), CardFault>
        ensures same { self.new.variables ≡ self.old.variables }
        ensures told { GivesLine result (said self.new) (add_pattern line (said self.old) (left variables.entry)) }
    {
        self.may_add_pattern(line)?;
        // The draft's ghost field bounds it: `try_from` would need an error that cannot come.
        let vs = indices(heap, line, self.variables.len() as u32, variables)?;
        distinct(line, vs.as_slice())?;
        self.patterns.push(vs)?;
        Ok(())
    }

    // By cases: each record has another shape.
    fn add_record(&mut self, heap: Global, line: usize, record: Record<'a>) -> Result<(), CardFault>
        ensures { GivesLine result (said self.new) (add_record line (said self.old) (plain_record «record».entry)) }
    {
        match record {
            Record::Variable(texts) => self.add_variable(line, texts),
            Record::Operator { name, cost } => self.add_operator(heap, line, name, cost),
            Record::Precondition(texts) => self.add_part::<Precondition>(line, texts),
            Record::Effect(texts) => self.add_part::<Fact>(line, texts),
            Record::Pattern { variables } => self.add_pattern(heap, line, variables),
        }
    }

    // One line on top of the draft.
    pub(crate) fn add_line(
        &mut self,
        heap: Global,
        line: usize,
        text: &'a [u8],
    ) -> Result<(), CardFault>
        ensures { GivesLine result (said self.new) (line_on line (said self.old) text.now) }
    {
        match cut_line(line, text)? {
            None => Ok(()),
            Some(cut) => self.add_record(heap, line, cut),
        }
    }
}
