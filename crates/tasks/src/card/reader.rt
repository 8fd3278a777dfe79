// The card reader: the only way from a text to a task.
ghost use Rattle.std.specs.Prelude.{◌≡◌, ◌≤◌, true, length, is_err, IfOk, Ok, OnOk};
ghost use Rattle.cards.specs.Content.{Content, Lawful, task_of};
ghost use Rattle.cards.specs.Faults.{Tells, Gives};
ghost use Rattle.cards.specs.Reading.{meaning};
ghost use Rattle.cards.specs.Spelling.{Spells};
ghost use Rattle.tasks.specs.Contents.{contents, model_in};

use super::Card;
use super::gathers::task_of;
use cards::CardFault;
use drafts::draft;
use std::alloc::Global;

impl<'a> Card<'a> {
    #[tactic(auto, using(crate::proofs::Meanings::said_so))]
    fn parsed(heap: Global, bytes: &'a [u8]) -> Result<Card<'a>, CardFault>
        ensures answer { Tells contents result (meaning bytes.now) }
        ensures task { IfOk result (λ k. model_in k ≡ task_of (contents k)) }
    {
        let draft = draft(heap, bytes)?;
        let task = task_of(heap, &draft)?;
        Ok(Card { task, draft })
    }

    // Reads a card over this one; a refusal leaves this one as it is. A text is read exactly when it spells a lawful
    // content and is no longer than a card may be.
    #[tactic(auto, using(crate::proofs::Meanings::spelled_read, crate::proofs::Meanings::spelled_told))]
    pub fn read(&mut self, heap: Global, bytes: &'a [u8]) -> Result<(), CardFault>
        ensures answer { Gives result (contents self.new) (meaning bytes.now) }
        ensures untouched { is_err result ≡ true → self.new ≡ self.old }
        ensures spells { OnOk result (Lawful (contents self.new) × Spells bytes.now (contents self.new)) }
        ensures task { OnOk result (model_in self.new ≡ task_of (contents self.new)) }
        ensures back { (c : Content) → length bytes.now ≤ 16384 → Lawful c → Spells bytes.now c → Gives result (contents self.new) (Ok c) }
    {
        *self = Card::parsed(heap, bytes)?;
        Ok(())
    }
}
