// Executing commands.
ghost use Rattle.std.specs.Prelude.{◌≡◌, true, is_err, IfOk, string_bytes};
ghost use Rattle.journal.specs.Journals.{state};
ghost use Rattle.commands.specs.Commands.{by_change, by_command, by_layer, lay as ToLay, change as ToChange, fold as ToFold, ask as ToAsk, pile as ToPile};
ghost use Rattle.session.specs.Consoles.{desk, empty, at, with_journal, executed};

use super::Console;
use answers::changes::make_change;
use answers::record_texts::{record_text, unrecord_text};
use answers::texts::length_text;
use answers::views::show;
use commands::command::{Change, Command, Layer, Question};
use commands::slot::Slot;
use journal::fold::fold;
use journal::journal::Journal;
use questions::beneath::Beneath;
use questions::inquiry::Inquiry;
use std::alloc::{AllocError, Global};

impl Console {
    // Four new journals, and a register with no readings beneath.
    pub fn new(heap: Global) -> Console
        ensures { desk result ≡ empty }
    {
        let journal = Journal::new();
        Console {
            journals: [journal; 4],
            beneath: Beneath::new(heap),
        }
    }

    // A journal.
    fn journal(&self, slot: Slot) -> Journal
        ensures { state result ≡ at (desk self.now) slot.number }
    {
        self.journals[slot.number as usize]
    }

    // Puts a journal in its place.
    fn put(&mut self, slot: Slot, journal: Journal)
        ensures { desk self.new ≡ with_journal (desk self.old) slot.number (state journal) }
    {
        self.journals[slot.number as usize] = journal;
    }

    // Makes a change on a journal.
    fn change(&mut self, heap: Global, slot: Slot, change: &Change) -> Result<String, AllocError>
        ensures outcome { IfOk result (λ text. (string_bytes text, desk self.new) ≡ executed (desk self.old) (ToChange slot.number (by_change change.now))) }
        ensures same { is_err result ≡ true → desk self.new ≡ desk self.old }
    {
        let mut journal = self.journal(slot);
        let text = make_change(heap, &mut journal, change)?;
        self.put(slot, journal);
        Ok(text)
    }

    // Makes the third journal the fold of the two.
    fn fold(
        &mut self,
        heap: Global,
        lower: Slot,
        upper: Slot,
        third: Slot,
    ) -> Result<String, AllocError>
        ensures outcome { IfOk result (λ text. (string_bytes text, desk self.new) ≡ executed (desk self.old) (ToFold lower.number upper.number third.number)) }
        ensures same { is_err result ≡ true → desk self.new ≡ desk self.old }
    {
        let mut both = self.journal(third);
        let answer = fold(&self.journal(lower), &self.journal(upper), &mut both);
        let text = length_text(heap, answer)?;
        self.put(third, both);
        Ok(text)
    }

    // Lays a bottom or a check beneath.
    fn lay(&mut self, heap: Global, layer: Layer) -> Result<String, AllocError>
        ensures outcome { IfOk result (λ text. (string_bytes text, desk self.new) ≡ executed (desk self.old) (ToLay (by_layer layer))) }
        ensures same { is_err result ≡ true → desk self.new ≡ desk self.old }
    {
        self.beneath.lay(heap, layer)
    }

    // The answer to a question about a journal.
    fn ask(&self, heap: Global, slot: Slot, question: Question) -> Result<String, AllocError>
        ensures { IfOk result (λ text. (string_bytes text, desk self.now) ≡ executed (desk self.now) (ToAsk slot.number question)) }
    {
        let inquiry = Inquiry::Laid {
            journal: self.journal(slot),
            question,
        };
        self.beneath.answer(heap, &inquiry)
    }

    // A place of the upper journal on the lower one.
    fn pile(&self, heap: Global, lower: Slot, upper: Slot, place: u32) -> Result<String, AllocError>
        ensures { IfOk result (λ text. (string_bytes text, desk self.now) ≡ executed (desk self.now) (ToPile lower.number upper.number place)) }
    {
        let inquiry = Inquiry::Pile {
            lower: self.journal(lower),
            upper: self.journal(upper),
            place,
        };
        self.beneath.answer(heap, &inquiry)
    }

    // Executes a command and answers its text. Want of memory leaves all as it was.
    pub fn execute(&mut self, heap: Global, command: Command) -> Result<String, AllocError>
        ensures outcome { IfOk result (λ text. (string_bytes text, desk self.new) ≡ executed (desk self.old) (by_command command)) }
        ensures same { is_err result ≡ true → desk self.new ≡ desk self.old }
    {
        match command {
            Command::Lay(layer) => self.lay(heap, layer),
            Command::Change { journal, change } => self.change(heap, journal, &change),
            Command::Fold {
                lower,
                upper,
                third,
            } => self.fold(heap, lower, upper, third),
            Command::Show { journal, view } => show(heap, &self.journal(journal), view),
            Command::Ask { journal, question } => self.ask(heap, journal, question),
            Command::Pile {
                lower,
                upper,
                place,
            } => self.pile(heap, lower, upper, place),
            Command::Record(correction) => record_text(heap, &correction),
            Command::Unrecord(bytes) => unrecord_text(heap, bytes.as_slice()),
        }
    }
}
