// Correcting a journal: entering, striking and replacing.
ghost use Rattle.std.specs.Prelude.{◌≡◌, true, [], is_err};
ghost use Rattle.series.specs.Refusals.{by_number};
ghost use Rattle.journal.specs.Machine.{outcome, correction};
ghost use Rattle.journal.specs.Journals.{state};

use super::{Journal, MOST_PLACES};
use series::refusal::Refusal;

impl Journal {
    // Enters `words` at `place`. Refuses and answers as `replace` does.
    pub fn enter(&mut self, place: u32, words: &[u64]) -> Result<u32, Refusal>
        ensures outcome { (by_number result, state self.new) ≡ outcome (state self.old) (correction place 0 words.now) }
        ensures same { is_err result ≡ true → self.new ≡ self.old }
    {
        self.replace(place, 0, words)
    }

    // Strikes `struck` places from `place` on. Refuses and answers as `replace` does.
    pub fn strike(&mut self, place: u32, struck: u32) -> Result<u32, Refusal>
        ensures outcome { (by_number result, state self.new) ≡ outcome (state self.old) (correction place struck []) }
        ensures same { is_err result ≡ true → self.new ≡ self.old }
    {
        self.replace(place, struck, &[])
    }

    // Strikes `struck` places from `place` on, enters `words` there and answers the new length.
    // Refuses, in this order, with NoSuchPlace, TooLong, TooManyWords, TooManyPieces; a refusal
    // leaves the journal as it was.
    pub fn replace(&mut self, place: u32, struck: u32, words: &[u64]) -> Result<u32, Refusal>
        ensures outcome { (by_number result, state self.new) ≡ outcome (state self.old) (correction place struck words.now) }
        ensures same { is_err result ≡ true → self.new ≡ self.old }
    {
        let length = self.length();
        if u64::from(place) + u64::from(struck) > u64::from(length) {
            return Err(Refusal::NoSuchPlace);
        }
        // By differences, since a sum may not fit.
        let rest = length - struck;
        if words.len() > (MOST_PLACES - rest) as usize {
            return Err(Refusal::TooLong);
        }
        if words.len() > self.words.room() {
            return Err(Refusal::TooManyWords);
        }
        let entered = words.len() as u32;
        let first = self.words.len() as u32;
        self.table = self.table.edited(place, struck, first, entered)?;
        self.words.append(words);
        Ok(rest + entered)
    }
}
