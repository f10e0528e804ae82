// The words that corrections entered, one after another in the order of the corrections.
ghost use Rattle.std.specs.Prelude.{◌≡◌, ◌+◌, ◌-◌, ◌<◌, ◌≤◌, [], ◌++◌, length as count_of, slice_index};
ghost use Rattle.journal.specs.Stores.{in_use};

use crate::journal::MOST_WORDS;

// An array beside the number of those in use, since a journal takes no memory but its own.
#[derive(Clone, Copy)]
pub(crate) struct WordStore {
    words: [u64; MOST_WORDS],
    used: usize,
}

impl WordStore {
    // A store with no words in use.
    pub(crate) fn empty() -> WordStore
        ensures none { in_use result ≡ [] }
        ensures used { result.used ≡ 0 }
    {
        WordStore {
            words: [0u64; MOST_WORDS],
            used: 0,
        }
    }

    // The words in use.
    pub(crate) fn as_slice(&self) -> &[u64]
        requires { self.now.used ≤ 1024 }
        ensures words { result.now ≡ in_use self.now }
        ensures used { count_of result.now ≡ self.now.used }
    {
        &self.words[..self.used]
    }

    // How many words are in use.
    pub(crate) fn len(&self) -> usize
        requires { self.now.used ≤ 1024 }
        ensures words { result ≡ count_of (in_use self.now) }
        ensures used { result ≡ self.now.used }
    {
        self.as_slice().len()
    }

    // How many more words there is room for.
    pub(crate) fn room(&self) -> usize
        requires { self.now.used ≤ 1024 }
        ensures { result ≡ 1024 - self.now.used }
    {
        MOST_WORDS - self.used
    }

    // The word with a number.
    pub(crate) fn word(&self, number: u32) -> u64
        requires used { self.now.used ≤ 1024 }
        requires inside { number < self.now.used }
        ensures { result ≡ slice_index (in_use self.now) number }
    {
        self.words[number as usize]
    }

    // Puts words after those in use.
    pub(crate) fn append(&mut self, words: &[u64])
        requires { self.old.used + count_of words.now ≤ 1024 }
        ensures words { in_use self.new ≡ in_use self.old ++ words.now }
        ensures used { self.new.used ≡ self.old.used + count_of words.now }
    {
        let used = self.used;
        let end = used + words.len();
        self.words[used..end].copy_from_slice(words);
        self.used = end;
    }
}
