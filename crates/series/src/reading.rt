// Kinds of reading: each has a 64-bit word for each reading and a reading for each word.
ghost use Rattle.std.specs.Prelude.{◌≡◌, ℕ};

pub trait Reading: Copy {
    // The values of the type, among those that the logic's unbounded numbers would give.
    ghost holds: { Self → Type 0 };

    ghost word: { Self → ℕ };

    ghost reading: { ℕ → Self };

    fn to_word(self) -> u64
        ensures value { result ≡ word self }
        ensures held { holds self };

    fn from_word(bits: u64) -> Self
        ensures { result ≡ reading bits };

    // A reading's word gives that reading back.
    ghost back: { (x : Self) → holds x → reading (word x) ≡ x };

    // Each word has a reading.
    ghost made: { (n : ℕ) → holds (reading n) };
}

// A reading that goes through its word comes back.
pub fn through_word<T: Reading>(x: T) -> T
    ensures { result ≡ x }
{
    T::from_word(x.to_word())
}
