// The numbers that a command begins with.
ghost use Rattle.std.specs.Prelude.{ℕ, List, [], ◌∷◌, ◌<◌, ◌^◌};
ghost use Rattle.std.proofs.Common.{lit<};
ghost use Rattle.commands.specs.Arguments.{number_in, Reads};
ghost use Rattle.commands.specs.Coming.{coming};
ghost use Rattle.commands.specs.Narrowing.{Narrows, narrows};
ghost use Rattle.commands.specs.Parsing.{numbers_in};
ghost use Rattle.commands.specs.Verbs.{slots, tags, places, all_words};

use crate::fields::Fields;
use crate::numerals::number;
use crate::slot::Slot;
use crate::wrong::{BAD_ARGUMENTS, ParseFault};

// What a number of a command is: a journal, a tag, a place (or a count, a length or a limit), or a word.
pub(crate) trait Number: TryFrom<u64, Error: Drop> + Copy {
    // The greatest, the number that a value stands for, and that what `try_from` gives is just those.
    ghost most: { ℕ };

    ghost value: { Self → ℕ };

    ghost small: { most < 2 ^ 64 };

    ghost read: { (n : ℕ) → n < 2 ^ 64 → (r : _) → Self.try_from_gives n r → Narrows most value n r };
}

impl Number for Slot {
    ghost most = { slots };

    ghost value = { λ slot. slot.number };

    ghost small = { lit< tt };

    ghost read = { λ n fits r gives. gives };
}

impl Number for u8 {
    ghost most = { tags };

    ghost value = { λ n. n };

    ghost small = { lit< tt };

    ghost read = { λ n fits r. narrows tags n r };
}

impl Number for u32 {
    ghost most = { places };

    ghost value = { λ n. n };

    ghost small = { lit< tt };

    ghost read = { λ n fits r. narrows places n r };
}

impl Number for u64 {
    ghost most = { all_words };

    ghost value = { λ n. n };

    ghost small = { lit< tt };

    ghost read = { λ n fits r. narrows all_words n r };
}

// The next field as a number.
fn read_number<N: Number>(fields: &mut Fields<'_>) -> Result<N, ParseFault>
    ensures { Reads (λ n. (N.value n, coming fields.new)) result (number_in N.most (coming fields.old)) }
{
    let Some(number) = fields.next().and_then(number) else {
        return Err(BAD_ARGUMENTS);
    };
    N::try_from(number).map_err(|_| BAD_ARGUMENTS)
}

// What the numbers at the front of some fields are read as.
pub(crate) trait Numbers: Copy {
    // The greatest of each, and the numbers that a value stands for.
    ghost limits: { List ℕ };

    ghost values: { Self → List ℕ };

    fn read(fields: &mut Fields<'_>) -> Result<Self, ParseFault>
        ensures { Reads (λ n. (values n, coming fields.new)) result (numbers_in limits (coming fields.old)) };
}

impl Numbers for () {
    ghost limits = { [] };

    ghost values = { λ _. [] };

    fn read(_: &mut Fields<'_>) -> Result<(), ParseFault> {
        Ok(())
    }
}

impl<N: Number> Numbers for N {
    ghost limits = { N.most ∷ [] };

    ghost values = { λ n. N.value n ∷ [] };

    fn read(fields: &mut Fields<'_>) -> Result<N, ParseFault> {
        read_number(fields)
    }
}

impl<A: Number, B: Number> Numbers for (A, B) {
    ghost limits = { A.most ∷ (B.most ∷ []) };

    ghost values = { λ n. A.value n.0 ∷ (B.value n.1 ∷ []) };

    fn read(fields: &mut Fields<'_>) -> Result<(A, B), ParseFault> {
        let first = read_number(fields)?;
        let second = read_number(fields)?;
        Ok((first, second))
    }
}

impl<A: Number, B: Number, C: Number> Numbers for (A, B, C) {
    ghost limits = { A.most ∷ (B.most ∷ (C.most ∷ [])) };

    ghost values = { λ n. A.value n.0 ∷ (B.value n.1 ∷ (C.value n.2 ∷ [])) };

    fn read(fields: &mut Fields<'_>) -> Result<(A, B, C), ParseFault> {
        let first = read_number(fields)?;
        let second = read_number(fields)?;
        let third = read_number(fields)?;
        Ok((first, second, third))
    }
}
