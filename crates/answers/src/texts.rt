// Texts that several answers are made of: an answer or its refusal, a number accepted, things in a row.
ghost use Rattle.std.specs.Prelude.{◌≡◌, ℕ, List, ◌++◌, IfOk, string_bytes, OnOk};
ghost use Rattle.std.specs.List.{flat_map};
ghost use Rattle.std.specs.Option.{option_map};
ghost use Rattle.series.specs.Refusals.{by_number};
ghost use Rattle.answers.specs.Texts.{ok_before, ok_text, answer_text, listed};
ghost use Rattle.answers.specs.Shown.{shown_answer, Shows};

use series::refusal::Refusal;
use std::alloc::{AllocError, Global};
use std::fmt;

// What a call answered: its value, or why it was refused.
#[derive(Clone, Copy)]
pub struct Answer<T, E>(pub Result<T, E>);

// The word ok, and how much there is now.
#[derive(Clone, Copy)]
pub struct Accepted<T>(pub T);

impl<T: fmt::Display, E: fmt::Display> fmt::Display for Answer<T, E> {
    ghost output = { λ a. shown_answer T.output E.output a.0 };

    fn fmt<W: fmt::Write>(&self, f: &mut fmt::Formatter<W>) -> fmt::Result {
        match &self.0 {
            Ok(value) => write!(f, "{value}"),
            Err(refusal) => write!(f, "{refusal}"),
        }
    }
}

impl<T: fmt::Display> fmt::Display for Accepted<T> {
    ghost output = { λ a. option_map ok_before (T.output a.0) };

    fn fmt<W: fmt::Write>(&self, f: &mut fmt::Formatter<W>) -> fmt::Result {
        write!(f, "ok {}", self.0)
    }
}

// The text of a call that answers a length: ok and the length, or the refusal.
pub fn length_text(heap: Global, answer: Result<u32, Refusal>) -> Result<String, AllocError>
    ensures { IfOk result (λ text. string_bytes text ≡ answer_text ok_text (by_number answer)) }
{
    format!(in heap; "{}", Answer(answer.map(Accepted)))
}

// Adds things to the text, each behind the separator.
pub(crate) fn push_each<T: fmt::Display>(
    text: &mut String,
    separator: &str,
    items: &[T],
) -> Result<(), AllocError>
    ensures { OnOk result ((shown : T → List ℕ) → Shows T.output shown → string_bytes text.new ≡ string_bytes text.old ++ flat_map (λ x. separator.now ++ shown x) items.now) }
{
    for item in items {
        write!(text, "{separator}{item}")?;
    }
    Ok(())
}

// Things with a separator between, or the word none where there is none.
pub(crate) fn listed<T: fmt::Display>(
    heap: Global,
    separator: &str,
    items: &[T],
) -> Result<String, AllocError>
    ensures { IfOk result (λ text. (shown : T → List ℕ) → Shows T.output shown → string_bytes text ≡ listed separator.now shown items.now) }
{
    let [first, others @ ..] = items else {
        return String::from_str(heap, "none");
    };
    let mut text = first.to_string(heap)?;
    push_each(&mut text, separator, others)?;
    Ok(text)
}
