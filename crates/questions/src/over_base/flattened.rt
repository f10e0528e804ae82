// All readings of a base, as text.
ghost use Rattle.std.specs.Prelude.{◌≡◌, [], ◌++◌, IfOk, Some, Err, string_bytes, codes, OnOk};
ghost use Rattle.std.specs.List.{flat_map};
ghost use Rattle.series.specs.Flattened.{says};
ghost use Rattle.answers.specs.Texts.{ok_text};
ghost use Rattle.questions.specs.Questions.{reading_text, readings_text, ending_text, flatten_text};

use series::base::Base;
use series::flatten::{FlattenFault, flatten};
use series::interval::Interval;
use series::refusal::Refusal;
use std::alloc::{AllocError, Global};
use std::fmt;

// Amount and status.
#[derive(Clone, Copy)]
struct ReadingText(Interval);

impl fmt::Display for ReadingText {
    ghost output = { λ x. Some (reading_text x.0) };

    fn fmt<W: fmt::Write>(&self, f: &mut fmt::Formatter<W>) -> fmt::Result {
        write!(f, "{}/{}", self.0.amount, self.0.status)
    }
}

// Adds readings to a text, each behind a blank.
fn push_readings(text: &mut String, readings: &[Interval]) -> Result<(), AllocError>
    ensures { OnOk result (string_bytes text.new ≡ string_bytes text.old ++ flat_map (λ x. codes " " ++ reading_text x) readings.now) }
{
    for reading in readings {
        write!(text, " {}", ReadingText(*reading))?;
    }
    Ok(())
}

// How many readings there are, and these.
fn readings_text(heap: Global, readings: &[Interval], count: u32) -> Result<String, AllocError>
    ensures { IfOk result (λ text. string_bytes text ≡ ok_text count ++ readings_text readings.now) }
{
    let [first, others @ ..] = readings else {
        return format!(in heap; "ok {count}");
    };
    let mut text = format!(in heap; "ok {count}: {}", ReadingText(*first))?;
    push_readings(&mut text, others)?;
    Ok(text)
}

// Why there are no readings to show.
fn stop_text(heap: Global, stop: FlattenFault) -> Result<String, AllocError>
    ensures { IfOk result (λ text. string_bytes text ≡ ending_text [] (Err (says stop))) }
{
    match stop {
        FlattenFault::TooShort => Refusal::BufferShort.to_string(heap),
        FlattenFault::AtPlace(c) => format!(in heap; "refused {}: {}", c.place, c.fault),
    }
}

// The readings of a base in order, or the first place without one and its fault.
pub(super) fn flatten_text<B: Base<Kind = Interval>>(
    heap: Global,
    base: &B,
) -> Result<String, AllocError>
    ensures { IfOk result (λ text. string_bytes text ≡ flatten_text (B.Base.cells base.now)) }
{
    let blank = Interval {
        amount: 0,
        status: 0,
    };
    let mut readings = vec![in heap; blank; base.length() as usize]?;
    match flatten(base, &mut readings) {
        Ok(count) => readings_text(heap, &readings, count),
        Err(stop) => stop_text(heap, stop),
    }
}
