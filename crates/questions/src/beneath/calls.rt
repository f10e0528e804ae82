// Laying a bottom or a check beneath the journals, and answering inquiries over what lies there.
ghost use Rattle.std.specs.Prelude.{◌≡◌, true, [], is_err, IfOk, Some as some, None as none, string_bytes, codes, OnOk};
ghost use Rattle.std.specs.Result.{result_unwrap_or};
ghost use Rattle.series.specs.Refusals.{by_number, with_ok};
ghost use Rattle.commands.specs.declared.command.Layer.TheVariants.{Bottom as BottomLayer};
ghost use Rattle.commands.specs.Commands.{by_layer};
ghost use Rattle.questions.specs.Questions.{inquiry_text};
ghost use Rattle.questions.specs.Series.{beneath, cells_of, checked_by, laid_down, size_text, size_in, by_check};

use super::Beneath;
use crate::inquiry::Inquiry;
use crate::over_base::answer_over;
use commands::command::{Bottom, CheckLayer, Layer};
use pile::traced::bare::Bare;
use profile::packed::Packed;
use series::base::Base;
use series::check::Check;
use series::interval::Interval;
use series::nominal::Nominal;
use series::refusal::Refusal;
use series::register::Register;
use std::alloc::{AllocError, Global};
use std::fmt;

// A profile's layer has this tag.
const PROFILE_TAG: u8 = 1;

// How long a bottom is; and of a profile, how many bytes it takes.
#[derive(Clone, Copy)]
struct Size {
    length: u32,
    used: Option<usize>,
}

impl fmt::Display for Size {
    ghost output = { λ s. some (size_text s.length s.used) };

    fn fmt<W: fmt::Write>(&self, f: &mut fmt::Formatter<W>) -> fmt::Result {
        match self.used {
            Some(used) => write!(f, "{} {used}", self.length),
            None => write!(f, "{}", self.length),
        }
    }
}

// The size of a bottom, by laying it; refuses as that does.
fn size_of(bottom: &Bottom) -> Result<Size, Refusal>
    ensures { by_number (with_ok (λ s. (s.length, s.used)) result) ≡ size_in bottom.now }
{
    match bottom {
        Bottom::Register(readings) => {
            let length = Register::of(readings.as_slice())?.length();
            Ok(Size { length, used: None })
        }
        Bottom::Nominal { reading, length } => {
            let length = Nominal::new(*reading, *length)?.length();
            Ok(Size { length, used: None })
        }
        Bottom::Profile(bytes) => {
            let (profile, used) = Packed::of(PROFILE_TAG, bytes.as_slice())?;
            Ok(Size {
                length: profile.length(),
                used: Some(used),
            })
        }
    }
}

// The answer to an inquiry over a bottom, under a check where there is one.
fn under_check<B: Bare<Kind = Interval> + Drop>(
    heap: Global,
    bottom: B,
    check: Option<CheckLayer>,
    inquiry: &Inquiry,
) -> Result<String, AllocError>
    ensures { IfOk result (λ text. string_bytes text ≡ inquiry_text (checked_by (by_check check) (B.Base.cells bottom)) inquiry.now) }
{
    match check {
        Some(on) => answer_over(heap, Check::new(bottom, on.tag, on.limit), inquiry),
        None => answer_over(heap, bottom, inquiry),
    }
}

// The same over a bottom that may have been refused: then over no cells.
fn over_bottom<B: Bare<Kind = Interval> + Drop>(
    heap: Global,
    bottom: Result<B, Refusal>,
    check: Option<CheckLayer>,
    inquiry: &Inquiry,
) -> Result<String, AllocError>
    ensures { IfOk result (λ text. string_bytes text ≡ inquiry_text (checked_by (by_check check) (result_unwrap_or (with_ok B.Base.cells bottom) [])) inquiry.now) }
{
    match bottom {
        Ok(bottom) => under_check(heap, bottom, check, inquiry),
        Err(_) => under_check(heap, Register::new(), check, inquiry),
    }
}

impl Beneath {
    // A register with no readings, and no check.
    pub fn new(heap: Global) -> Beneath
        ensures { beneath result ≡ record { bottom = []; checks = none } }
    {
        Beneath {
            bottom: Bottom::Register(Vec::new(heap)),
            check: None,
        }
    }

    // Lays a bottom.
    fn lay_bottom(&mut self, heap: Global, bottom: Bottom) -> Result<String, AllocError>
        ensures outcome { IfOk result (λ text. (string_bytes text, beneath self.new) ≡ laid_down (beneath self.old) (by_layer (BottomLayer bottom))) }
        ensures same { is_err result ≡ true → self.new ≡ self.old }
    {
        match size_of(&bottom) {
            Ok(size) => {
                let text = format!(in heap; "ok {size}")?;
                self.bottom = bottom;
                Ok(text)
            }
            Err(refusal) => refusal.to_string(heap),
        }
    }

    // Lays a check over the bottom, or takes it away.
    fn lay_check(&mut self, heap: Global, check: Option<CheckLayer>) -> Result<String, AllocError>
        ensures text { IfOk result (λ text. string_bytes text ≡ codes "ok") }
        ensures after { OnOk result (beneath self.new ≡ record { bottom = (beneath self.old).bottom; checks = by_check check }) }
        ensures same { is_err result ≡ true → self.new ≡ self.old }
    {
        let text = String::from_str(heap, "ok")?;
        self.check = check;
        Ok(text)
    }

    // Lays a bottom or a check beneath, and answers its text. A refusal, and want of memory, leave all
    // as it was.
    pub fn lay(&mut self, heap: Global, layer: Layer) -> Result<String, AllocError>
        ensures outcome { IfOk result (λ text. (string_bytes text, beneath self.new) ≡ laid_down (beneath self.old) (by_layer layer)) }
        ensures same { is_err result ≡ true → self.new ≡ self.old }
    {
        match layer {
            Layer::Bottom(bottom) => self.lay_bottom(heap, bottom),
            Layer::Check(check) => self.lay_check(heap, check),
        }
    }

    // The answer to an inquiry over what lies beneath.
    pub fn answer(&self, heap: Global, inquiry: &Inquiry) -> Result<String, AllocError>
        ensures { IfOk result (λ text. string_bytes text ≡ inquiry_text (cells_of (beneath self.now)) inquiry.now) }
    {
        let check = self.check;
        match &self.bottom {
            Bottom::Register(readings) => {
                over_bottom(heap, Register::of(readings.as_slice()), check, inquiry)
            }
            Bottom::Nominal { reading, length } => {
                over_bottom(heap, Nominal::new(*reading, *length), check, inquiry)
            }
            Bottom::Profile(bytes) => {
                let opened = Packed::of(PROFILE_TAG, bytes.as_slice());
                over_bottom(heap, opened.map(|p| p.0), check, inquiry)
            }
        }
    }
}
