// A check over any base of intervals: an amount greater than the limit reads as a fault.
ghost use Rattle.std.specs.Prelude.{◌≡◌, pos, int_lt};
ghost use Rattle.series.specs.Checked.{checked, check_on, check_cells, check-few};

use crate::base::Base;
use crate::cell::Cell;
use crate::fault::Fault;
use crate::fault::causes::Cause;
use crate::interval::Interval;
use crate::refusal::Refusal;

#[derive(Drop)]
pub struct Check<B> {
    base: B,
    tag: u8,
    limit: u32,
}

// Whether an amount is greater than plus the limit. Both are widened, so that nothing wraps.
fn is_over(amount: i32, limit: u32) -> bool
    ensures { result ≡ int_lt (pos limit) amount }
{
    i64::from(amount) > i64::from(limit)
}

// A cell as the check reads it at `place`.
fn check_cell(tag: u8, limit: u32, place: u32, cell: Cell<Interval>) -> Cell<Interval>
    ensures { result ≡ checked tag limit place cell }
{
    match cell {
        Cell::Reading(x) if is_over(x.amount, limit) => {
            Cell::Fault(Fault::new(Cause::OverLimit, tag, place))
        }
        _ => cell,
    }
}

impl<B: Base<Kind = Interval>> Check<B> {
    // A check with this tag and limit over `base`.
    pub fn new(base: B, tag: u8, limit: u32) -> Check<B>
        ensures { result ≡ check_on base tag limit }
    {
        Check { base, tag, limit }
    }

    // The base that is checked.
    pub fn base(&self) -> &B
        ensures { result.now ≡ self.now.base }
    {
        &self.base
    }
}

impl<B: Base<Kind = Interval>> Base for Check<B> {
    type Kind = Interval;

    ghost cells = { check_cells B.Base.cells };

    ghost few = { λ c. check-few B.Base.cells c (B.Base.few c.base) };

    fn length(&self) -> u32 {
        self.base.length()
    }

    fn read(&self, place: u32) -> Result<Cell<Interval>, Refusal> {
        let cell = self.base.read(place)?;
        Ok(check_cell(self.tag, self.limit, place, cell))
    }
}
