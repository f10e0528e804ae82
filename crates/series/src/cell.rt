// A cell of a series: a reading, or a fault that says why there is none.
ghost use Rattle.series.specs.Shown.{shown_cell};

use crate::fault::Fault;
use std::fmt;

#[derive(Clone, Copy, PartialEq, Eq, Debug)]
pub enum Cell<T> {
    Reading(T),
    Fault(Fault),
}

impl<T: fmt::Display> fmt::Display for Cell<T> {
    ghost output = { shown_cell T.output };

    fn fmt<W: fmt::Write>(&self, f: &mut fmt::Formatter<W>) -> fmt::Result {
        match self {
            Cell::Reading(x) => write!(f, "{x}"),
            Cell::Fault(x) => write!(f, "{x}"),
        }
    }
}
