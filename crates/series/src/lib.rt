// Series that one can only read: kinds of reading, cells and faults, refusals, the interface of a
// base, the bottoms (a register, a nominal base), the check layer, and flattening.
#![tactic(auto)]

pub mod base;
pub mod cell;
pub mod check;
pub mod event;
pub mod fault;
pub mod flatten;
pub mod interval;
pub mod nominal;
pub mod reading;
pub mod refusal;
pub mod register;
pub mod words;
