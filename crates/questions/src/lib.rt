// What the console answers of journals laid on the series beneath them, and what lies there.
#![tactic(auto)]

pub mod beneath;
pub mod inquiry;
mod over_base;
