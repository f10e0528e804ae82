// The packed profile: delivered amounts, group by group behind a map of the places that have one.
#![tactic(auto)]

mod counts;
mod groups;
pub mod packed;
