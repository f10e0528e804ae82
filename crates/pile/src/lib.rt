// Journals laid on bases, one on another; places followed down, neighbours folded, and whole histories
// of one journal.
#![tactic(auto)]

pub mod call;
pub mod laid;
pub mod outcome;
pub mod replay;
pub mod traced;
