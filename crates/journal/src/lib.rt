// The journal: accepted corrections, held beside a series that is never written.
#![tactic(auto)]

pub mod correction;
pub mod draft;
pub mod fold;
pub mod journal;
pub mod origin;
pub mod piece;
mod table;
pub mod tidied;
pub mod walk;
mod words;
