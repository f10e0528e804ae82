// What the console answers of a journal by itself: changes, views and records, each with its text.
#![tactic(auto)]

pub mod changes;
pub mod record_texts;
pub mod texts;
pub mod views;
