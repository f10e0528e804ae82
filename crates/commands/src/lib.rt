// Commands of the console: from a line's bytes to a typed command, or to what is wrong with it.
#![tactic(auto)]

mod arguments;
pub mod command;
mod drafts;
mod fields;
mod forms;
mod numbers;
mod numerals;
pub mod parse;
mod parts;
pub mod slot;
mod verb;
mod verbs;
pub mod wrong;
