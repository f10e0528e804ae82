// The console as values: its journals and the series beneath, commands executed on them, and a script's
// bytes taken line by line.
#![tactic(auto)]

pub mod console;
pub mod scripts;
pub mod session;
