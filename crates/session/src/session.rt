// A session: the console, and the script's line that has not ended yet.
use crate::console::Console;

pub mod calls;

#[derive(Drop)]
pub struct Session {
    console: Console,
    number: u64,
    line: Vec<u8>,
}
