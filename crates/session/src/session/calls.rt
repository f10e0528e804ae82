// Taking a script byte by byte, and answering its lines.
ghost use Rattle.std.specs.Prelude.{◌≡◌, true, is_err, IfOk, string_bytes};
ghost use Rattle.std.specs.Option.{option_map};
ghost use Rattle.session.specs.Consoles.{desk};
ghost use Rattle.session.specs.Sessions.{answered, session as meant, opened, taken, ended, closed};

use super::Session;
use crate::console::Console;
use commands::parse::{MOST_BYTES, parse};
use commands::wrong::ParseFault;
use std::alloc::{AllocError, Global};

// The answer to a line with this number; a line without fields has none. Want of memory leaves all as it was.
fn answer_line(
    heap: Global,
    console: &mut Console,
    number: u64,
    line: &[u8],
) -> Result<Option<String>, AllocError>
    ensures outcome { IfOk result (λ a. (option_map string_bytes a, desk console.new) ≡ answered (desk console.old) number line.now) }
    ensures same { is_err result ≡ true → desk console.new ≡ desk console.old }
{
    match parse(heap, line) {
        Ok(None) => Ok(None),
        Ok(Some(command)) => Ok(Some(console.execute(heap, command)?)),
        Err(ParseFault::Wrong(_)) => Ok(Some(format!(in heap; "what? {number}")?)),
        Err(ParseFault::NoMemory) => Err(AllocError),
    }
}

impl Session {
    // A new console, before the first line.
    pub fn new(heap: Global) -> Session
        ensures { meant result ≡ opened }
    {
        Session {
            console: Console::new(heap),
            number: 0,
            line: Vec::new(heap),
        }
    }

    // The line has ended. Want of memory leaves all as it was.
    fn end_line(&mut self, heap: Global) -> Result<Option<String>, AllocError>
        ensures outcome { IfOk result (λ a. (option_map string_bytes a, meant self.new) ≡ ended (meant self.old)) }
        ensures same { is_err result ≡ true → meant self.new ≡ meant self.old }
    {
        let number = self.number.saturating_add(1);
        let answer = answer_line(heap, &mut self.console, number, self.line.as_slice())?;
        self.number = number;
        self.line.clear();
        Ok(answer)
    }

    // A byte of the script more; where it ends a line, that line's answer, if it has one. Want of memory
    // leaves all as it was.
    pub fn take_byte(&mut self, heap: Global, byte: u8) -> Result<Option<String>, AllocError>
        ensures outcome { IfOk result (λ a. (option_map string_bytes a, meant self.new) ≡ taken (meant self.old) byte) }
        ensures same { is_err result ≡ true → meant self.new ≡ meant self.old }
    {
        if byte == b'\n' {
            return self.end_line(heap);
        }
        if self.line.len() <= MOST_BYTES {
            self.line.push(byte)?;
        }
        Ok(None)
    }

    // The script has ended; the answer of a last line without a line feed, if there is one. Want of memory
    // leaves all as it was.
    pub fn close(&mut self, heap: Global) -> Result<Option<String>, AllocError>
        ensures outcome { IfOk result (λ a. (option_map string_bytes a, meant self.new) ≡ closed (meant self.old)) }
        ensures same { is_err result ≡ true → meant self.new ≡ meant self.old }
    {
        if self.line.is_empty() {
            return Ok(None);
        }
        self.end_line(heap)
    }
}
