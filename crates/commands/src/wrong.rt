// Why a line is no command.
ghost use Rattle.std.specs.Prelude.{◌≡◌};
ghost use Rattle.commands.specs.declared.wrong.ParseFault.TheVariants.{NoMemory as no_memory};

use std::alloc::{AllocError, AllocFailed};

#[derive(Clone, Copy, PartialEq, Eq, Debug)]
pub enum Wrong {
    // It has more than 65,536 bytes.
    LineTooLong,
    // Before its comment stands a byte that is no blank, no tab and not from 21 to 7e (hex).
    StrayByte,
    // Its first field is no command.
    NoSuchCommand,
    // Its other fields are not what the command takes.
    BadArguments,
}

#[derive(Clone, Copy, PartialEq, Eq, Debug)]
pub enum ParseFault {
    Wrong(Wrong),
    // There was no memory for the command's words or bytes.
    NoMemory,
}

// The fields are not what the command takes.
pub(crate) const BAD_ARGUMENTS: ParseFault = ParseFault::Wrong(Wrong::BadArguments);

impl From<AllocError> for ParseFault {
    ghost from_gives = { λ _ fault. fault ≡ no_memory };

    fn from(_: AllocError) -> ParseFault {
        ParseFault::NoMemory
    }
}

impl<T: Drop> From<AllocFailed<T>> for ParseFault {
    ghost from_gives = { λ _ fault. fault ≡ no_memory };

    fn from(_: AllocFailed<T>) -> ParseFault {
        ParseFault::NoMemory
    }
}
