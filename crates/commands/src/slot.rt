// Which of the console's four journals.
ghost use Rattle.std.specs.Prelude.{◌<◌};
ghost use Rattle.commands.specs.Narrowing.{Narrows};

#[derive(Clone, Copy)]
pub struct Slot {
    pub number: u8,
    ghost few: { number < 4 },
}

// A number that no journal has.
#[derive(Clone, Copy, PartialEq, Eq, Debug)]
pub struct NoSuchSlot;

impl TryFrom<u64> for Slot {
    type Error = NoSuchSlot;

    ghost try_from_gives = { Narrows 3 (λ slot. slot.number) };

    fn try_from(number: u64) -> Result<Slot, NoSuchSlot> {
        match u8::try_from(number) {
            Ok(number) if number < 4 => Ok(Slot { number }),
            _ => Err(NoSuchSlot),
        }
    }
}
