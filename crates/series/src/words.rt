// The words of intervals and of events.
ghost use Rattle.series.specs.Words.{IsInterval, interval_word, interval_of, IsEvent, event_word, event_of};
ghost use Rattle.std.proofs.Common.{rules};

use crate::event::Event;
use crate::interval::Interval;
use crate::reading::Reading;

impl Reading for Interval {
    ghost holds = { IsInterval };

    ghost word = { interval_word };

    ghost reading = { interval_of };

    ghost back = { Prim.search rules };

    ghost made = { Prim.search rules };

    fn to_word(self) -> u64 {
        u64::from(self.amount.cast_unsigned()) + u64::from(self.status) * 4294967296
    }

    fn from_word(bits: u64) -> Interval {
        let pattern = (bits % 4294967296) as u32;
        let status = (bits / 4294967296 % 256) as u8;
        Interval {
            amount: pattern.cast_signed(),
            status,
        }
    }
}

impl Reading for Event {
    ghost holds = { IsEvent };

    ghost word = { event_word };

    ghost reading = { event_of };

    ghost back = { Prim.search rules };

    ghost made = { Prim.search rules };

    fn to_word(self) -> u64 {
        u64::from(self.time) + u64::from(self.code) * 4294967296
    }

    fn from_word(bits: u64) -> Event {
        let time = (bits % 4294967296) as u32;
        let code = (bits / 4294967296 % 65536) as u16;
        Event { time, code }
    }
}
