// Runs of calls at limits that readout's size keeps out of its reach, and of bases that it has no use
// for. What these calls answer is proved where they stand; this shows that it can be run.
#![tactic(auto)]

#[cfg(test)]
mod tests {
    use answers::texts::length_text;
    use journal::draft::Draft;
    use journal::fold::fold;
    use journal::journal::Journal;
    use journal::origin::Origin;
    use journal::walk::Run;
    use pile::call::Call;
    use pile::laid::fold::fold_neighbours;
    use pile::laid::{Laid, fits};
    use pile::outcome::Outcome;
    use pile::replay::replay;
    use pile::traced::Traced;
    use profile::packed::Packed;
    use series::base::Base;
    use series::cell::Cell;
    use series::event::Event;
    use series::flatten::{FlattenFault, flatten};
    use series::interval::Interval;
    use series::nominal::Nominal;
    use series::reading::Reading;
    use series::refusal::Refusal;
    use series::register::Register;
    use std::test::Fail;

    // Whether a read answered this fault.
    fn is_fault<T: Copy>(answer: Result<Cell<T>, Refusal>, cause: u8, tag: u8, place: u32) -> bool {
        match answer {
            Ok(Cell::Fault(fault)) => {
                fault.cause == cause && fault.tag == tag && fault.place == place
            }
            Ok(Cell::Reading(_)) | Err(_) => false,
        }
    }

    // The place of the fault at which flattening stopped.
    fn fault_place(answer: Result<u32, FlattenFault>) -> Option<u32> {
        match answer {
            Err(FlattenFault::AtPlace(cell)) => Some(cell.place),
            Err(FlattenFault::TooShort) | Ok(_) => None,
        }
    }

    // 1,048,576 places of which none was delivered, in 4 + 131,072 bytes.
    #[test]
    fn longest_profile(rt: HostRuntime) -> Result<(), Fail> {
        let mut bytes = [0u8; 131076];
        bytes[1] = 16;
        let (profile, used) = Packed::of(1, &bytes)?;
        assert_eq!(rt; used, 131076);
        assert_eq!(rt; profile.length(), 1048576);
        assert!(rt; is_fault(profile.read(1048575), 11, 1, 1048575));
        assert!(rt; matches!(profile.read(1048576), Err(Refusal::NoSuchPlace)));
        Ok(())
    }

    #[test]
    fn profile_too_long(rt: HostRuntime) {
        let mut bytes = [0u8; 131077];
        bytes[1] = 16;
        bytes[3] = 1;
        let mut profile = Packed::new(1);
        assert!(rt; matches!(profile.open(&bytes), Err(Refusal::TooLong)));
        assert_eq!(rt; profile.length(), 0);
    }

    #[test]
    fn profile_of_no_places(rt: HostRuntime) {
        let profile = Packed::new(1);
        assert_eq!(rt; profile.length(), 0);
        assert!(rt; matches!(profile.read(0), Err(Refusal::NoSuchPlace)));
    }

    #[test]
    fn longest_nominal(rt: HostRuntime) -> Result<(), Fail> {
        let reading = Interval {
            amount: -5,
            status: 1,
        };
        let base = Nominal::new(reading, 1048576)?;
        assert!(rt; matches!(base.read(1048575), Ok(Cell::Reading(x)) if x.amount == -5));
        assert!(rt; matches!(base.read(1048576), Err(Refusal::NoSuchPlace)));
        assert!(rt; matches!(Nominal::new(reading, 1048577), Err(Refusal::TooLong)));
        Ok(())
    }

    #[test]
    fn longest_journal(rt: HostRuntime) {
        let mut journal = Journal::new();
        assert!(rt; matches!(journal.start(1048577), Err(Refusal::TooLong)));
        assert_eq!(rt; journal.started(), 0);
        assert!(rt; matches!(journal.start(1048576), Ok(())));
        assert!(rt; matches!(journal.enter(0, &[7]), Err(Refusal::TooLong)));
        assert!(rt; matches!(journal.replace(1048575, 1, &[7]), Ok(1048576)));
        assert!(rt; matches!(journal.origin(1048575), Ok(Origin::Entered(7))));
    }

    #[test]
    fn draft_let_go_and_kept(rt: HostRuntime) -> Result<(), Fail> {
        let mut journal = Journal::new();
        journal.start(10)?;
        {
            let mut draft = Draft::open(&mut journal);
            assert!(rt; matches!(draft.strike(2, 3), Ok(7)));
        }
        assert_eq!(rt; journal.length(), 10);
        let mut draft = Draft::open(&mut journal);
        assert!(rt; matches!(draft.strike(2, 3), Ok(7)));
        draft.keep();
        assert_eq!(rt; journal.length(), 7);
        assert!(rt; matches!(journal.origin(2), Ok(Origin::Base(5))));
        Ok(())
    }

    // A register of events, a journal on it, and a journal for another length on that.
    #[test]
    fn events_under_journals(rt: HostRuntime) -> Result<(), Fail> {
        let readings = [Event { time: 1, code: 2 }, Event { time: 3, code: 4 }];
        let mut register = Register::new();
        assert!(rt; matches!(register.fill(&readings), Ok(())));
        let word = Event {
            time: 9,
            code: 65535,
        }
        .to_word();
        let mut lower = Journal::new();
        lower.start(2)?;
        lower.enter(2, &[word])?;
        assert!(rt; fits(&lower, &register));
        let laid = Laid::new(register, lower, 3);
        assert_eq!(rt; laid.length(), 3);
        assert!(rt; matches!(laid.read(2), Ok(Cell::Reading(x)) if x.code == 65535));
        let mut upper = Journal::new();
        upper.start(4)?;
        assert!(rt; !fits(&upper, &laid));
        let pile = Laid::new(laid, upper, 4);
        assert!(rt; matches!(pile.read(1), Ok(Cell::Reading(x)) if x.time == 3));
        assert!(rt; is_fault(pile.read(3), 13, 4, 3));
        Ok(())
    }

    #[test]
    fn history(rt: HostRuntime) -> Result<(), Fail> {
        let base = Nominal::new(
            Interval {
                amount: 5,
                status: 0,
            },
            10,
        )?;
        let calls = [
            Call::Strike { place: 2, count: 3 },
            Call::Strike { place: 7, count: 1 },
            Call::Batch(&[0, 1, 2, 0, 0, 0, 1]),
        ];
        let mut outcomes = [Outcome::Drafted(0); 4];
        let laid = replay(base, 3, &calls, &mut outcomes);
        assert_eq!(rt; laid.length(), 6);
        assert!(rt; matches!(outcomes[0], Outcome::Corrected(Ok(7))));
        assert!(rt; matches!(outcomes[1], Outcome::Corrected(Err(Refusal::NoSuchPlace))));
        assert!(rt; matches!(outcomes[2], Outcome::Batched(Ok(1))));
        assert!(rt; matches!(outcomes[3], Outcome::Drafted(0)));
        Ok(())
    }

    // Two journals of ten and seven places, folded; and the fold laid where the two lay.
    #[test]
    fn folds(rt: HostRuntime) -> Result<(), Fail> {
        let mut lower = Journal::new();
        lower.start(10)?;
        lower.strike(2, 3)?;
        let mut upper = Journal::new();
        upper.start(7)?;
        upper.strike(1, 2)?;
        let mut third = Journal::new();
        assert!(rt; matches!(fold(&lower, &upper, &mut third), Ok(5)));
        assert!(rt; third.pieces().len() == 2);
        assert_eq!(rt; third.pieces()[1].first, 6);
        assert_eq!(rt; third.pieces()[1].count, 4);
        assert!(rt; matches!(fold(&upper, &lower, &mut third), Err(Refusal::NotForLower)));
        assert_eq!(rt; third.length(), 5);
        let reading = Interval {
            amount: 5,
            status: 0,
        };
        let pile = Laid::new(Laid::new(Nominal::new(reading, 10)?, lower, 3), upper, 4);
        assert!(rt; matches!(pile.trace(1), Ok(Origin::Base(6))));
        let both = fold_neighbours(&pile)?;
        assert!(rt; matches!(both.origin(1), Ok(Origin::Base(6))));
        Ok(())
    }

    // Struck words stay in use until tidying; a walk hands out a run for each piece, and then nothing.
    #[test]
    fn tidies_and_walks(rt: HostRuntime) -> Result<(), Fail> {
        let mut journal = Journal::new();
        journal.start(10)?;
        journal.replace(2, 3, &[70, 71])?;
        journal.strike(2, 1)?;
        assert_eq!(rt; journal.words().len(), 2);
        journal.tidy();
        assert_eq!(rt; journal.words().len(), 1);
        let mut walk = journal.walk();
        assert!(rt; matches!(walk.next_run(), Some(Run::Kept { place: 0, count: 2 })));
        assert!(rt;
            matches!(
                walk.next_run(),
                Some(Run::Entered {
                    first: 0,
                    words: [71]
                })
            )
        );
        assert!(rt; matches!(walk.next_run(), Some(Run::Kept { place: 5, count: 5 })));
        assert!(rt; walk.next_run().is_none());
        assert!(rt; walk.next_run().is_none());
        Ok(())
    }

    // What a correction answered, as the console prints it.
    #[test]
    fn answers_as_text(rt: HostRuntime) -> Result<(), Fail> {
        let mut journal = Journal::new();
        journal.start(10)?;
        let struck = length_text(rt.alloc(), journal.strike(2, 3))?;
        assert_eq!(rt; struck.as_str(), "ok 7");
        let refused = length_text(rt.alloc(), journal.strike(7, 1))?;
        assert_eq!(rt; refused.as_str(), "refused 1");
        Ok(())
    }

    // A buffer too short, a fault at place 1, and what was written before it.
    #[test]
    fn flattens(rt: HostRuntime) -> Result<(), Fail> {
        let bytes = [0, 0, 0, 3, 5, 0, 0, 0, 5, 255, 255, 255, 255];
        let mut profile = Packed::new(1);
        assert!(rt; profile.open(&bytes).is_ok());
        let none = Interval {
            amount: 9,
            status: 9,
        };
        let mut short = [none; 2];
        assert!(rt; matches!(flatten(&profile, &mut short), Err(FlattenFault::TooShort)));
        let mut out = [none; 4];
        assert_eq!(rt; fault_place(flatten(&profile, &mut out)), Some(1));
        assert_eq!(rt; out[0].amount, 5);
        assert_eq!(rt; out[1].amount, 9);
        let mut journal = Journal::new();
        journal.start(3)?;
        journal.replace(1, 1, &[none.to_word()])?;
        let laid = Laid::new(profile, journal, 3);
        assert!(rt; matches!(flatten(&laid, &mut out), Ok(3)));
        assert_eq!(rt; out[2].amount, -1);
        assert_eq!(rt; out[3].amount, 9);
        Ok(())
    }
}
