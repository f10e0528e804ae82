// The calls that a journal's history is made of.
use journal::correction::Correction;

#[derive(Clone, Copy)]
pub enum Call<'a> {
    // Enter these words at a place.
    Enter {
        place: u32,
        words: &'a [u64],
    },
    // Strike so many readings from a place on.
    Strike {
        place: u32,
        count: u32,
    },
    // Both.
    Replace(Correction<'a>),
    // The corrections in these bytes, all of them or none.
    Batch(&'a [u8]),
    // These corrections in turn, a refused one passed over; all undone at the end unless they are kept.
    Draft {
        corrections: &'a [Correction<'a>],
        keep: bool,
    },
    // Tidy the journal.
    Tidy,
}
