// The series beneath the console's journals: a bottom, and a check over it where one is on.
use commands::command::{Bottom, CheckLayer};

pub mod calls;

#[derive(Drop)]
pub struct Beneath {
    // A base is made of it anew for each question.
    bottom: Bottom,
    check: Option<CheckLayer>,
}
