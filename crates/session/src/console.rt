// The console: four journals, and the series beneath them.
ghost use Rattle.std.specs.Prelude.{◌≡◌, length as count_of};

use journal::journal::Journal;
use questions::beneath::Beneath;

pub mod calls;

#[derive(Drop)]
pub struct Console {
    journals: [Journal; 4],
    beneath: Beneath,
    ghost four: { count_of journals ≡ 4 },
}
