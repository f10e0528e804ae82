// A register: a caller's readings, of any kind, as its cells.
ghost use Rattle.std.specs.Prelude.{◌≤◌, length};

pub mod calls;

#[derive(Drop)]
pub struct Register<'a, T> {
    readings: &'a [T],
    ghost few: { length readings.now ≤ 1048576 },
}
