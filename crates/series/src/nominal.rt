// A nominal base: one reading of any kind and a length; each of its cells is that reading.
ghost use Rattle.std.specs.Prelude.{◌≤◌};

pub mod calls;

#[derive(Drop)]
pub struct Nominal<T> {
    reading: T,
    length: u32,
    ghost few: { length ≤ 1048576 },
}
