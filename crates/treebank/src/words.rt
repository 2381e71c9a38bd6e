ghost use Rattle.std.specs.Prelude.{◌≤◌};

/// How many words a sentence has: 0 to 100.
// A ghost field and no `impl Model`: every holder of a count knows that it is small, as configurations need.
#[derive(Clone, Copy, Debug, PartialEq, Eq)]
pub struct WordCount {
    count: u8,
    ghost small: { count ≤ 100 },
}

pub mod calls;
