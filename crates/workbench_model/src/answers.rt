use std::fmt;

/// What a workbench answers to a call that it accepts: among it how many moves were made or removed.
#[derive(Clone, Copy, Debug, PartialEq, Eq)]
pub enum Answer {
    Loaded,
    Made(usize),
    Removed(usize),
    CheckpointSet,
    Committed,
}

impl fmt::Display for Answer {
    fn fmt<W: fmt::Write>(&self, f: &mut fmt::Formatter<W>) -> fmt::Result {
        match self {
            Answer::Loaded => f.write_str("loaded"),
            Answer::Made(moves) => write!(f, "made {moves}"),
            Answer::Removed(moves) => write!(f, "removed {moves}"),
            Answer::CheckpointSet => f.write_str("checkpoint set"),
            Answer::Committed => f.write_str("committed"),
        }
    }
}
