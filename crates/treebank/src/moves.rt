ghost use Rattle.std.specs.Prelude.{◌≡◌, true, ◌↔◌};
ghost use Rattle.treebank.specs.Moves.{kind, label, Proper};

use std::fmt;

/// A transition by name; the two arc moves carry the number of the label that they draw with.
#[derive(Clone, Copy, Debug, PartialEq, Eq)]
pub enum Move {
    Shift,
    LeftArc(u8),
    RightArc(u8),
    Reduce,
    NoArc,
}

impl Move {
    /// The number of the kind of move, as run sheets write it.
    pub fn kind(self) -> u8
        ensures { result ≡ kind self }
    {
        // By a match: only cases without a label could have numbers of their own.
        match self {
            Move::Shift => 0,
            Move::LeftArc(_) => 1,
            Move::RightArc(_) => 2,
            Move::Reduce => 3,
            Move::NoArc => 4,
        }
    }

    /// The label that the move draws with, if it draws.
    pub fn label(self) -> Option<u8>
        ensures { result ≡ label self }
    {
        match self {
            Move::LeftArc(label) | Move::RightArc(label) => Some(label),
            Move::Shift | Move::Reduce | Move::NoArc => None,
        }
    }

    /// Whether the move, if it draws, has a label from 1 to 200.
    pub fn is_proper(self) -> bool
        ensures { (result ≡ true) ↔ Proper self }
    {
        self.label().is_none_or(|label| 1 <= label && label <= 200)
    }
}

impl fmt::Display for Move {
    fn fmt<W: fmt::Write>(&self, f: &mut fmt::Formatter<W>) -> fmt::Result {
        match self {
            Move::Shift => f.write_str("Shift"),
            Move::LeftArc(label) => write!(f, "Left-Arc {label}"),
            Move::RightArc(label) => write!(f, "Right-Arc {label}"),
            Move::Reduce => f.write_str("Reduce"),
            Move::NoArc => f.write_str("No-Arc"),
        }
    }
}
