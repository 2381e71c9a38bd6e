use std::fmt;

/// A labelled arc from a head to the word that depends on it.
#[derive(Clone, Copy, Debug, PartialEq, Eq)]
pub struct Arc {
    pub head: u8,
    pub label: u8,
    pub word: u8,
}

impl fmt::Display for Arc {
    fn fmt<W: fmt::Write>(&self, f: &mut fmt::Formatter<W>) -> fmt::Result {
        write!(f, "{} -> {}, label {}", self.head, self.word, self.label)
    }
}
