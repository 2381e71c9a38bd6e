ghost use Rattle.std.specs.Prelude.{◌≡◌, ◌≤◌, [], length, take};
ghost use Rattle.std.specs.List.{slice_get};
ghost use Rattle.std.specs.Iterator.{YieldsFirst};
ghost use Rattle.std.specs.Iterator.Runs.{YieldsInOrder};
ghost use Rattle.treebank.specs.declared.moves.Move.{Move};
ghost use Rattle.history.specs.Pushing.{capacity, Pushed};

use crate::iter::Moves;
use crate::packing::{pack, unpack};
use std::marker::Model;
use thiserror::Error;
use treebank::moves::Move;

/// The moves standing, oldest first, with room for as many as any sentence takes.
///
/// An entry is its move's kind times 256 and its label.
// The form that the rules set for it (docs/RULES.md, "Forms in the code"): an array of numbers, and how many are in use.
#[derive(Drop)]
pub struct History {
    moves: [u16; History::CAPACITY],
    len: usize,
}

impl Model for History {
    ghost use Rattle.std.specs.Prelude.{◌≡◌, ◌≤◌, List, map, length, take};
    ghost use Rattle.treebank.specs.declared.moves.Move.{Move};
    ghost use Rattle.history.specs.Packing.{unpacked};

    ghost Value = { List Move };

    ghost view = { λ h. map unpacked (take h.len h.moves) };

    ghost invariant = { λ h. (length h.moves ≡ 5150) × (h.len ≤ 5150) };
}

/// A history has no room for one more move.
#[derive(Clone, Copy, Debug, PartialEq, Eq, Error)]
#[error("no room for one more move")]
pub struct HistoryFull;

impl History {
    /// How many moves it has room for: no system's ceiling is higher.
    pub const CAPACITY: usize = 5150;

    /// No moves.
    pub fn new() -> History
        ensures { result ≡ [] }
    {
        History {
            moves: [0; History::CAPACITY],
            len: 0,
        }
    }

    /// Adds a move: `HistoryFull`, with nothing changed, exactly where `CAPACITY` moves stand.
    pub fn push(&mut self, m: Move) -> Result<(), HistoryFull>
        ensures { Pushed self.old m result self.new }
    {
        if self.len >= History::CAPACITY {
            return Err(HistoryFull);
        }
        self.moves[self.len] = pack(m);
        self.len += 1;
        Ok(())
    }

    /// Leaves the first `len` moves; all, where no more stand.
    pub fn cut(&mut self, len: usize)
        ensures { self.new ≡ take len self.old }
    {
        if len < self.len {
            self.len = len;
        }
    }

    /// How many moves stand.
    pub fn len(&self) -> usize
        ensures value { result ≡ length self.now }
        ensures within { result ≤ capacity }
    {
        self.len
    }

    /// The move at a place from 0 on, or none behind the last.
    pub fn get(&self, place: usize) -> Option<Move>
        ensures { result ≡ slice_get self.now place }
    {
        self.moves[..self.len]
            .get(place)
            .map(|entry| unpack(*entry))
    }

    /// The moves, oldest first.
    pub fn iter(&self) -> Moves<'_>
        ensures moves { result ≡ self.now }
        ensures runs { YieldsInOrder (YieldsFirst {A = Move} (λ rest. rest)) (λ rest. rest) }
    {
        Moves::new(&self.moves[..self.len])
    }
}
