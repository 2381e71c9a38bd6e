ghost use Rattle.std.specs.Prelude.{◌≡◌, map};
ghost use Rattle.std.specs.Iterator.{YieldsFirst, item_count};
ghost use Rattle.history.specs.Packing.{unpacked};

use crate::packing::unpack;
use std::marker::Model;
use treebank::moves::Move;

/// The moves of a history, oldest first, seen as the list of those that are left.
#[derive(Drop)]
pub struct Moves<'a> {
    entries: &'a [u16],
}

impl<'a> Model for Moves<'a> {
    ghost use Rattle.std.specs.Prelude.{List, map};
    ghost use Rattle.treebank.specs.declared.moves.Move.{Move};
    ghost use Rattle.history.specs.Packing.{unpacked};

    ghost Value = { List Move };

    ghost view = { λ it. map unpacked it.entries.now };
}

impl<'a> Moves<'a> {
    /// The moves that these entries stand for.
    pub(crate) fn new(entries: &'a [u16]) -> Moves<'a>
        ensures { result ≡ map unpacked entries.now }
    {
        Moves { entries }
    }
}

impl<'a> Iterator for Moves<'a> {
    type Item = Move;

    ghost next_gives = { YieldsFirst (λ rest. rest) };

    ghost remaining = { item_count (λ rest. rest) };

    fn next(&mut self) -> Option<Move> {
        let (entry, rest) = self.entries.split_first()?;
        self.entries = rest;
        Some(unpack(*entry))
    }
}
