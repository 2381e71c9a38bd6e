ghost use Rattle.std.specs.Prelude.{◌≡◌};
ghost use Rattle.guidance.specs.Guides.{Guides, Leads, WithinReach};

use transition::system::System;
use treebank::moves::Move;
use treebank::rows::Row;

/// A transition system whose configuration also tells, for each table, the move to make next.
///
/// `reliable` is the unit type where the advice keeps its law: it leads to every table that can be reached.
pub trait Guided: System {
    ghost reliable: { Type 0 };

    /// The move to make next for the wanted table, or none.
    fn advice(&self, table: &[Row]) -> Option<Move>
        ensures value { result ≡ Self.meaning.advice (Self.conf self.now) table.now }
        ensures leads { reliable → WithinReach Self.meaning (Self.start self.now) (Self.conf self.now) table.now → Leads Self.meaning (Self.conf self.now) table.now result };

    ghost guides: { reliable → (s : Self) → Guides Self.meaning (Self.start s) };
}
