ghost use Rattle.std.specs.Prelude.{◌≡◌};
ghost use Rattle.list_based_theory.specs.Advice.{joins_before, left_advice, list_advice};
ghost use Rattle.treebank.specs.Tables.{arc_between};
ghost use Rattle.list_based.specs.Held.{held};
ghost use Rattle.list_based_theory.proofs.Reached;

use super::ListBased;
use guidance::guided::Guided;
use transition::system::System;
use treebank::moves::Move;
use treebank::rows::Row;
use treebank::tables::{arc_between, is_good_table, is_joined};

/// Whether the table joins j to a node before i.
fn is_joined_before(table: &[Row], j: u8, i: u8) -> bool
    ensures { result ≡ joins_before table.now j i }
{
    (0..i).any(|node| is_joined(table, node, j))
}

/// The advice with i last in the first list and j first in the buffer.
fn pair_advice(table: &[Row], i: u8, j: u8) -> Option<Move>
    ensures { result ≡ left_advice table.now i j (arc_between table.now j i) }
{
    if let Some(arc) = arc_between(table, j, i) {
        return Some(Move::LeftArc(arc.label));
    }
    if let Some(arc) = arc_between(table, i, j) {
        return Some(Move::RightArc(arc.label));
    }
    if is_joined_before(table, j, i) {
        return Some(Move::NoArc);
    }
    Some(Move::Shift)
}

impl ListBased {
    /// The first line of the advice that fits.
    fn list_advice(&self, table: &[Row]) -> Option<Move>
        ensures { result ≡ list_advice (held self.now) table.now }
    {
        match self.last() {
            Ok(i) => pair_advice(table, i, self.front),
            Err(_) => Some(Move::Shift),
        }
    }
}

impl Guided for ListBased {
    ghost reliable = { Unit {0} };

    ghost guides = { λ r s. Reached.guides };

    fn advice(&self, table: &[Row]) -> Option<Move> {
        if self.finished() || !is_good_table(self.words(), table) {
            return None;
        }
        self.list_advice(table)
    }
}
