ghost use Rattle.std.specs.Prelude.{◌≡◌};
ghost use Rattle.treebank.specs.Tables.{arc_between};
ghost use Rattle.arc_eager_theory.specs.Configurations.{front, top, under};
ghost use Rattle.arc_eager_theory.specs.Advice.{joins_any, reduce_advice, right_advice, left_advice};
ghost use Rattle.arc_eager.specs.Held.{held, stack_of};
ghost use Rattle.arc_eager_theory.proofs.Reached;

use super::ArcEager;
use guidance::guided::Guided;
use transition::system::System;
use treebank::moves::Move;
use treebank::rows::Row;
use treebank::tables::{arc_between, is_good_table, is_joined};

impl ArcEager {
    /// Whether the table joins the word to a node under the top of the stack.
    fn joins_deeper(&self, table: &[Row], word: u8) -> bool
        ensures { result ≡ joins_any table.now word (under (stack_of self.now)) }
    {
        self.stack
            .iter()
            .rev()
            .skip(1)
            .any(|node| is_joined(table, word, *node))
    }

    fn reduce_advice(&self, table: &[Row]) -> Option<Move>
        ensures { result ≡ reduce_advice (held self.now) table.now }
    {
        if self.arcs.arc_into(self.top()).is_some() && self.joins_deeper(table, self.front()) {
            return Some(Move::Reduce);
        }
        Some(Move::Shift)
    }

    fn right_advice(&self, table: &[Row]) -> Option<Move>
        ensures { result ≡ right_advice (held self.now) table.now (arc_between table.now (top (stack_of self.now)) (front (held self.now))) }
    {
        match arc_between(table, self.top(), self.front()) {
            Some(arc) => Some(Move::RightArc(arc.label)),
            None => self.reduce_advice(table),
        }
    }

    /// The first line of the advice that fits.
    fn left_advice(&self, table: &[Row]) -> Option<Move>
        ensures { result ≡ left_advice (held self.now) table.now (arc_between table.now (front (held self.now)) (top (stack_of self.now))) }
    {
        match arc_between(table, self.front(), self.top()) {
            Some(arc) => Some(Move::LeftArc(arc.label)),
            None => self.right_advice(table),
        }
    }
}

impl Guided for ArcEager {
    ghost reliable = { Unit {0} };

    ghost guides = { λ r s. Reached.guides };

    fn advice(&self, table: &[Row]) -> Option<Move> {
        if self.finished() || !is_good_table(self.words(), table) {
            return None;
        }
        self.left_advice(table)
    }
}
