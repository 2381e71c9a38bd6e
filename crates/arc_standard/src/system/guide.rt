ghost use Rattle.std.specs.Prelude.{◌≡◌};
ghost use Rattle.arc_standard_theory.specs.Configurations.{words, top_two};
ghost use Rattle.arc_standard_theory.specs.Advice.{serves, served, shift_advice, right_advice, arc_advice};
ghost use Rattle.treebank.specs.Tables.{arc_between};
ghost use Rattle.arc_standard.specs.Held.{held};
ghost use Rattle.arc_standard_theory.proofs.Reached;

use super::ArcStandard;
use guidance::guided::Guided;
use transition::system::System;
use treebank::moves::Move;
use treebank::rows::Row;
use treebank::tables::{arc_between, is_good_table};

impl ArcStandard {
    /// Whether the word has its arc, if the table puts it directly under the node.
    fn serves(&self, table: &[Row], node: u8, word: u8) -> bool
        ensures { result ≡ serves (held self.now).rows table.now node word }
    {
        arc_between(table, node, word).is_none() || self.arcs.arc_into(word).is_some()
    }

    /// Whether each word that the table puts directly under the node has its arc.
    fn is_served(&self, table: &[Row], node: u8) -> bool
        ensures { result ≡ served (held self.now).rows table.now node (words (held self.now)) }
    {
        // An open end behind the last word: `1..=n` keeps a flag beside the numbers, and each turn costs more.
        (1..self.arcs.words().get() + 1).all(|word| self.serves(table, node, word))
    }

    fn shift_advice(&self) -> Option<Move>
        ensures { result ≡ shift_advice (held self.now) }
    {
        if self.is_emptied() {
            None
        } else {
            Some(Move::Shift)
        }
    }

    fn right_advice(&self, table: &[Row], i: u8, j: u8) -> Option<Move>
        ensures { result ≡ right_advice (held self.now) table.now j (arc_between table.now i j) }
    {
        match arc_between(table, i, j) {
            Some(arc) if self.is_served(table, j) => Some(Move::RightArc(arc.label)),
            _ => self.shift_advice(),
        }
    }

    /// The first line of the advice that fits.
    fn arc_advice(&self, table: &[Row]) -> Option<Move>
        ensures { result ≡ arc_advice (held self.now) table.now (top_two (held self.now).stack) }
    {
        match self.top_two() {
            Ok((i, j)) => match arc_between(table, j, i) {
                Some(arc) => Some(Move::LeftArc(arc.label)),
                None => self.right_advice(table, i, j),
            },
            Err(_) => self.shift_advice(),
        }
    }
}

impl Guided for ArcStandard {
    ghost reliable = { Unit {0} };

    ghost guides = { λ r s. Reached.guides };

    fn advice(&self, table: &[Row]) -> Option<Move> {
        if self.finished() || !is_good_table(self.words(), table) {
            return None;
        }
        self.arc_advice(table)
    }
}
