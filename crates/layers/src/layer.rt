ghost use Rattle.std.specs.Prelude.{◌≡◌};
ghost use Rattle.layers_theory.specs.Layers.{layered, beside, LessForbidden};
ghost use Rattle.layers_theory.proofs.Layered.{layered_laws, layered_guides};

use crate::rules::Rule;
use guidance::guided::Guided;
use transition::faults::Fault;
use transition::system::System;
use treebank::arcs::Arc;
use treebank::moves::Move;
use treebank::rows::Row;
use treebank::words::WordCount;

/// A system under one rule more: the rule, and the system or layer that it stands on.
#[derive(Drop)]
pub struct Layer<R, S> {
    rule: R,
    below: S,
}

impl<R: Rule, S: System> Layer<R, S> {
    /// The rule over what stands below.
    ///
    /// With it stands what the layer reaches: what is reached below, less what the rule forbids.
    pub fn new(rule: R, below: S) -> Layer<R, S>
        ensures rule { result.rule ≡ rule }
        ensures below { result.below ≡ below }
        ensures less { LessForbidden R.Rule.ruling S.System.meaning (S.System.start below) rule }
    {
        Layer { rule, below }
    }
}

/// What stands below is asked first, and the rule only of an arc. All but permission, step and height is passed down.
impl<R: Rule, S: System> System for Layer<R, S> {
    ghost meaning = { layered R.Rule.ruling S.System.meaning };

    ghost conf = { λ s. (s.rule, S.System.conf s.below) };

    ghost start = { λ s. beside s.rule (S.System.start s.below) };

    ghost laws = { λ s. layered_laws R.Rule.ruling S.System.meaning (S.System.start s.below) s.rule R.Rule.lawful (S.System.laws s.below) };

    fn begin(&mut self, words: WordCount) {
        self.below.begin(words)
    }

    fn words(&self) -> WordCount {
        self.below.words()
    }

    fn arc_into(&self, word: u8) -> Option<Arc> {
        self.below.arc_into(word)
    }

    fn finished(&self) -> bool {
        self.below.finished()
    }

    fn remaining(&self) -> u16 {
        self.below.remaining()
    }

    fn permission(&self, m: Move) -> Result<Option<Arc>, Fault> {
        let Some(arc) = self.below.permission(m)? else {
            return Ok(None);
        };
        match self.rule.objection(&self.below, arc) {
            Some(refusal) => Err(Fault {
                refusal,
                level: self.height(),
            }),
            None => Ok(Some(arc)),
        }
    }

    fn step(&mut self, m: Move) -> Result<Option<Arc>, Fault> {
        self.permission(m)?;
        self.below.step(m)
    }

    fn number(&self) -> u8 {
        self.below.number()
    }

    fn height(&self) -> u8 {
        self.below.height().saturating_add(1)
    }
}

impl<R: Rule, S: Guided> Guided for Layer<R, S> {
    ghost reliable = { S.Guided.reliable };

    ghost guides = { λ r s. layered_guides R.Rule.ruling S.System.meaning (S.System.start s.below) s.rule R.Rule.lawful (S.System.laws s.below) (S.Guided.guides r s.below) };

    fn advice(&self, table: &[Row]) -> Option<Move> {
        self.below.advice(table)
    }
}
