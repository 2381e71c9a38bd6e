ghost use Rattle.std.specs.Prelude.{◌≡◌, MatchResult};
ghost use Rattle.transition.specs.Runs.{Arises};
ghost use Rattle.list_based_theory.specs.Configurations.{start, finished};
ghost use Rattle.list_based_theory.specs.Moves.{list_based, verdict, next};
ghost use Rattle.list_based_theory.specs.Nivre.{AsDefined};
ghost use Rattle.arc_store.specs.Stepping.{Open, Stepped};
ghost use Rattle.list_based.specs.Held.{held, Last};
ghost use Rattle.list_based_theory.proofs.Lawful.{lawful};

use super::ListBased;
use transition::faults::Fault;
use transition::system::System;
use treebank::arcs::Arc;
use treebank::moves::Move;
use treebank::refusals::Refusal;
use treebank::words::WordCount;

impl ListBased {
    /// `Finished` where the buffer is empty.
    // Each system's own: one over `System` is called from the impl's own `step`, and such a cycle of calls gets no proof;
    // one that is handed the answer would say no more than the test.
    fn unfinished(&self) -> Result<(), Refusal>
        ensures { Open (finished (held self.now)) result }
    {
        if self.finished() {
            return Err(Refusal::Finished);
        }
        Ok(())
    }

    /// The last node of the first list; `TooFewNodes` where that list is empty.
    pub(super) fn last(&self) -> Result<u8, Refusal>
        ensures { Last (held self.now) result }
    {
        self.left.checked_sub(1).ok_or(Refusal::TooFewNodes)
    }

    fn shift(&mut self) -> Result<Option<Arc>, Fault>
        ensures { Stepped list_based held self.old Move.Shift result self.new }
    {
        self.unfinished()?;
        self.front += 1;
        self.left = self.front;
        self.made += 1;
        Ok(None)
    }

    fn left_arc(&mut self, label: u8) -> Result<Option<Arc>, Fault>
        ensures { Stepped list_based held self.old (Move.LeftArc label) result self.new }
    {
        self.unfinished()?;
        let i = self.last()?;
        let arc = self.arcs.draw(Arc {
            head: self.front,
            label,
            word: i,
        })?;
        self.left = i;
        self.made += 1;
        Ok(Some(arc))
    }

    fn right_arc(&mut self, label: u8) -> Result<Option<Arc>, Fault>
        ensures { Stepped list_based held self.old (Move.RightArc label) result self.new }
    {
        self.unfinished()?;
        let i = self.last()?;
        let arc = self.arcs.draw(Arc {
            head: i,
            label,
            word: self.front,
        })?;
        self.left = i;
        self.made += 1;
        Ok(Some(arc))
    }

    fn no_arc(&mut self) -> Result<Option<Arc>, Fault>
        ensures { Stepped list_based held self.old Move.NoArc result self.new }
    {
        self.unfinished()?;
        let i = self.last()?;
        self.left = i;
        self.made += 1;
        Ok(None)
    }

    fn make(&mut self, m: Move) -> Result<Option<Arc>, Fault>
        ensures { Stepped list_based held self.old m result self.new }
    {
        match m {
            Move::Shift => self.shift(),
            Move::LeftArc(label) => self.left_arc(label),
            Move::RightArc(label) => self.right_arc(label),
            Move::NoArc => self.no_arc(),
            Move::Reduce => Err(Fault::from(Refusal::ForeignMove)),
        }
    }
}

impl System for ListBased {
    ghost meaning = { list_based };

    ghost conf = { held };

    ghost start = { λ _. start };

    ghost laws = { λ s. lawful };

    fn begin(&mut self, words: WordCount) {
        *self = ListBased::new(words);
    }

    fn words(&self) -> WordCount {
        self.arcs.words()
    }

    fn arc_into(&self, word: u8) -> Option<Arc> {
        self.arcs.arc_into(word)
    }

    fn finished(&self) -> bool {
        self.front > self.arcs.words().get()
    }

    fn remaining(&self) -> u16 {
        let words = self.arcs.words().get() as u16;
        (words * (words + 3) / 2).saturating_sub(self.made)
    }

    fn permission(&self, m: Move) -> Result<Option<Arc>, Fault> {
        let arc = match m {
            Move::Shift => {
                self.unfinished()?;
                return Ok(None);
            }
            Move::LeftArc(label) => {
                self.unfinished()?;
                let i = self.last()?;
                Arc {
                    head: self.front,
                    label,
                    word: i,
                }
            }
            Move::RightArc(label) => {
                self.unfinished()?;
                let i = self.last()?;
                Arc {
                    head: i,
                    label,
                    word: self.front,
                }
            }
            Move::NoArc => {
                self.unfinished()?;
                self.last()?;
                return Ok(None);
            }
            Move::Reduce => return Err(Fault::from(Refusal::ForeignMove)),
        };
        Ok(Some(self.arcs.permission(arc)?))
    }

    /// Besides what every system promises: on each configuration that arises, the move is accepted exactly where Nivre's
    /// definition has a transition, and does what that does.
    fn step(&mut self, m: Move) -> Result<Option<Arc>, Fault>
        ensures answer { result ≡ verdict (held self.old) m }
        ensures moved { MatchResult result (λ _. held self.new ≡ next (held self.old) m) (λ _. self.new ≡ self.old) }
        ensures alike { start ≡ start }
        ensures defined { Arises list_based start (held self.old) → AsDefined (held self.old) m result (held self.new) }
    {
        self.make(m)
    }

    fn number(&self) -> u8 {
        3
    }

    fn height(&self) -> u8 {
        0
    }
}
