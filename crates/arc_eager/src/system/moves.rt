ghost use Rattle.std.specs.Prelude.{◌≡◌, MatchResult};
ghost use Rattle.transition.specs.Runs.{Arises};
ghost use Rattle.arc_eager_theory.specs.Configurations.{start, finished, top};
ghost use Rattle.arc_eager_theory.specs.Moves.{arc_eager, verdict, next};
ghost use Rattle.arc_eager_theory.specs.Nivre.{AsDefined};
ghost use Rattle.arc_store.specs.Stepping.{Open, Stepped};
ghost use Rattle.arc_eager.specs.Held.{held, stack_of};
ghost use Rattle.arc_eager_theory.proofs.Lawful.{lawful};

use super::ArcEager;
use transition::faults::Fault;
use transition::system::System;
use treebank::arcs::Arc;
use treebank::moves::Move;
use treebank::refusals::Refusal;
use treebank::words::WordCount;

impl ArcEager {
    /// The top of the stack, and the root where the stack is empty.
    pub(super) fn top(&self) -> u8
        ensures { result ≡ top (stack_of self.now) }
    {
        self.stack.last().copied().unwrap_or(0)
    }

    /// `Finished` where the buffer is empty.
    // Each system's own: one over `System` is called from the impl's own `step`, and such a cycle of calls gets no proof;
    // one that is handed the answer would say no more than the test.
    fn unfinished(&self) -> Result<(), Refusal>
        ensures { Open (finished (held self.now)) result }
    {
        if self.finished() {
            return Err(Refusal::Finished);
        }
        Ok(())
    }

    fn shift(&mut self) -> Result<Option<Arc>, Fault>
        ensures { Stepped arc_eager held self.old Move.Shift result self.new }
    {
        self.unfinished()?;
        let word = self.front();
        self.stack.push(word);
        self.done += 1;
        Ok(None)
    }

    fn left_arc(&mut self, label: u8) -> Result<Option<Arc>, Fault>
        ensures { Stepped arc_eager held self.old (Move.LeftArc label) result self.new }
    {
        self.unfinished()?;
        let (i, j) = (self.top(), self.front());
        let arc = self.arcs.draw(Arc {
            head: j,
            label,
            word: i,
        })?;
        self.stack.pop();
        Ok(Some(arc))
    }

    fn right_arc(&mut self, label: u8) -> Result<Option<Arc>, Fault>
        ensures { Stepped arc_eager held self.old (Move.RightArc label) result self.new }
    {
        self.unfinished()?;
        let (i, j) = (self.top(), self.front());
        let arc = self.arcs.draw(Arc {
            head: i,
            label,
            word: j,
        })?;
        self.stack.push(j);
        self.done += 1;
        Ok(Some(arc))
    }

    fn reduce(&mut self) -> Result<Option<Arc>, Fault>
        ensures { Stepped arc_eager held self.old Move.Reduce result self.new }
    {
        self.unfinished()?;
        self.arcs.arc_into(self.top()).ok_or(Refusal::HasNoHead)?;
        self.stack.pop();
        Ok(None)
    }

    fn make(&mut self, m: Move) -> Result<Option<Arc>, Fault>
        ensures { Stepped arc_eager held self.old m result self.new }
    {
        match m {
            Move::Shift => self.shift(),
            Move::LeftArc(label) => self.left_arc(label),
            Move::RightArc(label) => self.right_arc(label),
            Move::Reduce => self.reduce(),
            Move::NoArc => Err(Fault::from(Refusal::ForeignMove)),
        }
    }
}

impl System for ArcEager {
    ghost meaning = { arc_eager };

    ghost conf = { held };

    ghost start = { λ _. start };

    ghost laws = { λ s. lawful };

    fn begin(&mut self, words: WordCount) {
        *self = ArcEager::new(words);
    }

    fn words(&self) -> WordCount {
        self.arcs.words()
    }

    fn arc_into(&self, word: u8) -> Option<Arc> {
        self.arcs.arc_into(word)
    }

    fn finished(&self) -> bool {
        self.done == self.arcs.words().get()
    }

    fn remaining(&self) -> u16 {
        let buffer = self.arcs.words().get() - self.done;
        (2 * buffer as u16 + self.stack.len() as u16).saturating_sub(1)
    }

    fn permission(&self, m: Move) -> Result<Option<Arc>, Fault> {
        let arc = match m {
            Move::Shift => {
                self.unfinished()?;
                return Ok(None);
            }
            Move::Reduce => {
                self.unfinished()?;
                self.arcs.arc_into(self.top()).ok_or(Refusal::HasNoHead)?;
                return Ok(None);
            }
            Move::LeftArc(label) => {
                self.unfinished()?;
                Arc {
                    head: self.front(),
                    label,
                    word: self.top(),
                }
            }
            Move::RightArc(label) => {
                self.unfinished()?;
                Arc {
                    head: self.top(),
                    label,
                    word: self.front(),
                }
            }
            Move::NoArc => return Err(Fault::from(Refusal::ForeignMove)),
        };
        Ok(Some(self.arcs.permission(arc)?))
    }

    /// Besides what every system promises: on each configuration that arises, the move is accepted exactly where Nivre's
    /// definition has a transition, and does what that does.
    fn step(&mut self, m: Move) -> Result<Option<Arc>, Fault>
        ensures answer { result ≡ verdict (held self.old) m }
        ensures moved { MatchResult result (λ _. held self.new ≡ next (held self.old) m) (λ _. self.new ≡ self.old) }
        ensures alike { start ≡ start }
        ensures defined { Arises arc_eager start (held self.old) → AsDefined (held self.old) m result (held self.new) }
    {
        self.make(m)
    }

    fn number(&self) -> u8 {
        2
    }

    fn height(&self) -> u8 {
        0
    }
}
