ghost use Rattle.std.specs.Prelude.{◌≡◌, MatchResult};
ghost use Rattle.transition.specs.Runs.{Arises};
ghost use Rattle.arc_standard_theory.specs.Configurations.{start, finished, emptied, root_alone};
ghost use Rattle.arc_standard_theory.specs.Moves.{arc_standard, verdict, next};
ghost use Rattle.arc_standard_theory.specs.Nivre.{AsDefined};
ghost use Rattle.arc_store.specs.Stepping.{Open, Stepped};
ghost use Rattle.arc_standard.specs.Held.{held, stack_of, TopTwo};
ghost use Rattle.arc_standard_theory.proofs.Lawful.{lawful};

use super::ArcStandard;
use transition::faults::Fault;
use transition::system::System;
use treebank::arcs::Arc;
use treebank::moves::Move;
use treebank::refusals::Refusal;
use treebank::words::WordCount;

impl ArcStandard {
    /// Whether no word is left in the buffer.
    pub(super) fn is_emptied(&self) -> bool
        ensures { result ≡ emptied (held self.now) }
    {
        self.front > self.arcs.words().get()
    }

    /// Whether 0 is alone on the stack.
    fn is_root_alone(&self) -> bool
        ensures { result ≡ root_alone (stack_of self.now) }
    {
        matches!(self.stack.as_slice(), [0])
    }

    /// `Finished` where 0 is alone on the stack and the buffer is empty.
    // Each system's own: one over `System` is called from the impl's own `step`, and such a cycle of calls gets no proof;
    // one that is handed the answer would say no more than the test.
    fn unfinished(&self) -> Result<(), Refusal>
        ensures { Open (finished (held self.now)) result }
    {
        if self.finished() {
            return Err(Refusal::Finished);
        }
        Ok(())
    }

    /// The second node of the stack and its top.
    pub(super) fn top_two(&self) -> Result<(u8, u8), Refusal>
        ensures { TopTwo self.now result }
    {
        match self.stack.as_slice() {
            [.., second, top] => Ok((*second, *top)),
            _ => Err(Refusal::TooFewNodes),
        }
    }

    fn shift(&mut self) -> Result<Option<Arc>, Fault>
        ensures { Stepped arc_standard held self.old Move.Shift result self.new }
    {
        self.unfinished()?;
        if self.is_emptied() {
            return Err(Fault::from(Refusal::TooFewNodes));
        }
        self.stack.push(self.front);
        self.front += 1;
        Ok(None)
    }

    fn left_arc(&mut self, label: u8) -> Result<Option<Arc>, Fault>
        ensures { Stepped arc_standard held self.old (Move.LeftArc label) result self.new }
    {
        self.unfinished()?;
        let (i, j) = self.top_two()?;
        let arc = self.arcs.draw(Arc {
            head: j,
            label,
            word: i,
        })?;
        let second = self.stack.len() - 2;
        self.stack.remove(second);
        Ok(Some(arc))
    }

    fn right_arc(&mut self, label: u8) -> Result<Option<Arc>, Fault>
        ensures { Stepped arc_standard held self.old (Move.RightArc label) result self.new }
    {
        self.unfinished()?;
        let (i, j) = self.top_two()?;
        let arc = self.arcs.draw(Arc {
            head: i,
            label,
            word: j,
        })?;
        self.stack.pop();
        Ok(Some(arc))
    }

    fn make(&mut self, m: Move) -> Result<Option<Arc>, Fault>
        ensures { Stepped arc_standard held self.old m result self.new }
    {
        match m {
            Move::Shift => self.shift(),
            Move::LeftArc(label) => self.left_arc(label),
            Move::RightArc(label) => self.right_arc(label),
            Move::Reduce | Move::NoArc => Err(Fault::from(Refusal::ForeignMove)),
        }
    }
}

impl System for ArcStandard {
    ghost meaning = { arc_standard };

    ghost conf = { held };

    ghost start = { λ _. start };

    ghost laws = { λ s. lawful };

    fn begin(&mut self, words: WordCount) {
        *self = ArcStandard::new(words);
    }

    fn words(&self) -> WordCount {
        self.arcs.words()
    }

    fn arc_into(&self, word: u8) -> Option<Arc> {
        self.arcs.arc_into(word)
    }

    fn finished(&self) -> bool {
        self.is_root_alone() && self.is_emptied()
    }

    fn remaining(&self) -> u16 {
        2 * (self.arcs.words().get() as u16 + 1 - self.front as u16) + self.stack.len() as u16 - 1
    }

    fn permission(&self, m: Move) -> Result<Option<Arc>, Fault> {
        let arc = match m {
            Move::Shift => {
                self.unfinished()?;
                if self.is_emptied() {
                    return Err(Fault::from(Refusal::TooFewNodes));
                }
                return Ok(None);
            }
            Move::LeftArc(label) => {
                self.unfinished()?;
                let (i, j) = self.top_two()?;
                Arc {
                    head: j,
                    label,
                    word: i,
                }
            }
            Move::RightArc(label) => {
                self.unfinished()?;
                let (i, j) = self.top_two()?;
                Arc {
                    head: i,
                    label,
                    word: j,
                }
            }
            Move::Reduce | Move::NoArc => return Err(Fault::from(Refusal::ForeignMove)),
        };
        Ok(Some(self.arcs.permission(arc)?))
    }

    /// Besides what every system promises: on each configuration that arises, the move is accepted exactly where Nivre's
    /// definition has a transition, and does what that does.
    fn step(&mut self, m: Move) -> Result<Option<Arc>, Fault>
        ensures answer { result ≡ verdict (held self.old) m }
        ensures moved { MatchResult result (λ _. held self.new ≡ next (held self.old) m) (λ _. self.new ≡ self.old) }
        ensures alike { start ≡ start }
        ensures defined { Arises arc_standard start (held self.old) → AsDefined (held self.old) m result (held self.new) }
    {
        self.make(m)
    }

    fn number(&self) -> u8 {
        1
    }

    fn height(&self) -> u8 {
        0
    }
}
