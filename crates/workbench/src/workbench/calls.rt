ghost use Rattle.std.specs.Prelude.{◌≡◌};
ghost use Rattle.workbench_model.specs.declared.answers.Answer.TheVariants.{Loaded, Made, Removed};
ghost use Rattle.workbench_model.specs.Models.{new_model};
ghost use Rattle.workbench_model.specs.Models.Call.{load as load_call, step as step_call, undo as undo_call};
ghost use Rattle.workbench_model.specs.States.{Sound};
ghost use Rattle.workbench.specs.Workbenches.{model_of, state, Serves, answer_of, StepFault, Drawn};

use super::Workbench;
use history::history::History;
use transition::faults::Fault;
use transition::system::System;
use treebank::arcs::Arc;
use treebank::moves::Move;
use treebank::refusals::Refusal;
use treebank::words::WordCount;

/// Why a step was refused, by the fault that the system gave: foreign moves first, then a finished sentence.
fn step_fault<S: System>(system: &S, fault: Fault) -> Fault
    ensures { StepFault (S.System.meaning.finished (S.System.conf system.now)) fault result }
{
    if fault.refusal == Refusal::ForeignMove {
        return Fault::from(Refusal::ForeignMove);
    }
    if system.finished() {
        return Fault::from(Refusal::Finished);
    }
    fault
}

impl<S: System> Workbench<S> {
    /// A workbench newly loaded with no words under epoch 0.
    pub fn new(mut system: S) -> Workbench<S>
        ensures model { model_of result ≡ new_model }
        ensures same { S.System.start result.system ≡ S.System.start system }
        ensures sound { Sound S.System.meaning (state result) }
    {
        let words = WordCount::NONE;
        system.begin(words);
        Workbench {
            system,
            history: History::new(),
            words,
            epoch: 0,
            checkpoint: None,
        }
    }

    /// Starts a sentence: `CheckpointStands` while a checkpoint stands, then `TooManyWords` over 100.
    pub fn load(&mut self, words: usize, epoch: u32) -> Result<(), Fault>
        ensures { Serves self.old (load_call words epoch) (answer_of (λ _. Loaded) result) self.new }
    {
        if self.checkpoint.is_some() {
            return Err(Fault::from(Refusal::CheckpointStands));
        }
        let words = WordCount::new(words)?;
        self.system.begin(words);
        self.history.cut(0);
        self.words = words;
        self.epoch = epoch;
        Ok(())
    }

    /// Makes a move and answers the arc that it drew: `BadLabel` for a label that is not 1 to 200, then `ForeignMove`,
    /// then `Finished`, then what the system refuses.
    pub fn step(&mut self, m: Move) -> Result<Option<Arc>, Fault>
        ensures served { Serves self.old (step_call m) (answer_of (λ _. Made 1) result) self.new }
        ensures drawn { Drawn self.old m result }
    {
        if !m.is_proper() {
            return Err(Fault::from(Refusal::BadLabel));
        }
        // By cases: with `map_err(..)?` goals stayed open, whose facts stood inside of it alone.
        match self.system.step(m) {
            Ok(arc) => {
                let Ok(()) = self.history.push(m) else {
                    unreachable!("the ceiling leaves room for each permitted move")
                };
                Ok(arc)
            }
            Err(fault) => Err(step_fault(&self.system, fault)),
        }
    }

    /// Takes the last move back: `NothingToUndo` where none stands behind the checkpoint.
    pub fn undo(&mut self) -> Result<(), Fault>
        ensures { Serves self.old undo_call (answer_of (λ _. Removed 1) result) self.new }
    {
        let len = self.history.len();
        if len <= self.checkpoint.unwrap_or(0) {
            return Err(Fault::from(Refusal::NothingToUndo));
        }
        self.go_back_to(len - 1);
        Ok(())
    }
}
