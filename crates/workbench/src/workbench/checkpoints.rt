ghost use Rattle.std.specs.Prelude.{◌≡◌};
ghost use Rattle.workbench_model.specs.declared.answers.Answer.TheVariants.{Removed, CheckpointSet, Committed};
ghost use Rattle.workbench_model.specs.Models.Call.{checkpoint as checkpoint_call, commit as commit_call, rollback as rollback_call};
ghost use Rattle.workbench.specs.Workbenches.{model_of, noted_for, Serves, answer_of, answer_beside, HandedOut, HandedBack};

use super::{Ticket, Workbench};
use transition::faults::Fault;
use transition::system::System;
use treebank::refusals::Refusal;

impl<S: System> Workbench<S> {
    /// Notes how many moves stand, and hands out a ticket: `CheckpointStands` while one stands already.
    pub fn checkpoint(&mut self) -> Result<Ticket, Fault>
        ensures served { Serves self.old checkpoint_call (answer_of (λ _. CheckpointSet) result) self.new }
        ensures ticket { HandedOut self.old.epoch result }
    {
        if self.checkpoint.is_some() {
            return Err(Fault::from(Refusal::CheckpointStands));
        }
        self.checkpoint = Some(self.history.len());
        Ok(Ticket { epoch: self.epoch })
    }

    /// How many moves the checkpoint noted to which the ticket belongs, if there is one.
    fn noted_for(&self, ticket: &Ticket) -> Option<usize>
        ensures { result ≡ noted_for (model_of self.now) ticket.now.epoch }
    {
        if ticket.epoch != self.epoch {
            return None;
        }
        self.checkpoint
    }

    /// Spends the ticket and leaves all moves: `NoSuchCheckpoint`, with the ticket, where no checkpoint stands or the
    /// ticket has another epoch.
    pub fn commit(&mut self, ticket: Ticket) -> Result<(), (Ticket, Fault)>
        ensures served { Serves self.old (commit_call ticket.epoch) (answer_beside (λ _. Committed) result) self.new }
        ensures back { HandedBack ticket result }
    {
        if self.noted_for(&ticket).is_none() {
            return Err((ticket, Fault::from(Refusal::NoSuchCheckpoint)));
        }
        let Ticket { epoch: _ } = ticket;
        self.checkpoint = None;
        Ok(())
    }

    /// Spends the ticket, removes the moves made since the checkpoint and answers how many: `NoSuchCheckpoint`, with the
    /// ticket, where no checkpoint stands or the ticket has another epoch.
    pub fn rollback(&mut self, ticket: Ticket) -> Result<usize, (Ticket, Fault)>
        ensures served { Serves self.old (rollback_call ticket.epoch) (answer_beside (λ n. Removed n) result) self.new }
        ensures back { HandedBack ticket result }
    {
        let Some(count) = self.noted_for(&ticket) else {
            return Err((ticket, Fault::from(Refusal::NoSuchCheckpoint)));
        };
        let Ticket { epoch: _ } = ticket;
        let removed = self.history.len() - count;
        self.go_back_to(count);
        self.checkpoint = None;
        Ok(removed)
    }
}
