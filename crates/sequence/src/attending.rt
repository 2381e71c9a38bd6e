ghost use Rattle.requests.specs.declared.kinds.GuidedRequest.TheVariants.{Plain as plain_request};
ghost use Rattle.requests.specs.declared.kinds.Request.TheVariants.{Checkpoint as checkpoint_request};
ghost use Rattle.sequence.specs.Attending.{Attends};
ghost use Rattle.sequence.specs.Spending.{Spent};

use crate::asking::Ask;
use crate::pouches::{is_free, put, take};
use requests::kinds::{Reply, Request};
use transition::faults::Fault;
use transition::system::System;
use workbench::workbench::{Ticket, Workbench};
use workbench_model::answers::Answer;

/// Sets a checkpoint and puts its ticket at a place, if that is free.
fn checkpoint<S: System>(
    workbench: &mut Workbench<S>,
    pouch: &mut [Option<Ticket>],
    place: usize,
) -> Reply
    ensures { Attends workbench.old pouch.old (plain_request (checkpoint_request place)) result workbench.new pouch.new }
{
    if !is_free(pouch, place) {
        return Reply::NoRoom;
    }
    // By cases: of what a closure handed to `map` puts into the pouch no proof knows.
    match workbench.checkpoint() {
        Ok(ticket) => {
            put(pouch, place, ticket);
            Reply::Answered(Ok(Answer::CheckpointSet))
        }
        Err(fault) => Reply::Answered(Err(fault)),
    }
}

/// Takes the ticket that lies at a place to a call on a workbench, and puts it back where the call is refused.
// Over any `W`: in the bound of a closure no contract can be stated yet of `Workbench<S>`, whose ghost field cites `S`.
fn spend<W, F: FnOnce(&mut W, Ticket) -> Result<Answer, (Ticket, Fault)> + Drop>(
    workbench: &mut W,
    pouch: &mut [Option<Ticket>],
    place: usize,
    call: F,
) -> Reply
    requires { F.IsAlwaysCallable call }
    ensures { Spent F.FnOnce call workbench.old pouch.old place result workbench.new pouch.new }
{
    let Some(ticket) = take(pouch, place) else {
        return Reply::NoTicket;
    };
    match call(workbench, ticket) {
        Ok(answer) => Reply::Answered(Ok(answer)),
        Err((ticket, fault)) => {
            put(pouch, place, ticket);
            Reply::Answered(Err(fault))
        }
    }
}

/// Each system is asked these. None of them is a derive, so no advice need be reliable.
impl<S: System> Ask<S> for Request {
    ghost request = { plain_request };

    ghost reliable = { ⊥ };

    fn attend(self, workbench: &mut Workbench<S>, pouch: &mut [Option<Ticket>]) -> Reply {
        match self {
            Request::Load { words, epoch } => {
                Reply::Answered(workbench.load(words, epoch).map(|()| Answer::Loaded))
            }
            Request::Step(m) => Reply::Answered(workbench.step(m).map(|_| Answer::Made(1))),
            Request::Undo => Reply::Answered(workbench.undo().map(|()| Answer::Removed(1))),
            Request::Checkpoint { place } => checkpoint(workbench, pouch, place),
            Request::Commit { place } => spend(workbench, pouch, place, |workbench, ticket| {
                workbench.commit(ticket).map(|()| Answer::Committed)
            }),
            Request::Rollback { place } => spend(workbench, pouch, place, |workbench, ticket| {
                workbench.rollback(ticket).map(Answer::Removed)
            }),
        }
    }

    ghost guides = { λ none. absurd none };
}
