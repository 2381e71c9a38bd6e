ghost use Rattle.workbench_model.specs.States.{Sound, holding};

use history::history::History;
use transition::system::System;
use treebank::words::WordCount;

/// A system with the moves standing that led to its configuration. `sound` says it of every workbench: the moves, each
/// permitted in its turn, lead from the start to the configuration.
#[derive(Drop)]
pub struct Workbench<S: System> {
    system: S,
    history: History,
    words: WordCount,
    epoch: u32,
    checkpoint: Option<usize>,
    ghost sound: { ∥ Sound S.System.meaning (holding words.count epoch history checkpoint (S.System.conf system) (S.System.start system)) ∥₁ },
}

/// What a checkpoint hands out, and commit and rollback spend. It can be neither copied nor dropped.
pub struct Ticket {
    epoch: u32,
}

pub mod calls;
pub mod checkpoints;
mod going_back;
pub mod guided;
pub mod questions;
