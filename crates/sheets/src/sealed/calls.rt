ghost use Rattle.std.specs.Prelude.{◌≡◌, length};
ghost use Rattle.std.specs.List.{slice_get};
ghost use Rattle.std.specs.Iterator.{YieldsFirst};
ghost use Rattle.std.specs.Iterator.Runs.{YieldsInOrder};
ghost use Rattle.treebank.specs.declared.moves.Move.{Move};
ghost use Rattle.workbench_model.specs.declared.answers.Answer.TheVariants.{Committed};
ghost use Rattle.workbench_model.specs.Models.Call.{commit as commit_call};
ghost use Rattle.workbench.specs.Workbenches.{model_of, Serves, answer_beside, HandedBack};
ghost use Rattle.workbench.specs.Writing.{WroteRows, RowsSay};

use super::Sealed;
use history::Moves;
use transition::faults::Fault;
use transition::system::System;
use treebank::moves::Move;
use treebank::rows::Row;
use treebank::words::WordCount;
use workbench::workbench::{Ticket, Workbench};

/// Seals a sentence, finished or not, with a checkpoint standing or not. The workbench is gone then.
pub fn seal<S: System>(workbench: Workbench<S>) -> Sealed<S>
    ensures { result.workbench ≡ workbench }
{
    Sealed { workbench }
}

// Its questions are passed on by a method each, and the workbench is not lent: a sealed sentence answers these alone.
impl<S: System> Sealed<S> {
    /// How many words the sentence has.
    pub fn words(&self) -> WordCount
        ensures { result.count ≡ (model_of self.now.workbench).words }
    {
        self.workbench.words()
    }

    /// The epoch under which the sentence was loaded.
    pub fn epoch(&self) -> u32
        ensures { result ≡ (model_of self.now.workbench).epoch }
    {
        self.workbench.epoch()
    }

    /// How many moves stand.
    pub fn move_count(&self) -> usize
        ensures { result ≡ length (model_of self.now.workbench).moves }
    {
        self.workbench.move_count()
    }

    /// The move standing at a place from 0 on, or none behind the last.
    pub fn move_at(&self, place: usize) -> Option<Move>
        ensures { result ≡ slice_get (model_of self.now.workbench).moves place }
    {
        self.workbench.move_at(place)
    }

    /// The moves standing, oldest first.
    pub fn moves(&self) -> Moves<'_>
        ensures moves { result ≡ (model_of self.now.workbench).moves }
        ensures runs { YieldsInOrder (YieldsFirst {A = Move} (λ rest. rest)) (λ rest. rest) }
    {
        self.workbench.moves()
    }

    /// Whether the sentence is finished.
    pub fn finished(&self) -> bool
        ensures { result ≡ S.System.meaning.finished (S.System.conf self.now.workbench.system) }
    {
        self.workbench.finished()
    }

    /// Writes the row of each word into the lent rows and answers how many; later rows stay. `BufferTooSmall`, with
    /// nothing written, where fewer rows are lent than there are words.
    pub fn write_rows(&self, rows: &mut [Row]) -> Result<usize, Fault>
        ensures wrote { WroteRows self.now.workbench rows.old result rows.new }
        ensures table { RowsSay self.now.workbench result rows.new }
    {
        self.workbench.write_rows(rows)
    }

    /// Spends the ticket of a checkpoint that stood at sealing: `NoSuchCheckpoint`, with the ticket, where none stands or
    /// the ticket has another epoch.
    pub fn commit(&mut self, ticket: Ticket) -> Result<(), (Ticket, Fault)>
        ensures served { Serves self.old.workbench (commit_call ticket.epoch) (answer_beside (λ _. Committed) result) self.new.workbench }
        ensures back { HandedBack ticket result }
    {
        self.workbench.commit(ticket)
    }
}
