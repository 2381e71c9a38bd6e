ghost use Rattle.std.specs.Prelude.{◌≡◌, length, is_some};
ghost use Rattle.std.specs.List.{slice_get};
ghost use Rattle.std.specs.Iterator.{YieldsFirst};
ghost use Rattle.std.specs.Iterator.Runs.{YieldsInOrder};
ghost use Rattle.treebank.specs.declared.moves.Move.{Move};
ghost use Rattle.workbench.specs.Workbenches.{model_of};
ghost use Rattle.workbench.specs.Writing.{WroteRows, RowsSay};

use super::Workbench;
use history::iter::Moves;
use transition::faults::Fault;
use transition::system::System;
use treebank::arcs::Arc;
use treebank::moves::Move;
use treebank::refusals::Refusal;
use treebank::rows::Row;
use treebank::words::WordCount;

impl<S: System> Workbench<S> {
    /// How many words the sentence has.
    pub fn words(&self) -> WordCount
        ensures { result.count ≡ (model_of self.now).words }
    {
        self.words
    }

    /// The epoch under which the sentence was loaded.
    pub fn epoch(&self) -> u32
        ensures { result ≡ (model_of self.now).epoch }
    {
        self.epoch
    }

    /// How many moves stand.
    pub fn move_count(&self) -> usize
        ensures { result ≡ length (model_of self.now).moves }
    {
        self.history.len()
    }

    /// The moves standing, oldest first.
    pub fn moves(&self) -> Moves<'_>
        ensures moves { result ≡ (model_of self.now).moves }
        ensures runs { YieldsInOrder (YieldsFirst {A = Move} (λ rest. rest)) (λ rest. rest) }
    {
        self.history.iter()
    }

    /// The move standing at a place from 0 on, or none behind the last.
    pub fn move_at(&self, place: usize) -> Option<Move>
        ensures { result ≡ slice_get (model_of self.now).moves place }
    {
        self.history.get(place)
    }

    /// Whether a checkpoint stands.
    pub fn has_checkpoint(&self) -> bool
        ensures { result ≡ is_some (model_of self.now).checkpoint }
    {
        self.checkpoint.is_some()
    }

    /// Whether the sentence is finished.
    pub fn finished(&self) -> bool
        ensures { result ≡ S.System.meaning.finished (S.System.conf self.now.system) }
    {
        self.system.finished()
    }

    /// How many moves remain at most.
    pub fn remaining(&self) -> u16
        ensures { result ≡ S.System.meaning.remaining (S.System.conf self.now.system) }
    {
        self.system.remaining()
    }

    /// The arc into a word; none for a word without a head and for a number that is no word of the sentence.
    pub fn arc_into(&self, word: u8) -> Option<Arc>
        ensures { result ≡ S.System.meaning.arc_into (S.System.conf self.now.system) word }
    {
        self.system.arc_into(word)
    }

    /// The number of the system, as run sheets write it.
    pub fn number(&self) -> u8
        ensures { result ≡ S.System.meaning.number }
    {
        self.system.number()
    }

    /// Writes the row of each word into the lent rows and answers how many; later rows stay. `BufferTooSmall`, with
    /// nothing written, where fewer rows are lent than there are words.
    pub fn write_rows(&self, rows: &mut [Row]) -> Result<usize, Fault>
        ensures wrote { WroteRows self.now rows.old result rows.new }
        ensures table { RowsSay self.now result rows.new }
    {
        let words = self.words.get();
        if rows.len() < words as usize {
            return Err(Fault::from(Refusal::BufferTooSmall));
        }
        for (i, row) in rows[..words as usize].iter_mut().enumerate() {
            *row = Row::from(self.system.arc_into(i as u8 + 1));
        }
        Ok(words as usize)
    }
}
