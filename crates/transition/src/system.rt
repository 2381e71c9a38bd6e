ghost use Rattle.std.specs.Prelude.{◌≡◌, ℕ, MatchResult};
ghost use Rattle.transition.specs.Meaning.{Meaning};
ghost use Rattle.transition.specs.Laws.{Laws};

use crate::faults::Fault;
use treebank::arcs::Arc;
use treebank::moves::Move;
use treebank::words::WordCount;

/// A transition system that keeps the laws, with or without layers.
///
/// `meaning` says what its configurations tell, `conf` which one it is in, and `start` the one in which a sentence of so
/// many words begins. Questions take `&self` and so change nothing.
pub trait System {
    ghost meaning: { Meaning };

    ghost conf: { Self → meaning.Config };

    ghost start: { Self → ℕ → meaning.Config };

    /// Begins a sentence.
    // `alike` stands wherever a system changes: it ties the new system to the old one, which no type can hold.
    fn begin(&mut self, words: WordCount)
        ensures begun { conf self.new ≡ start self.old words.count }
        ensures alike { start self.new ≡ start self.old };

    /// How many words the sentence has.
    fn words(&self) -> WordCount
        ensures { result.count ≡ meaning.words (conf self.now) };

    /// The arc into a word; none for a word without a head and for a number that is no word of the sentence.
    fn arc_into(&self, word: u8) -> Option<Arc>
        ensures { result ≡ meaning.arc_into (conf self.now) word };

    /// Whether the sentence is finished.
    fn finished(&self) -> bool
        ensures { result ≡ meaning.finished (conf self.now) };

    /// How many moves remain at most.
    fn remaining(&self) -> u16
        ensures { result ≡ meaning.remaining (conf self.now) };

    /// Whether the move is permitted, with the arc that it would add.
    fn permission(&self, m: Move) -> Result<Option<Arc>, Fault>
        ensures { result ≡ meaning.verdict (conf self.now) m };

    /// Makes the move where it is permitted; a refused one changes nothing.
    fn step(&mut self, m: Move) -> Result<Option<Arc>, Fault>
        ensures answer { result ≡ meaning.verdict (conf self.old) m }
        ensures moved { MatchResult result (λ _. conf self.new ≡ meaning.next (conf self.old) m) (λ _. self.new ≡ self.old) }
        ensures alike { start self.new ≡ start self.old };

    /// The system's number, as run sheets write it. Which systems there are is left open, so no enum lists them.
    fn number(&self) -> u8
        ensures { result ≡ meaning.number };

    /// How many layers stand over the system, 255 at most.
    fn height(&self) -> u8
        ensures { result ≡ meaning.height };

    ghost laws: { (s : Self) → Laws meaning (start s) };
}
