ghost use Rattle.std.specs.Prelude.{◌≡◌};
ghost use Rattle.treebank.specs.Words.{Counted};

use super::WordCount;
use crate::refusals::Refusal;

impl WordCount {
    /// The largest number of words that a sentence may have.
    pub const MOST: usize = 100;

    /// No words.
    pub const NONE: WordCount = WordCount { count: 0 };

    /// A count of words, or `TooManyWords` for more than 100.
    pub fn new(words: usize) -> Result<WordCount, Refusal>
        ensures { Counted words result }
    {
        if words > WordCount::MOST {
            return Err(Refusal::TooManyWords);
        }
        Ok(WordCount { count: words as u8 })
    }

    /// The count as a number.
    pub fn get(self) -> u8
        ensures { result ≡ self.count }
    {
        self.count
    }
}
