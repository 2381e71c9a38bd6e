ghost use Rattle.std.specs.Prelude.{◌≡◌, reverse};
ghost use Rattle.arc_standard_theory.specs.Configurations.{start};
ghost use Rattle.arc_standard.specs.Held.{held, stack_of};

use super::ArcStandard;
use arc_store::store::ArcStore;
use arrayvec::ArrayVec;
use treebank::rows::Row;
use treebank::words::WordCount;

impl ArcStandard {
    /// A newly begun sentence.
    pub fn new(words: WordCount) -> ArcStandard
        ensures { held result ≡ start words.count }
    {
        let mut stack = ArrayVec::new();
        stack.push(0);
        ArcStandard {
            stack,
            front: 1,
            arcs: ArcStore::new(words),
        }
    }

    /// The nodes on the stack, its top last.
    pub fn stack(&self) -> &[u8]
        ensures { reverse result.now ≡ stack_of self.now }
    {
        self.stack.as_slice()
    }

    /// The first word of the buffer, or the number behind the last word where the buffer is empty.
    pub fn front(&self) -> u8
        ensures { result ≡ (held self.now).front }
    {
        self.front
    }

    /// The row of each word.
    pub fn rows(&self) -> &[Row]
        ensures { result.now ≡ (held self.now).rows }
    {
        self.arcs.rows()
    }
}
