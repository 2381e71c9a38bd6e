ghost use Rattle.std.specs.Prelude.{◌≡◌};
ghost use Rattle.list_based_theory.specs.Configurations.{start};
ghost use Rattle.list_based.specs.Held.{held};

use super::ListBased;
use arc_store::store::ArcStore;
use treebank::rows::Row;
use treebank::words::WordCount;

impl ListBased {
    /// A newly begun sentence.
    pub fn new(words: WordCount) -> ListBased
        ensures { held result ≡ start words.count }
    {
        ListBased {
            front: 1,
            left: 1,
            made: 0,
            arcs: ArcStore::new(words),
        }
    }

    /// How many nodes the first list has: they are the nodes from 0 on, and those from there to the front are the second list.
    pub fn first_list_len(&self) -> u8
        ensures { result ≡ (held self.now).left }
    {
        self.left
    }

    /// The first word of the buffer, or the number behind the last word where the buffer is empty.
    pub fn front(&self) -> u8
        ensures { result ≡ (held self.now).front }
    {
        self.front
    }

    /// The row of each word.
    pub fn rows(&self) -> &[Row]
        ensures { result.now ≡ (held self.now).rows }
    {
        self.arcs.rows()
    }
}
