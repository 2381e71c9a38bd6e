ghost use Rattle.std.specs.Prelude.{◌≡◌, length};

use treebank::rows::Row;
use treebank::words::WordCount;

/// The arcs of a sentence, as the rows of its words; rows behind the last word are not in use.
#[derive(Drop)]
pub struct ArcStore {
    words: WordCount,
    // An array beside its length, and no `ArrayVec`: the length is a checked type of its own, which is handed on.
    rows: [Row; 100],
    ghost room: { length rows ≡ 100 },
}

pub mod calls;
