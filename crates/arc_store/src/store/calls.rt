ghost use Rattle.std.specs.Prelude.{◌≡◌, ◌↔◌, length, replicate, Ok};
ghost use Rattle.treebank.specs.Tables.{arc_into, table_arcs};
ghost use Rattle.treebank.specs.Trees.{Fresh};
ghost use Rattle.arc_store.specs.Drawing.{rows_of, bare, arc_verdict, Drawn};

use super::ArcStore;
use treebank::arcs::Arc;
use treebank::refusals::Refusal;
use treebank::rows::Row;
use treebank::tables::{arc_into, stands_above};
use treebank::words::WordCount;

impl ArcStore {
    /// A sentence of so many words without arcs.
    pub fn new(words: WordCount) -> ArcStore
        ensures bare { rows_of result ≡ replicate words.count bare }
        ensures words { result.words.count ≡ words.count }
    {
        ArcStore {
            words,
            rows: [Row::from(None); 100],
        }
    }

    /// How many words the sentence has.
    pub fn words(&self) -> WordCount
        ensures { result.count ≡ length (rows_of self.now) }
    {
        self.words
    }

    /// The row of each word.
    pub fn rows(&self) -> &[Row]
        ensures { result.now ≡ rows_of self.now }
    {
        &self.rows[..self.words.get() as usize]
    }

    /// The arc into a word; none for a number that is no word of the sentence.
    pub fn arc_into(&self, word: u8) -> Option<Arc>
        ensures { result ≡ arc_into (rows_of self.now) word }
    {
        arc_into(self.rows(), word)
    }

    /// Whether the arc may be drawn: between nodes of the sentence (else `TooFewNodes`), not into the root (`IntoRoot`),
    /// into a word without a head (`HasHead`), and from a node that is neither that word nor below it (`WouldCircle`).
    pub fn permission(&self, arc: Arc) -> Result<Arc, Refusal>
        ensures answer { result ≡ arc_verdict (rows_of self.now) arc }
        ensures fresh { (result ≡ Ok arc) ↔ Fresh (length (rows_of self.now)) (table_arcs (rows_of self.now)) arc }
    {
        let words = self.words.get();
        if words < arc.head || words < arc.word {
            return Err(Refusal::TooFewNodes);
        }
        if arc.word == 0 {
            return Err(Refusal::IntoRoot);
        }
        if self.arc_into(arc.word).is_some() {
            return Err(Refusal::HasHead);
        }
        if arc.head == arc.word || stands_above(self.rows(), arc.word, arc.head) {
            return Err(Refusal::WouldCircle);
        }
        Ok(arc)
    }

    /// Draws the arc where that is permitted; a refusal changes nothing.
    pub fn draw(&mut self, arc: Arc) -> Result<Arc, Refusal>
        ensures { Drawn self.old arc result self.new }
    {
        let arc = self.permission(arc)?;
        self.rows[arc.word as usize - 1] = Row::from(Some(arc));
        Ok(arc)
    }
}
