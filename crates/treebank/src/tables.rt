ghost use Rattle.std.specs.Prelude.{◌≡◌, true, ◌↔◌};
ghost use Rattle.treebank.specs.Tables.{GoodRow, GoodTable, is_good_table, FirstBad, arc_into, arc_between, joins, row_arc, row_of, table_arcs};
ghost use Rattle.treebank.specs.Trees.{Above, Covered, Joining};
ghost use Rattle.treebank.specs.Climbs.{comes_to};
ghost use Rattle.treebank.specs.Projectivity.{ToldProjective};

use crate::arcs::Arc;
use crate::refusals::Refusal;
use crate::rows::Row;
use crate::words::WordCount;

impl Row {
    /// The head that stands for "no head".
    pub const NO_HEAD: u8 = 255;

    /// Whether a table of so many words may hold the row.
    pub fn is_good(self, words: WordCount) -> bool
        ensures { (result ≡ true) ↔ GoodRow words.count self }
    {
        if self.head == Row::NO_HEAD {
            return self.label == 0;
        }
        self.head <= words.get() && 1 <= self.label && self.label <= 200
    }

    /// The arc that this row says as the row of `word`.
    pub fn arc(self, word: u8) -> Option<Arc>
        ensures { result ≡ row_arc word self }
    {
        if self.head == Row::NO_HEAD {
            return None;
        }
        Some(Arc {
            head: self.head,
            label: self.label,
            word,
        })
    }
}

/// The row of a word with this arc, or of one without a head.
impl From<Option<Arc>> for Row {
    ghost from_gives = { λ arc row. row ≡ row_of arc };

    fn from(arc: Option<Arc>) -> Row {
        match arc {
            Some(arc) => Row {
                head: arc.head,
                label: arc.label,
            },
            None => Row {
                head: Row::NO_HEAD,
                label: 0,
            },
        }
    }
}

/// The place of the first row that is not good, or none where all are good.
pub fn first_bad_row(words: WordCount, rows: &[Row]) -> Option<usize>
    ensures { FirstBad words.count rows.now result }
{
    // The form that the rules set: a `for` over the lent rows.
    for (i, row) in rows.iter().enumerate() {
        if !row.is_good(words) {
            return Some(i);
        }
    }
    None
}

/// Whether the rows are a good table of so many words: as many rows, all good.
pub fn is_good_table(words: WordCount, rows: &[Row]) -> bool
    ensures value { result ≡ is_good_table words.count rows.now }
    ensures good { (result ≡ true) ↔ GoodTable words.count rows.now }
{
    // A count beside the rows, and no struct of both: whether they agree is what is asked.
    rows.len() == words.get() as usize && first_bad_row(words, rows).is_none()
}

/// The arc into a word; none for a number that is no word of the table.
pub fn arc_into(rows: &[Row], word: u8) -> Option<Arc>
    ensures { result ≡ arc_into rows.now word }
{
    let place = (word as usize).checked_sub(1)?;
    rows.get(place)?.arc(word)
}

/// The arc from a head into a word, if the table has it.
pub fn arc_between(rows: &[Row], head: u8, word: u8) -> Option<Arc>
    ensures value { result ≡ arc_between rows.now head word }
    ensures joining { Joining (table_arcs rows.now) head word result }
{
    arc_into(rows, word).filter(|arc| arc.head == head)
}

/// Whether the table joins the two nodes, as head and dependent or as dependent and head.
pub fn is_joined(rows: &[Row], a: u8, b: u8) -> bool
    ensures { result ≡ joins rows.now a b }
{
    arc_between(rows, a, b).is_some() || arc_between(rows, b, a).is_some()
}

/// Whether `node` stands above `word`: climbs from the word, head by head, as many arcs as there are rows.
pub fn stands_above(rows: &[Row], node: u8, word: u8) -> bool
    ensures value { result ≡ comes_to rows.now node word }
    ensures above { (result ≡ true) ↔ Above (table_arcs rows.now) node word }
{
    let mut at = word;
    for _ in 0..rows.len() {
        let Some(arc) = arc_into(rows, at) else {
            return false;
        };
        if arc.head == node {
            return true;
        }
        at = arc.head;
    }
    false
}

/// Whether the head of the arc stands above each word between its ends.
fn is_covered(rows: &[Row], arc: Arc) -> bool
    ensures { (result ≡ true) ↔ Covered (table_arcs rows.now) arc }
{
    let low = arc.head.min(arc.word);
    let high = arc.head.max(arc.word);
    // From `low` itself: one more might not fit its type.
    for word in low..high {
        if word != low && !stands_above(rows, arc.head, word) {
            return false;
        }
    }
    true
}

/// Whether the table is projective: `TooManyWords` over 100 rows, then `BadRow`, else the answer, for tables with circles too.
pub fn is_projective(rows: &[Row]) -> Result<bool, Refusal>
    ensures { ToldProjective rows.now result }
{
    let words = WordCount::new(rows.len())?;
    if first_bad_row(words, rows).is_some() {
        return Err(Refusal::BadRow);
    }
    // From 0: of a loop over `1..=n` the last turn left a goal open, where its two branches join.
    for word in 0..words.get() {
        if let Some(arc) = arc_into(rows, word + 1) {
            if !is_covered(rows, arc) {
                return Ok(false);
            }
        }
    }
    Ok(true)
}
