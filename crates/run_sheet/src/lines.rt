//! A line of a run sheet, read and written, and the move or the heading that it says.

ghost use Rattle.std.specs.Prelude.{◌≡◌, ◌/◌, ◌%◌, ◌<◌, Some, Ok};
ghost use Rattle.run_sheet.specs.Digits.{value, digit, pair, Valued};
ghost use Rattle.run_sheet.specs.Texts.{written, said, Stands, Wrote};
ghost use Rattle.run_sheet.specs.Says.{move_said, LineOf, MoveOf};
ghost use Rattle.run_sheet.specs.Headings.{headed, words_said, heading_said, counted, SaysWords};

use treebank::{Move, Refusal, WordCount};

/// What a line of a run sheet says: two numbers, each written with two hexadecimal digits.
#[derive(Clone, Copy, Debug, PartialEq, Eq)]
pub struct SheetLine {
    pub first: u8,
    pub second: u8,
}

/// The value of a hexadecimal digit, 0 to 9 or capital A to F; none for another character.
pub fn hex_value(c: char) -> Option<u8>
    ensures is { result ≡ value c }
    ensures inverse { Valued c result }
{
    match c {
        '0'..='9' => Some((c as u32 - '0' as u32) as u8),
        'A'..='F' => Some((c as u32 - 'A' as u32) as u8 + 10),
        _ => None,
    }
}

/// The digit of a value below 16.
fn hex_digit(d: u8) -> u8
    requires { d < 16 }
    ensures { result ≡ digit d }
{
    if d < 10 { d + b'0' } else { d - 10 + b'A' }
}

/// The number that two digits write, the high one first.
fn hex_pair(high: u8, low: u8) -> Option<u8>
    ensures { result ≡ pair high low }
{
    let high = hex_value(high as char)?;
    let low = hex_value(low as char)?;
    Some(high * 16 + low)
}

/// The two digits that write a number, the high one first.
fn hex_digits(n: u8) -> (u8, u8)
    ensures are { (result.0 ≡ digit (n / 16)) × (result.1 ≡ digit (n % 16)) }
    ensures back { pair result.0 result.1 ≡ Some n }
{
    (hex_digit(n / 16), hex_digit(n % 16))
}

impl SheetLine {
    /// How many bytes a line has, with its LF.
    pub const BYTES: usize = 5;

    /// The line at the beginning of the text, or none where no sheet line stands there.
    #[tactic(auto, using(crate::proofs::Inverse::stands_if))]
    pub fn read(text: &[u8]) -> Option<SheetLine>
        ensures is { result ≡ said text.now }
        ensures stands { Stands text.now result }
    {
        let [a, b, c, d, b'\n', ..] = text else {
            return None;
        };
        let first = hex_pair(*a, *b)?;
        let second = hex_pair(*c, *d)?;
        Some(SheetLine { first, second })
    }

    /// The line's four digits and LF.
    pub fn text(self) -> [u8; 5]
        ensures is { result ≡ written self }
        ensures back { said result ≡ Some self }
    {
        let (a, b) = hex_digits(self.first);
        let (c, d) = hex_digits(self.second);
        [a, b, c, d, b'\n']
    }

    /// Writes the line at the beginning of the lent bytes and answers 5. Fewer than five bytes give `BufferTooSmall`
    /// and stay as they were; later bytes stay.
    pub fn write(self, out: &mut [u8]) -> Result<usize, Refusal>
        ensures { Wrote self out.old result out.new }
    {
        if out.len() < SheetLine::BYTES {
            return Err(Refusal::BufferTooSmall);
        }
        out[..SheetLine::BYTES].copy_from_slice(&self.text());
        Ok(SheetLine::BYTES)
    }

    /// The first line of a sheet: the system's number and the word count.
    pub fn heading(system: u8, words: WordCount) -> SheetLine
        ensures is { result ≡ headed system words }
        ensures back { words_said system result ≡ Ok words.count }
    {
        SheetLine {
            first: system,
            second: words.get(),
        }
    }

    /// The word count that a first line for this system says: `TooManyWords` for more than 100, then `OtherSentence`
    /// for another system's number.
    pub fn words_for(self, system: u8) -> Result<WordCount, Refusal>
        ensures is { counted result ≡ words_said system self }
        ensures says { SaysWords system self result }
    {
        let words = WordCount::new(self.second as usize)?;
        if self.first != system {
            return Err(Refusal::OtherSentence);
        }
        Ok(words)
    }
}

/// The line of a move: its kind and its label, 0 for a move without an arc.
impl From<Move> for SheetLine {
    ghost from_gives = { LineOf };

    fn from(m: Move) -> SheetLine {
        SheetLine {
            first: m.kind(),
            second: m.label().unwrap_or(0),
        }
    }
}

/// The move that a line says. A kind that is not listed gives `ForeignMove`; then an arc move without a label of 1 to
/// 200, or another move with a label other than 0, gives `BadLabel`.
impl TryFrom<SheetLine> for Move {
    type Error = Refusal;

    ghost try_from_gives = { MoveOf };

    fn try_from(line: SheetLine) -> Result<Move, Refusal> {
        match (line.first, line.second) {
            (0, 0) => Ok(Move::Shift),
            (1, label @ 1..=200) => Ok(Move::LeftArc(label)),
            (2, label @ 1..=200) => Ok(Move::RightArc(label)),
            (3, 0) => Ok(Move::Reduce),
            (4, 0) => Ok(Move::NoArc),
            (0..=4, _) => Err(Refusal::BadLabel),
            _ => Err(Refusal::ForeignMove),
        }
    }
}

/// The move that the line at the beginning of the text says; `NotASheetLine` where none stands there.
pub fn read_move(text: &[u8]) -> Result<Move, Refusal>
    ensures { result ≡ move_said text.now }
{
    let line = SheetLine::read(text).ok_or(Refusal::NotASheetLine)?;
    Move::try_from(line)
}

/// The word count that the first line of a sheet says for this system: `NotASheetLine`, then `TooManyWords`, then
/// `OtherSentence`.
pub fn read_heading(text: &[u8], system: u8) -> Result<WordCount, Refusal>
    ensures { counted result ≡ heading_said system text.now }
{
    let line = SheetLine::read(text).ok_or(Refusal::NotASheetLine)?;
    line.words_for(system)
}
