use crate::columns::{Told, side_by_side};
use arc_eager::system::ArcEager;
use arc_standard::system::ArcStandard;
use list_based::system::ListBased;
use run_sheet::lines::SheetLine;
use sheets::replaying::replay;
use sheets::sealed::Sealed;
use sheets::sealed::calls::seal;
use sheets_theory::faults::SheetFault;
use std::alloc::{AllocError, Global};
use transition::making::make_move;
use transition::system::System;
use treebank::arcs::Arc;
use treebank::moves::Move;
use treebank::refusals::Refusal;
use treebank::rows::Row;
use treebank::words::WordCount;
use workbench::workbench::Workbench;

/// The systems that a run sheet may be played on.
enum Known {
    ArcStandard,
    ArcEager,
    ListBased,
}

/// A system by its number on a sheet's first line.
impl TryFrom<u8> for Known {
    type Error = Refusal;

    fn try_from(number: u8) -> Result<Known, Refusal> {
        match number {
            1 => Ok(Known::ArcStandard),
            2 => Ok(Known::ArcEager),
            3 => Ok(Known::ListBased),
            _ => Err(Refusal::OtherSentence),
        }
    }
}

/// The account of a run sheet, on the system that its first line names: every step with its move, the configuration
/// and the new arc, then the head table, whether the sentence is finished, and the number of moves. It ends at the first
/// line that is refused.
pub(crate) fn account(heap: Global, sheet: &[u8]) -> Result<String, AllocError> {
    match first_line(sheet) {
        Ok((Known::ArcStandard, words)) => tell(
            heap,
            ArcStandard::new(words),
            ArcStandard::new(words),
            sheet,
        ),
        Ok((Known::ArcEager, words)) => {
            tell(heap, ArcEager::new(words), ArcEager::new(words), sheet)
        }
        Ok((Known::ListBased, words)) => {
            tell(heap, ListBased::new(words), ListBased::new(words), sheet)
        }
        Err(why) => refusal(heap, 1, why),
    }
}

/// The system and the word count that the first line names.
fn first_line(sheet: &[u8]) -> Result<(Known, WordCount), Refusal> {
    let line = SheetLine::read(sheet).ok_or(Refusal::NotASheetLine)?;
    let words = line.words_for(line.first)?;
    let system = Known::try_from(line.first)?;
    Ok((system, words))
}

/// Replays the sheet on a workbench over the one system, and shows each step on the other.
fn tell<S: Told + Drop>(
    heap: Global,
    system: S,
    mut shown: S,
    sheet: &[u8],
) -> Result<String, AllocError> {
    let mut out = opening(heap, &shown)?;
    let (sealed, refused) = play(system, shown.words(), sheet);
    for (place, m) in sealed.moves().enumerate() {
        if let Ok(arc) = make_move(&mut shown, m) {
            out.push_str(step(heap, place + 1, m, arc, &shown)?.as_str())?;
        }
    }
    if let Some(SheetFault { line, fault }) = refused {
        out.push_str(refusal(heap, line, fault.refusal)?.as_str())?;
    }
    out.push_str(head_table(heap, &sealed)?.as_str())?;
    out.push_str(closing(heap, sealed.finished(), sealed.move_count())?.as_str())?;
    Ok(out)
}

/// The sentence sealed after the lines that are accepted, and why the next line was refused.
fn play<S: System>(system: S, words: WordCount, sheet: &[u8]) -> (Sealed<S>, Option<SheetFault>) {
    let mut workbench = Workbench::new(system);
    let _ = workbench.load(words.get() as usize, 0);
    let refused = replay(&mut workbench, sheet).err();
    if let Some(SheetFault { line, .. }) = refused {
        let accepted = line
            .saturating_sub(1)
            .saturating_mul(SheetLine::BYTES)
            .min(sheet.len());
        let _ = replay(&mut workbench, &sheet[..accepted]);
    }
    (seal(workbench), refused)
}

/// The system, the word count, the names of the columns and the configuration at the beginning.
fn opening<S: Told>(heap: Global, system: &S) -> Result<String, AllocError> {
    let name = S::NAME;
    let words = system.words().get();
    let headings = side_by_side(heap, S::HEADINGS)?;
    let columns = side_by_side(heap, system.columns(heap)?.as_slice())?;
    format!(in heap;
        "{name}, words: {words}\n\nstep  {:<13}  {headings}\n   0  {:<13}  {columns}\n",
        "move", "begin"
    )
}

/// One line of the account: the move, what it left, and the arc that it drew.
fn step<S: Told>(
    heap: Global,
    number: usize,
    m: Move,
    arc: Option<Arc>,
    system: &S,
) -> Result<String, AllocError> {
    let name = m.to_string(heap)?;
    let mut cells = system.columns(heap)?;
    if let Some(arc) = arc {
        cells.push(arc.to_string(heap)?)?;
    }
    let columns = side_by_side(heap, cells.as_slice())?;
    format!(in heap; "{number:>4}  {name:<13}  {columns}\n")
}

fn refusal(heap: Global, line: usize, why: Refusal) -> Result<String, AllocError> {
    let number = why.number();
    format!(in heap; "refused {number} at {line}: {why}\n")
}

/// The head and the label of each word, with `-` for no head.
fn head_table<S: System>(heap: Global, sealed: &Sealed<S>) -> Result<String, AllocError> {
    let words = sealed.words().get();
    let mut rows = vec![in heap; Row::from(None); words as usize]?;
    let _ = sealed.write_rows(&mut rows);
    let mut out = format!(in heap; "\n{:>4}  {:>4}  {:>5}\n", "word", "head", "label")?;
    for (word, row) in (1..=words).zip(rows.iter()) {
        match row.arc(word) {
            Some(Arc { head, label, .. }) => {
                write!(out, "{word:>4}  {head:>4}  {label:>5}\n")?;
            }
            None => write!(out, "{word:>4}  {:>4}  {:>5}\n", "-", "-")?,
        }
    }
    Ok(out)
}

fn closing(heap: Global, finished: bool, made: usize) -> Result<String, AllocError> {
    let ended = if finished { "finished" } else { "not finished" };
    format!(in heap; "\n{ended}, moves: {made}\n")
}

#[cfg(test)]
mod tests {
    use super::*;
    use std::process::Abort;
    use std::test::Fail;

    // The first line that is refused is named with its number, on each of the three systems.
    #[test]
    fn refused_lines(rt: HostRuntime) -> Result<(), Fail> {
        let cases = [
            ("", "refused 6 at 1: not a sheet line, or no first line\n"),
            ("0103", "refused 6 at 1: "),
            ("0165\n", "refused 1 at 1: "),
            ("0403\n", "refused 7 at 1: "),
            ("0101\n0500\n", "refused 3 at 2: "),
            ("0101\n0001\n", "refused 2 at 2: "),
            ("0100\n0000\n", "refused 20 at 2: "),
            ("0101\n0101\n", "refused 21 at 2: "),
            ("0101\n0000\n0101\n0201\n", "refused 22 at 3: "),
            ("0101\n0000\n000g\n", "refused 6 at 3: "),
            ("0202\n0000\n0300\n", "refused 24 at 3: "),
            ("0202\n0201\n0101\n", "refused 23 at 3: "),
            (
                "0303\n0000\n0201\n0000\n0201\n0400\n0201\n",
                "refused 23 at 7: ",
            ),
        ];
        for (sheet, part) in cases {
            tells(&rt, rt.alloc(), sheet, part)?;
        }
        Ok(())
    }

    // An account ends with what the accepted moves left.
    #[test]
    fn endings(rt: HostRuntime) -> Result<(), Fail> {
        let cases = [
            ("0102\n0000\n", "\nnot finished, moves: 1\n"),
            ("0100\n", "\nfinished, moves: 0\n"),
            ("0101\n0000\n0101\n0201\n", "\nnot finished, moves: 1\n"),
            (
                "0203\n0000\n0102\n0201\n0203\n",
                "\n   3     2      3\n\nfinished, moves: 4\n",
            ),
            (
                "0303\n0000\n0102\n0201\n0000\n0203\n0000\n",
                "\n   3     2      3\n\nfinished, moves: 6\n",
            ),
        ];
        for (sheet, part) in cases {
            tells(&rt, rt.alloc(), sheet, part)?;
        }
        Ok(())
    }

    fn tells(rt: &impl Abort, heap: Global, sheet: &str, part: &str) -> Result<(), Fail> {
        assert!(rt; account(heap, sheet.as_bytes())?.as_str().contains(part));
        Ok(())
    }
}
