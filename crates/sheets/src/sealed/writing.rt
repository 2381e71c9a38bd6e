ghost use Rattle.std.specs.Prelude.{◌≡◌, ◌+◌, ◌≤◌, ◌++◌, length, take, drop};
ghost use Rattle.run_sheet.specs.Texts.{written};
ghost use Rattle.workbench.specs.Workbenches.{model_of, state};
ghost use Rattle.sheets_theory.specs.Sheets.{sheet_bytes, sheet_text, WroteSheet};
ghost use Rattle.sheets_theory.specs.RoundTrips.{WroteBack};

use super::Sealed;
use run_sheet::lines::SheetLine;
use transition::faults::Fault;
use transition::system::System;
use treebank::refusals::Refusal;

/// Writes a line over the five bytes at a place.
fn put_line(out: &mut [u8], place: usize, line: SheetLine)
    requires { place + 5 ≤ length out.old }
    ensures { out.new ≡ take place out.old ++ (written line ++ drop (place + 5) out.old) }
{
    out[place..place + SheetLine::BYTES].copy_from_slice(&line.text());
}

impl<S: System> Sealed<S> {
    /// Writes the heading and a line for each move, with room for all.
    fn write_lines(&self, out: &mut [u8])
        requires { sheet_bytes (length (model_of self.now.workbench).moves) ≤ length out.old }
        ensures { out.new ≡ sheet_text S.System.meaning.number (model_of self.now.workbench).words (model_of self.now.workbench).moves
            ++ drop (sheet_bytes (length (model_of self.now.workbench).moves)) out.old }
    {
        put_line(
            out,
            0,
            SheetLine::heading(self.workbench.number(), self.workbench.words()),
        );
        for (i, m) in self.workbench.moves().enumerate() {
            put_line(out, SheetLine::BYTES * (i + 1), SheetLine::from(m));
        }
    }

    /// Writes the run sheet into the lent bytes and answers how many bytes it has: five a line, one line more than there
    /// are moves; later bytes stay. `BufferTooSmall`, with nothing written, where fewer bytes are lent.
    ///
    /// What was written reads back: replayed on any workbench that starts alike and is newly loaded with as many words,
    /// it is accepted and gives the same moves and the same rows.
    pub fn write_sheet(&self, out: &mut [u8]) -> Result<usize, Fault>
        ensures wrote { WroteSheet S.System.meaning.number (model_of self.now.workbench) out.old result out.new }
        ensures back { WroteBack (state self.now.workbench) result out.new }
    {
        let moves = self.workbench.move_count();
        if out.len() / SheetLine::BYTES <= moves {
            return Err(Fault::from(Refusal::BufferTooSmall));
        }
        self.write_lines(out);
        Ok(SheetLine::BYTES * (moves + 1))
    }
}
