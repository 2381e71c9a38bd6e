ghost use Rattle.std.specs.Prelude.{◌≡◌};
ghost use Rattle.run_sheet.specs.Texts.{said};
ghost use Rattle.run_sheet.specs.Says.{move_said};
ghost use Rattle.workbench.specs.Workbenches.{model_of, state};
ghost use Rattle.sheets_theory.specs.Replays.{located, faulted, is_new, is_headed};
ghost use Rattle.sheets_theory.specs.Lines.{LinesTold};
ghost use Rattle.sheets_theory.specs.Replayed.{ReplayTold};
ghost use Rattle.sheets.specs.Loading.{Reloaded};

use run_sheet::lines::{SheetLine, read_move};
use sheets_theory::faults::SheetFault;
use transition::faults::Fault;
use transition::system::System;
use treebank::moves::Move;
use treebank::refusals::Refusal;
use workbench::workbench::Workbench;

/// The fault, if any, with the line where it was found.
fn at_line<T>(line: usize, outcome: Result<T, Fault>) -> Result<T, (usize, Fault)>
    ensures { result ≡ located line outcome }
{
    outcome.map_err(|fault| (line, fault))
}

/// The move that the line at the beginning of the text says.
fn said_move(text: &[u8]) -> Result<Move, Fault>
    ensures { result ≡ faulted (move_said text.now) }
{
    Ok(read_move(text)?)
}

/// Refuses a workbench with a checkpoint, then one with moves.
fn expect_new<S: System>(workbench: &Workbench<S>) -> Result<(), Fault>
    ensures { result ≡ is_new (model_of workbench.now) }
{
    if workbench.has_checkpoint() {
        return Err(Fault::from(Refusal::CheckpointStands));
    }
    if workbench.move_count() > 0 {
        return Err(Fault::from(Refusal::MovesStand));
    }
    Ok(())
}

/// Refuses a sheet whose first line is no sheet line, then one of another system or word count.
fn expect_heading<S: System>(workbench: &Workbench<S>, sheet: &[u8]) -> Result<(), Fault>
    ensures { result ≡ is_headed S.System.meaning.number (model_of workbench.now).words (said sheet.now) }
{
    let line = SheetLine::read(sheet).ok_or(Refusal::NotASheetLine)?;
    if line != SheetLine::heading(workbench.number(), workbench.words()) {
        return Err(Fault::from(Refusal::OtherSentence));
    }
    Ok(())
}

/// Makes the moves of the lines behind the first, and answers how many stand.
fn replay_lines<S: System>(workbench: &mut Workbench<S>, sheet: &[u8]) -> Result<usize, SheetFault>
    ensures { LinesTold (state workbench.old) sheet.now result (state workbench.new) }
{
    for (i, text) in sheet.chunks(SheetLine::BYTES).enumerate().skip(1) {
        let m = at_line(i + 1, said_move(text))?;
        at_line(i + 1, workbench.step(m))?;
    }
    Ok(workbench.move_count())
}

/// Loads the sentence again, with the same words under the same epoch.
fn reload<S: System>(workbench: &mut Workbench<S>)
    ensures { Reloaded workbench.old workbench.new }
{
    let words = workbench.words().get() as usize;
    let epoch = workbench.epoch();
    let _ = workbench.load(words, epoch);
}

/// Makes the moves that a sheet says, line by line, and answers how many.
///
/// A refusal names the line and what was found there. Line 0: `CheckpointStands`, then `MovesStand`. Line 1:
/// `NotASheetLine`, for an empty sheet too, then `OtherSentence` for another system's number or word count. Each further
/// line: `NotASheetLine`, then what reading its move and the step refuse. After a refusal the workbench is as before.
///
/// An accepted sheet says exactly the moves that it adds: writing them gives the same bytes.
pub fn replay<S: System>(workbench: &mut Workbench<S>, sheet: &[u8]) -> Result<usize, SheetFault>
    ensures { ReplayTold (state workbench.old) sheet.now result (state workbench.new) }
{
    at_line(0, expect_new(workbench))?;
    at_line(1, expect_heading(workbench, sheet))?;
    let outcome = replay_lines(workbench, sheet);
    if outcome.is_err() {
        reload(workbench);
    }
    outcome
}
