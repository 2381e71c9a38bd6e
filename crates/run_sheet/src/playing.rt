ghost use Rattle.std.specs.Prelude.{◌≡◌};
ghost use Rattle.run_sheet.specs.Played.{Played};

use crate::lines::read_move;
use transition::faults::Fault;
use transition::making::make_move;
use transition::system::System;
use treebank::arcs::Arc;
use treebank::moves::Move;

/// Plays the line at the beginning of the text: reads the move that it says and makes it. A line that says no move, or
/// one that is refused, changes nothing.
pub fn play_line<S: System>(system: &mut S, text: &[u8]) -> Result<(Move, Option<Arc>), Fault>
    ensures played { Played S.System.meaning S.System.conf system.old text.now result system.new }
    ensures alike { S.System.start system.new ≡ S.System.start system.old }
{
    let m = read_move(text)?;
    let arc = make_move(system, m)?;
    Ok((m, arc))
}
