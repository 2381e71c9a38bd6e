ghost use Rattle.std.specs.Prelude.{◌≡◌};
ghost use Rattle.history.specs.Packing.{packed, unpacked};

use treebank::moves::Move;

/// The move as a number: its kind times 256 and its label, 0 for a move without one.
pub(crate) fn pack(m: Move) -> u16
    ensures value { result ≡ packed m }
    ensures back { unpacked result ≡ m }
{
    m.kind() as u16 * 256 + m.label().unwrap_or(0) as u16
}

/// The move that a number stands for.
pub(crate) fn unpack(entry: u16) -> Move
    ensures { result ≡ unpacked entry }
{
    let label = (entry % 256) as u8;
    // Numbers for kinds: the rules have each move packed as kind and label.
    match entry / 256 {
        0 => Move::Shift,
        1 => Move::LeftArc(label),
        2 => Move::RightArc(label),
        3 => Move::Reduce,
        _ => Move::NoArc,
    }
}
