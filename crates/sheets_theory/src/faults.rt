ghost use Rattle.std.specs.Prelude.{◌≡◌};

use thiserror::Error;
use transition::faults::Fault;

/// Why a sheet is refused: its line, counted from 1, or 0 for the workbench itself; and the fault found there.
#[derive(Clone, Copy, Debug, PartialEq, Eq, Error)]
#[error("line {line}: {fault}")]
pub struct SheetFault {
    pub line: usize,
    pub fault: Fault,
}

/// A fault with the line where it was found.
impl From<(usize, Fault)> for SheetFault {
    ghost from_gives = { λ at f. f ≡ record { line = at.0; fault = at.1 } };

    fn from(at: (usize, Fault)) -> SheetFault {
        let (line, fault) = at;
        SheetFault { line, fault }
    }
}
