ghost use Rattle.std.specs.Prelude.{◌≡◌};

use thiserror::Error;
use treebank::refusals::Refusal;

/// A refused move: why, and the level that refused it; 0 is the system, each layer over it one more, 255 at most.
#[derive(Clone, Copy, Debug, PartialEq, Eq, Error)]
#[error("{} at level {level}: {refusal}", .refusal.number())]
pub struct Fault {
    pub refusal: Refusal,
    pub level: u8,
}

/// A refusal of the system itself.
impl From<Refusal> for Fault {
    ghost from_gives = { λ e f. f ≡ record { refusal = e; level = 0 } };

    fn from(refusal: Refusal) -> Fault {
        Fault { refusal, level: 0 }
    }
}
