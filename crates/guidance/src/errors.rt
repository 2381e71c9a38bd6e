ghost use Rattle.std.specs.Prelude.{◌≡◌};
ghost use Rattle.guidance.specs.declared.errors.BuildError.TheVariants.{Refused as refused, NoMemory as no_memory};

use std::alloc::AllocFailed;
use thiserror::Error;
use treebank::refusals::Refusal;

/// Why a table was not built.
#[derive(Clone, Copy, Debug, PartialEq, Eq, Error)]
pub enum BuildError {
    #[error("{0}")]
    Refused(Refusal),
    #[error("out of memory")]
    NoMemory,
}

impl From<Refusal> for BuildError {
    ghost from_gives = { λ why e. e ≡ refused why };

    fn from(why: Refusal) -> BuildError {
        BuildError::Refused(why)
    }
}

impl<T: Drop> From<AllocFailed<T>> for BuildError {
    ghost from_gives = { λ _ e. e ≡ no_memory };

    fn from(_: AllocFailed<T>) -> BuildError {
        BuildError::NoMemory
    }
}
