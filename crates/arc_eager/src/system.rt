ghost use Rattle.std.specs.Prelude.{◌+◌, ◌≤◌};
ghost use Rattle.arrayvec.specs.ArrayVec.{array_vec_len};

use arc_store::store::ArcStore;
use arrayvec::ArrayVec;

/// An arc-eager configuration: the stack has its top last, and the buffer is the words behind the first `done`.
#[derive(Drop)]
pub struct ArcEager {
    stack: ArrayVec<u8, 101>,
    done: u8,
    arcs: ArcStore,
    ghost deep: { array_vec_len stack ≤ done + 1 },
    ghost upto: { done ≤ arcs.words.count },
}

pub mod calls;
pub mod guide;
pub mod moves;
