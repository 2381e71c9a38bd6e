ghost use Rattle.std.specs.Prelude.{◌+◌, ◌≤◌};
ghost use Rattle.arrayvec.specs.ArrayVec.{array_vec_len};

use arc_store::store::ArcStore;
use arrayvec::ArrayVec;

/// An arc-standard configuration: the stack has its top last, and the buffer goes from `front` to the last word.
#[derive(Drop)]
pub struct ArcStandard {
    stack: ArrayVec<u8, 101>,
    front: u8,
    arcs: ArcStore,
    ghost some: { 1 ≤ array_vec_len stack },
    ghost deep: { array_vec_len stack ≤ front },
    ghost upto: { front ≤ arcs.words.count + 1 },
}

pub mod calls;
pub mod guide;
pub mod moves;
