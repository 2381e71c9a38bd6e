ghost use Rattle.std.specs.Prelude.{◌+◌, ◌*◌, ◌≤◌};

use arc_store::store::ArcStore;

/// A list-based configuration: the first list is the nodes below `left`, the second list those from there to `front`, and
/// the buffer goes from `front` to the last word; `made` counts the moves.
#[derive(Drop)]
pub struct ListBased {
    front: u8,
    left: u8,
    made: u16,
    arcs: ArcStore,
    ghost upto: { front ≤ arcs.words.count + 1 },
    ghost lists: { left ≤ front },
    ghost count: { made + left ≤ 102 * front },
}

pub mod calls;
pub mod guide;
pub mod moves;
