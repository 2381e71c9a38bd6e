ghost use Rattle.std.specs.Prelude.{◌≡◌};
ghost use Rattle.layers.specs.OneRoots.{from_root, root_taken, one_root};
ghost use Rattle.layers.specs.Roots.{root_lawful};

use crate::rules::Rule;
use transition::system::System;
use treebank::arcs::Arc;
use treebank::refusals::Refusal;

/// At most one arc from the root.
#[derive(Clone, Copy)]
pub struct OneRoot;

/// Whether there is an arc, and it comes from the root.
fn is_from_root(arc: Option<Arc>) -> bool
    ensures { result ≡ from_root arc }
{
    arc.is_some_and(|arc| arc.head == 0)
}

/// Whether an arc from the root stands.
fn is_root_taken<S: System>(system: &S) -> bool
    ensures { result ≡ root_taken (S.System.meaning.arc_into (S.System.conf system.now)) (S.System.meaning.words (S.System.conf system.now)) }
{
    // A loop: from a no of `any` over a range, `search` does not find that no word has such an arc.
    for word in 1..=system.words().get() {
        if is_from_root(system.arc_into(word)) {
            return true;
        }
    }
    false
}

impl Rule for OneRoot {
    ghost ruling = { one_root };

    ghost lawful = { root_lawful };

    fn objection<S: System>(&self, below: &S, arc: Arc) -> Option<Refusal> {
        if arc.head == 0 && is_root_taken(below) {
            return Some(Refusal::SecondRootArc);
        }
        None
    }
}
