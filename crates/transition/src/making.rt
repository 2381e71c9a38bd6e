ghost use Rattle.std.specs.Prelude.{◌≡◌};
ghost use Rattle.transition.specs.Theory.{Theory};
ghost use Rattle.transition.specs.Making.{Made};

use crate::faults::Fault;
use crate::system::System;
use treebank::arcs::Arc;
use treebank::moves::Move;
use treebank::refusals::Refusal;

/// Makes a move: `BadLabel` for an arc move whose label is not 1 to 200, else what the system says.
///
/// With it stands what follows from the laws for every run of such moves: the arcs are a dependency forest, moves made
/// and remaining stay under the ceiling, and the same moves lead to the same configuration.
pub fn make_move<S: System>(system: &mut S, m: Move) -> Result<Option<Arc>, Fault>
    ensures made { Made S.System.meaning S.System.conf system.old m result system.new }
    ensures alike { S.System.start system.new ≡ S.System.start system.old }
    ensures theory { Theory S.System.meaning (S.System.start system.old) }
{
    if !m.is_proper() {
        return Err(Fault::from(Refusal::BadLabel));
    }
    system.step(m)
}
