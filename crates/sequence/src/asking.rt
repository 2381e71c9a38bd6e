ghost use Rattle.guidance.specs.Guides.{Guides};
ghost use Rattle.requests.specs.declared.kinds.GuidedRequest.{GuidedRequest};
ghost use Rattle.sequence.specs.Attending.{Attends};

use requests::kinds::Reply;
use transition::system::System;
use workbench::workbench::{Ticket, Workbench};

/// What can be asked of a workbench on a system `S`.
///
/// `request` says which request it is. `reliable` is a fact under which each derive that is asked follows reliable advice.
pub trait Ask<S: System>: Copy {
    ghost request: { Self → GuidedRequest };

    ghost reliable: { Type 0 };

    /// Makes the call that is asked for, if one is.
    fn attend(self, workbench: &mut Workbench<S>, pouch: &mut [Option<Ticket>]) -> Reply
        ensures { Attends workbench.old pouch.old (request self) result workbench.new pouch.new };

    ghost guides: { reliable → (s : S) → Guides S.System.meaning (S.System.start s) };
}
