use crate::asking::Ask;
use guidance::guided::Guided;
use requests::kinds::{GuidedRequest, Reply};
use workbench::workbench::{Ticket, Workbench};
use workbench_model::answers::Answer;

/// A guided system is asked for derives too.
impl<S: Guided> Ask<S> for GuidedRequest<'_> {
    ghost request = { λ r. r };

    ghost reliable = { S.Guided.reliable };

    fn attend(self, workbench: &mut Workbench<S>, pouch: &mut [Option<Ticket>]) -> Reply {
        match self {
            GuidedRequest::Plain(request) => request.attend(workbench, pouch),
            GuidedRequest::Derive(table) => {
                Reply::Answered(workbench.derive(table).map(Answer::Made))
            }
        }
    }

    ghost guides = { S.Guided.guides };
}
