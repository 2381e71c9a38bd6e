use std::fmt;
use transition::faults::Fault;
use treebank::moves::Move;
use treebank::rows::Row;
use workbench_model::answers::Answer;

/// What is asked of a workbench. Tickets lie in a pouch, and a request names one by its place there.
#[derive(Clone, Copy, Debug, PartialEq, Eq)]
pub enum Request {
    Load { words: usize, epoch: u32 },
    Step(Move),
    Undo,
    /// The ticket goes to this place, which must be empty.
    Checkpoint { place: usize },
    Commit { place: usize },
    Rollback { place: usize },
}

/// What is asked of a workbench on a guided system.
#[derive(Clone, Copy, Debug, PartialEq, Eq)]
pub enum GuidedRequest<'a> {
    Plain(Request),
    Derive(&'a [Row]),
}

/// What is said to a request: what the call came to, or that the request names no ticket, or no room for one, and is no
/// call.
// An enum of its own: the two cases without a call are no failure of one.
#[derive(Clone, Copy, Debug, PartialEq, Eq)]
pub enum Reply {
    Answered(Result<Answer, Fault>),
    NoTicket,
    NoRoom,
}

impl fmt::Display for Request {
    fn fmt<W: fmt::Write>(&self, f: &mut fmt::Formatter<W>) -> fmt::Result {
        match self {
            Request::Load { words, epoch } => write!(f, "load {words} words, epoch {epoch}"),
            Request::Step(m) => write!(f, "{m}"),
            Request::Undo => f.write_str("undo"),
            Request::Checkpoint { place } => write!(f, "checkpoint, ticket to place {place}"),
            Request::Commit { place } => write!(f, "commit, ticket at place {place}"),
            Request::Rollback { place } => write!(f, "rollback, ticket at place {place}"),
        }
    }
}

impl fmt::Display for GuidedRequest<'_> {
    fn fmt<W: fmt::Write>(&self, f: &mut fmt::Formatter<W>) -> fmt::Result {
        match self {
            GuidedRequest::Plain(request) => write!(f, "{request}"),
            GuidedRequest::Derive(table) => {
                f.write_str("derive heads")?;
                for row in table.iter() {
                    if row.head == Row::NO_HEAD {
                        f.write_str(" none")?;
                    } else {
                        write!(f, " {}", row.head)?;
                    }
                }
                Ok(())
            }
        }
    }
}

impl fmt::Display for Reply {
    fn fmt<W: fmt::Write>(&self, f: &mut fmt::Formatter<W>) -> fmt::Result {
        match self {
            Reply::Answered(Ok(answer)) => write!(f, "{answer}"),
            Reply::Answered(Err(fault)) => write!(f, "refused {fault}"),
            Reply::NoTicket => f.write_str("no ticket there"),
            Reply::NoRoom => f.write_str("no room for a ticket there"),
        }
    }
}
