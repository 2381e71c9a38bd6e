use requests::kinds::{GuidedRequest, Reply, Request};
use treebank::moves::Move;
use treebank::rows::Row;

/// What a pupil asks in turn, and what is said to each request.
#[derive(Clone, Copy)]
pub(crate) struct Turn {
    pub pupil: &'static str,
    pub requests: &'static [GuidedRequest<'static>],
    pub replies: [Reply; 8],
}

/// Before a turn: nothing is said yet.
const NO_REPLIES: [Reply; 8] = [Reply::NoTicket; 8];

/// "Bells ring loudly": heads 2, 0, 2.
const BELLS: [Row; 3] = [
    Row { head: 2, label: 2 },
    Row { head: 0, label: 1 },
    Row { head: 2, label: 3 },
];

/// Two words that hang on the root.
const TWO_ROOTS: [Row; 2] = [Row { head: 0, label: 1 }, Row { head: 0, label: 1 }];

/// Ann sets a checkpoint after her first move and hands over the table.
pub(crate) const ANN: Turn = Turn {
    pupil: "Ann",
    requests: &[
        GuidedRequest::Plain(Request::Load { words: 3, epoch: 1 }),
        GuidedRequest::Plain(Request::Step(Move::Shift)),
        GuidedRequest::Plain(Request::Step(Move::LeftArc(2))),
        GuidedRequest::Plain(Request::Checkpoint { place: 0 }),
        GuidedRequest::Plain(Request::Step(Move::Shift)),
        GuidedRequest::Plain(Request::Step(Move::LeftArc(4))),
        GuidedRequest::Derive(&BELLS),
        GuidedRequest::Plain(Request::Step(Move::Shift)),
    ],
    replies: NO_REPLIES,
};

/// Ben sets a checkpoint too, and tries to spend Ann's ticket.
pub(crate) const BEN: Turn = Turn {
    pupil: "Ben",
    requests: &[
        GuidedRequest::Plain(Request::Load {
            words: 101,
            epoch: 2,
        }),
        GuidedRequest::Plain(Request::Load { words: 2, epoch: 2 }),
        GuidedRequest::Plain(Request::Checkpoint { place: 0 }),
        GuidedRequest::Plain(Request::Checkpoint { place: 1 }),
        GuidedRequest::Plain(Request::Commit { place: 0 }),
        GuidedRequest::Derive(&TWO_ROOTS),
        GuidedRequest::Plain(Request::Step(Move::Shift)),
        GuidedRequest::Plain(Request::Step(Move::RightArc(1))),
    ],
    replies: NO_REPLIES,
};

/// Ann goes back to her checkpoint, and from the start to the table.
pub(crate) const ANN_AGAIN: Turn = Turn {
    pupil: "Ann again",
    requests: &[
        GuidedRequest::Plain(Request::Undo),
        GuidedRequest::Plain(Request::Load { words: 5, epoch: 3 }),
        GuidedRequest::Plain(Request::Rollback { place: 0 }),
        GuidedRequest::Plain(Request::Rollback { place: 0 }),
        GuidedRequest::Plain(Request::Undo),
        GuidedRequest::Plain(Request::Undo),
        GuidedRequest::Derive(&BELLS),
        GuidedRequest::Derive(&BELLS),
    ],
    replies: NO_REPLIES,
};

/// Ben stands by what he drew.
pub(crate) const BEN_AGAIN: Turn = Turn {
    pupil: "Ben again",
    requests: &[
        GuidedRequest::Plain(Request::Step(Move::Reduce)),
        GuidedRequest::Plain(Request::Step(Move::Shift)),
        GuidedRequest::Plain(Request::Step(Move::RightArc(1))),
        GuidedRequest::Plain(Request::Step(Move::RightArc(201))),
        GuidedRequest::Plain(Request::Undo),
        GuidedRequest::Plain(Request::Commit { place: 1 }),
        GuidedRequest::Plain(Request::Commit { place: 1 }),
        GuidedRequest::Plain(Request::Undo),
    ],
    replies: NO_REPLIES,
};
