ghost use Rattle.std.specs.Prelude.{◌≡◌};
ghost use Rattle.treebank.specs.Refusals.{number};

use thiserror::Error;

/// Why a call is refused. Numbers up to 13 speak of the input, from 20 on of the state.
#[derive(Clone, Copy, Debug, PartialEq, Eq, Error)]
pub enum Refusal {
    #[error("more than 100 words")]
    TooManyWords = 1,
    #[error("an arc label outside 1 to 200, or a label on a move without an arc")]
    BadLabel = 2,
    #[error("a move that this system does not have")]
    ForeignMove = 3,
    #[error("not as many rows as words")]
    WrongRowCount = 4,
    #[error("a row that is not good")]
    BadRow = 5,
    #[error("not a sheet line, or no first line")]
    NotASheetLine = 6,
    #[error("the first line is not this system's or this sentence's")]
    OtherSentence = 7,
    #[error("not ten non-empty columns")]
    NotTenColumns = 8,
    #[error("an ID that is not the next number from 1")]
    WrongId = 9,
    #[error("a HEAD that is no node of the sentence, or no head in one column alone")]
    BadHead = 10,
    #[error("a relation that is not listed")]
    UnknownLabel = 11,
    #[error("over 200 names, or an empty name")]
    BadLabelList = 12,
    #[error("too few rows or bytes lent")]
    BufferTooSmall = 13,
    #[error("the sentence is finished")]
    Finished = 20,
    #[error("no node for this move")]
    TooFewNodes = 21,
    #[error("an arc into the root")]
    IntoRoot = 22,
    #[error("the dependent has a head already")]
    HasHead = 23,
    #[error("the node to reduce has no head")]
    HasNoHead = 24,
    #[error("the head stands below its dependent")]
    WouldCircle = 25,
    #[error("the table cannot be reached")]
    Unreachable = 26,
    #[error("no move to undo")]
    NothingToUndo = 27,
    #[error("a checkpoint stands")]
    CheckpointStands = 28,
    #[error("no checkpoint here for this ticket")]
    NoSuchCheckpoint = 29,
    #[error("a second arc from the root")]
    SecondRootArc = 30,
    #[error("a label outside the set")]
    LabelNotInSet = 31,
    #[error("moves stand already")]
    MovesStand = 32,
}

impl Refusal {
    /// The refusal's number.
    pub fn number(self) -> u8
        ensures { result ≡ number self }
    {
        self as u8
    }
}
