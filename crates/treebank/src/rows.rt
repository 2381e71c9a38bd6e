/// The row of one word: its head and the arc's label, or head 255 and label 0 for no head.
// Two numbers and no `Option`: rows come from outside, and some of them are no good rows, as head 255 with a label.
#[derive(Clone, Copy, Debug, PartialEq, Eq)]
pub struct Row {
    pub head: u8,
    pub label: u8,
}
