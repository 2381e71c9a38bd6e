use arc_eager::system::ArcEager;
use arc_standard::system::ArcStandard;
use list_based::system::ListBased;
use std::alloc::{AllocError, Global};
use std::fmt::Display;
use transition::system::System;
use treebank::words::WordCount;

/// A system whose configuration an account shows in columns.
pub(crate) trait Told: System {
    /// What the system is called.
    const NAME: &'static str;

    /// The names of the columns, the new arc's last.
    const HEADINGS: &'static [&'static str];

    /// What the columns show now, but for the new arc's.
    fn columns(&self, heap: Global) -> Result<Vec<String>, AllocError>;
}

/// The columns of a system with a stack and a buffer.
const STACK_AND_BUFFER: &'static [&'static str] = &["stack", "buffer", "new arc"];

/// What the columns of a system with a stack and a buffer show.
fn stack_and_buffer(
    heap: Global,
    stack: &[u8],
    front: u8,
    words: WordCount,
) -> Result<Vec<String>, AllocError> {
    let stack = shown(heap, stack)?;
    let buffer = shown_span(heap, front, words.get() + 1)?;
    Ok(vec![in heap; stack, buffer]?)
}

impl Told for ArcStandard {
    const NAME: &'static str = "arc-standard";

    const HEADINGS: &'static [&'static str] = STACK_AND_BUFFER;

    fn columns(&self, heap: Global) -> Result<Vec<String>, AllocError> {
        stack_and_buffer(heap, self.stack(), self.front(), self.words())
    }
}

impl Told for ArcEager {
    const NAME: &'static str = "arc-eager";

    const HEADINGS: &'static [&'static str] = STACK_AND_BUFFER;

    fn columns(&self, heap: Global) -> Result<Vec<String>, AllocError> {
        stack_and_buffer(heap, self.stack(), self.front(), self.words())
    }
}

impl Told for ListBased {
    const NAME: &'static str = "list-based";

    const HEADINGS: &'static [&'static str] = &["first list", "second list", "buffer", "new arc"];

    fn columns(&self, heap: Global) -> Result<Vec<String>, AllocError> {
        let first = shown_span(heap, 0, self.first_list_len())?;
        let second = shown_span(heap, self.first_list_len(), self.front())?;
        let buffer = shown_span(heap, self.front(), self.words().get() + 1)?;
        Ok(vec![in heap; first, second, buffer]?)
    }
}

/// Cells side by side, each but the last filled up to the width of a column.
pub(crate) fn side_by_side<T: Display>(heap: Global, cells: &[T]) -> Result<String, AllocError> {
    let mut text = String::new(heap);
    for (i, cell) in cells.iter().enumerate() {
        if i + 1 < cells.len() {
            write!(text, "{cell:<24}  ")?;
        } else {
            write!(text, "{cell}")?;
        }
    }
    Ok(text)
}

/// The nodes from the first to the one before `behind`, as `shown` shows them.
fn shown_span(heap: Global, first: u8, behind: u8) -> Result<String, AllocError> {
    let nodes: Vec<u8> = (first..behind).collect(heap)?;
    shown(heap, nodes.as_slice())
}

/// The nodes in a row, with `-` for none; of more than eight only the first four and the last four.
fn shown(heap: Global, nodes: &[u8]) -> Result<String, AllocError> {
    if nodes.is_empty() {
        return String::from_str(heap, "-");
    }
    if nodes.len() <= 8 {
        return in_a_row(heap, nodes);
    }
    let front = in_a_row(heap, &nodes[..4])?;
    let back = in_a_row(heap, &nodes[nodes.len() - 4..])?;
    format!(in heap; "{front} .. {back}")
}

/// The nodes with a blank between each two.
fn in_a_row(heap: Global, nodes: &[u8]) -> Result<String, AllocError> {
    let mut text = String::new(heap);
    for (i, node) in nodes.iter().enumerate() {
        if i > 0 {
            text.push_str(" ")?;
        }
        write!(text, "{node}")?;
    }
    Ok(text)
}
