ghost use Rattle.std.specs.Prelude.{◌≡◌, true, ◌↔◌};
ghost use Rattle.layers.specs.LabelSets.{Marked, is_marked, label_set};
ghost use Rattle.layers.specs.Marks.{marks_lawful};

use crate::rules::Rule;
use transition::system::System;
use treebank::arcs::Arc;
use treebank::refusals::Refusal;

/// The labels that may be drawn: for each label from 1 to 200 a yes or a no.
#[derive(Clone, Copy)]
pub struct LabelSet {
    // An entry for each label, as the set is handed over; there is none beside them that would count them.
    marks: [bool; 200],
}

impl LabelSet {
    /// The set of the labels whose entry is yes; the first entry is that of label 1.
    pub fn new(marks: [bool; 200]) -> LabelSet
        ensures { result.marks ≡ marks }
    {
        LabelSet { marks }
    }

    /// Whether the label is one of 1 to 200 and its entry is yes.
    pub fn contains(&self, label: u8) -> bool
        ensures value { result ≡ is_marked self.now.marks label }
        ensures marked { (result ≡ true) ↔ Marked self.now.marks label }
    {
        (1..=200).contains(&label) && self.marks[label as usize - 1]
    }
}

impl Rule for LabelSet {
    ghost ruling = { label_set };

    ghost lawful = { marks_lawful };

    fn objection<S: System>(&self, _below: &S, arc: Arc) -> Option<Refusal> {
        if self.contains(arc.label) {
            return None;
        }
        Some(Refusal::LabelNotInSet)
    }
}
