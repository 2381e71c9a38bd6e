ghost use Rattle.std.specs.Prelude.{◌≡◌};
ghost use Rattle.layers_theory.specs.Rules.{Ruling, RuleLaws};
ghost use Rattle.layers_theory.specs.Layers.{against};

use transition::system::System;
use treebank::arcs::Arc;
use treebank::refusals::Refusal;

/// A rule on arcs: it allows none, and fewer where it allows more.
///
/// `ruling` says which arcs it allows and what it has against one arc more.
pub trait Rule {
    ghost ruling: { Ruling Self };

    /// Why the arc may not be drawn beside those of the system below; none where it may.
    // An `Option` and no `Result`: an objection is what is asked for, and no failure to answer.
    fn objection<S: System>(&self, below: &S, arc: Arc) -> Option<Refusal>
        ensures { result ≡ against ruling S.System.meaning self.now (S.System.conf below.now) arc };

    ghost lawful: { RuleLaws ruling };
}
