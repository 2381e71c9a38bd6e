ghost use Rattle.std.specs.Prelude.{MatchResult};
ghost use Rattle.guidance.specs.Classes.{Makes, MakesNot};
ghost use Rattle.guidance.specs.Viability.{ViableExactly};
ghost use Rattle.arc_standard_theory.specs.Configurations.{start};
ghost use Rattle.arc_standard_theory.specs.Moves.{arc_standard};
ghost use Rattle.arc_standard_theory.specs.Viable.{Viable};
ghost use Rattle.arc_standard_theory.specs.Classes.{ProjectiveTree, ReachesProjectiveTrees};

use crate::system::ArcStandard;
use guidance::building::build;
use guidance::errors::BuildError;
use std::alloc::Global;
use treebank::moves::Move;
use treebank::rows::Row;
use treebank::words::WordCount;

/// The moves by which arc-standard builds the table from a new start, which it does exactly where the table is a
/// projective tree. Refused are over 100 rows (`TooManyWords`), then a row that is not good (`BadRow`), then any table
/// that is no projective tree (`Unreachable`).
///
/// With it stands why: what can be reached is what is viable and what the advice makes, and from the start these are the
/// projective trees.
pub fn build_tree(heap: Global, table: &[Row]) -> Result<Vec<Move>, BuildError>
    ensures tree { MatchResult result (λ v. Makes arc_standard start ProjectiveTree table.now v.items) (λ e. MakesNot ProjectiveTree table.now e) }
    ensures class { ReachesProjectiveTrees }
    ensures exact { ViableExactly arc_standard start Viable }
{
    // One function for each system: a generic one needs a trait with the class, its laws and a constructor, which is longer,
    // and its clauses say less plainly what each system builds.
    let words = WordCount::new(table.len())?;
    build(heap, &mut ArcStandard::new(words), table)
}
