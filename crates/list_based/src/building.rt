ghost use Rattle.std.specs.Prelude.{MatchResult};
ghost use Rattle.treebank.specs.Trees.{Forest};
ghost use Rattle.guidance.specs.Classes.{Makes, MakesNot};
ghost use Rattle.guidance.specs.Viability.{ViableExactly};
ghost use Rattle.list_based_theory.specs.Configurations.{start};
ghost use Rattle.list_based_theory.specs.Moves.{list_based};
ghost use Rattle.list_based_theory.specs.Viable.{Viable};
ghost use Rattle.list_based_theory.specs.Classes.{ReachesForests};

use crate::system::ListBased;
use guidance::building::build;
use guidance::errors::BuildError;
use std::alloc::Global;
use treebank::moves::Move;
use treebank::rows::Row;
use treebank::words::WordCount;

/// The moves by which the list-based system builds the table from a new start, which it does exactly where the table is a
/// dependency forest. Refused are over 100 rows (`TooManyWords`), then a row that is not good (`BadRow`), then any table
/// that is no forest (`Unreachable`).
///
/// With it stands why: what can be reached is what is viable and what the advice makes, and from the start these are the
/// forests.
pub fn build_forest(heap: Global, table: &[Row]) -> Result<Vec<Move>, BuildError>
    ensures forest { MatchResult result (λ v. Makes list_based start Forest table.now v.items) (λ e. MakesNot Forest table.now e) }
    ensures class { ReachesForests }
    ensures exact { ViableExactly list_based start Viable }
{
    // One function for each system: a generic one needs a trait with the class, its laws and a constructor, which is longer,
    // and its clauses say less plainly what each system builds.
    let words = WordCount::new(table.len())?;
    build(heap, &mut ListBased::new(words), table)
}
