ghost use Rattle.std.specs.Prelude.{◌≡◌, ℕ, ◌≤◌, true, ◌↔◌, length, MatchResult};
ghost use Rattle.treebank.specs.Tables.{GoodTable};
ghost use Rattle.guidance.specs.Building.{Agrees, Built, Led, Stuck, NotBuilt};
ghost use Rattle.guidance.specs.Following.{LedExactly};

use crate::errors::BuildError;
use crate::guided::Guided;
use std::alloc::Global;
use transition::making::make_move;
use transition::system::System;
use treebank::arcs::Arc;
use treebank::moves::Move;
use treebank::refusals::Refusal;
use treebank::rows::Row;
use treebank::tables::{arc_into, first_bad_row};
use treebank::words::WordCount;

/// Whether the system has, into each word, the arc that the table has.
pub fn has_arcs<S: System>(system: &S, words: WordCount, table: &[Row]) -> bool
    ensures { (result ≡ true) ↔ Agrees S.System.meaning (S.System.conf system.now) words.count table.now }
{
    // A loop: of `all` over a range no short answer shows that it is about each word.
    for word in 1..=words.get() {
        if system.arc_into(word) != arc_into(table, word) {
            return false;
        }
    }
    true
}

/// Follows the advice from the start until the sentence is finished.
fn follow<S: Guided>(heap: Global, system: &mut S, table: &[Row]) -> Result<Vec<Move>, BuildError>
    requires begun { S.System.conf system.old ≡ S.System.start system.old (length table.now) }
    requires few { length table.now ≤ 100 }
    requires good { GoodTable (length table.now) table.now }
    ensures came { MatchResult result
        (λ v. Led S.System.meaning (S.System.start system.old) S.Guided.reliable (length table.now) table.now v.items (S.System.conf system.new)
        × (S.System.meaning.finished (S.System.conf system.new) ≡ true))
        (λ e. Stuck S.System.meaning (S.System.start system.old) S.Guided.reliable (length table.now) table.now e) }
    ensures alike { S.System.start system.new ≡ S.System.start system.old }
{
    let mut moves = Vec::new(heap);
    while !system.finished() {
        let m = system.advice(table).ok_or(Refusal::Unreachable)?;
        make_move(system, m).map_err(|_| Refusal::Unreachable)?;
        moves.push(m)?;
    }
    Ok(moves)
}

/// Follows the advice from the start, and sees that it ends with the table's arcs.
fn follow_to<S: Guided>(
    heap: Global,
    system: &mut S,
    words: WordCount,
    table: &[Row],
) -> Result<Vec<Move>, BuildError>
    requires begun { S.System.conf system.old ≡ S.System.start system.old (length table.now) }
    requires rows { words.count ≡ length table.now }
    requires good { GoodTable (length table.now) table.now }
    ensures came { MatchResult result
        (λ v. Built S.System.meaning (S.System.start system.old) table.now v.items (S.System.conf system.new))
        (λ e. Stuck S.System.meaning (S.System.start system.old) S.Guided.reliable (length table.now) table.now e) }
    ensures alike { S.System.start system.new ≡ S.System.start system.old }
{
    let moves = follow(heap, system, table)?;
    if !has_arcs(system, words, table) {
        return Err(BuildError::from(Refusal::Unreachable));
    }
    Ok(moves)
}

/// Builds the table on a newly begun sentence by following the advice, and answers the moves that it named.
///
/// Refused are over 100 rows (`TooManyWords`), then a row that is not good (`BadRow`), which leave the system as it was;
/// then a table that the advice does not lead to (`Unreachable`): where the advice is reliable, exactly one that cannot be
/// reached. After that, and where memory is wanting, the system is begun anew.
pub fn build<S: Guided>(
    heap: Global,
    system: &mut S,
    table: &[Row],
) -> Result<Vec<Move>, BuildError>
    ensures built { MatchResult result
        (λ v. Built S.System.meaning (S.System.start system.old) table.now v.items (S.System.conf system.new))
        (λ e. NotBuilt S.System.meaning S.System.conf (S.System.start system.old) S.Guided.reliable table.now system.old e system.new) }
    ensures alike { S.System.start system.new ≡ S.System.start system.old }
    ensures exact { S.Guided.reliable → LedExactly S.System.meaning (S.System.start system.old) }
{
    let words = WordCount::new(table.len())?;
    if first_bad_row(words, table).is_some() {
        return Err(BuildError::from(Refusal::BadRow));
    }
    system.begin(words);
    let built = follow_to(heap, system, words, table);
    if built.is_err() {
        system.begin(words);
    }
    built
}
