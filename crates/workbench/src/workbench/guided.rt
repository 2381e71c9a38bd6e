ghost use Rattle.std.specs.Prelude.{◌≡◌};
ghost use Rattle.workbench_model.specs.declared.answers.Answer.TheVariants.{Made};
ghost use Rattle.workbench_model.specs.Models.Call.{derive as derive_call};
ghost use Rattle.workbench_model.specs.Advances.{Went};
ghost use Rattle.workbench.specs.Workbenches.{Serves, ReachTold, answer_of};

use super::Workbench;
use guidance::building::has_arcs;
use guidance::guided::Guided;
use history::history::History;
use transition::faults::Fault;
use transition::making::make_move;
use transition::system::System;
use treebank::refusals::Refusal;
use treebank::rows::Row;
use treebank::tables::is_good_table;

/// Makes the moves that the advice names, until the sentence is finished or it leads no further; answers whether it is
/// finished.
// Over the two parts: in between the workbench is not sound, as its type has it.
fn follow<S: Guided>(system: &mut S, history: &mut History, table: &[Row]) -> bool
    ensures went { Went S.System.meaning (S.System.start system.old) table.now
        history.old (S.System.conf system.old) result history.new (S.System.conf system.new) }
    ensures alike { S.System.start system.new ≡ S.System.start system.old }
{
    while history.len() < History::CAPACITY {
        if system.finished() {
            return true;
        }
        let Some(m) = system.advice(table) else {
            return false;
        };
        let Ok(_) = make_move(system, m) else {
            return false;
        };
        let Ok(()) = history.push(m) else {
            unreachable!()
        };
    }
    system.finished()
}

impl<S: Guided> Workbench<S> {
    /// Makes the advised moves up to the wanted table and answers how many: `WrongRowCount` for another number of rows
    /// than words, then `BadRow`, then `Unreachable` where the advice does not lead to the table: with reliable advice,
    /// exactly where it cannot be reached.
    pub fn derive(&mut self, table: &[Row]) -> Result<usize, Fault>
        ensures served { Serves self.old (derive_call table.now) (answer_of (λ n. Made n) result) self.new }
        ensures reach { ReachTold S.Guided.reliable self.old table.now (answer_of (λ n. Made n) result) self.new }
    {
        if table.len() != self.words.get() as usize {
            return Err(Fault::from(Refusal::WrongRowCount));
        }
        if !is_good_table(self.words, table) {
            return Err(Fault::from(Refusal::BadRow));
        }
        let before = self.history.len();
        if follow(&mut self.system, &mut self.history, table)
            && has_arcs(&self.system, self.words, table)
        {
            return Ok(self.history.len() - before);
        }
        self.go_back_to(before);
        Err(Fault::from(Refusal::Unreachable))
    }
}
