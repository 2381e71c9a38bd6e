ghost use Rattle.std.specs.Prelude.{◌≡◌, ◌≤◌};
ghost use Rattle.transition.specs.Runs.{Run};
ghost use Rattle.workbench_model.specs.Serving.{floor};
ghost use Rattle.workbench.specs.Workbenches.{model_of, GoneBack};

use super::Workbench;
use history::history::History;
use transition::system::System;

/// Makes the moves of the history on a system in whose configuration they begin.
// Over the two parts: in between the workbench is not sound, as its type has it.
fn make_again<S: System>(system: &mut S, history: &History)
    ensures at { (d : S.System.meaning.Config) → Run S.System.meaning (S.System.conf system.old) history.now d → S.System.conf system.new ≡ d }
    ensures alike { S.System.start system.new ≡ S.System.start system.old }
{
    for m in history.iter() {
        let _ = system.step(m);
    }
}

impl<S: System> Workbench<S> {
    /// Goes back to where the first `count` moves led, and keeps those alone.
    pub(crate) fn go_back_to(&mut self, count: usize)
        requires { floor (model_of self.old).checkpoint ≤ count }
        ensures { GoneBack self.old count self.new }
    {
        self.history.cut(count);
        self.system.begin(self.words);
        make_again(&mut self.system, &self.history);
    }
}
