ghost use Rattle.std.specs.Prelude.{◌≤◌, map, length};
ghost use Rattle.sequence.specs.Attending.{AttendsAll, ServedAll, RanOn};

use crate::asking::Ask;
use requests::kinds::Reply;
use transition::faults::Fault;
use transition::system::System;
use treebank::refusals::Refusal;
use workbench::workbench::{Ticket, Workbench};

/// Serves the requests in turn, with room for all replies.
// A workbench and a pouch, and no struct that borrows both: each clause would then speak of its parts at entry and exit.
fn serve_each<S: System, Q: Ask<S>>(
    workbench: &mut Workbench<S>,
    requests: &[Q],
    pouch: &mut [Option<Ticket>],
    replies: &mut [Reply],
)
    requires { length requests.now ≤ length replies.old }
    ensures { AttendsAll workbench.old pouch.old (map Q.request requests.now)
        replies.old replies.new workbench.new pouch.new }
{
    // By index: of replies written through a `zip` over `iter_mut` no proof knows the values afterwards.
    for (i, request) in requests.iter().enumerate() {
        replies[i] = request.attend(workbench, pouch);
    }
}

/// Serves the requests in turn, and writes each reply into the lent replies; later ones stay. A request names a ticket by
/// its place in the pouch. `BufferTooSmall`, and nothing is served, where fewer replies are lent than requests.
pub fn serve<S: System, Q: Ask<S>>(
    workbench: &mut Workbench<S>,
    requests: &[Q],
    pouch: &mut [Option<Ticket>],
    replies: &mut [Reply],
) -> Result<(), Fault>
    ensures { ServedAll workbench.old pouch.old (map Q.request requests.now)
        replies.old result replies.new workbench.new pouch.new }
{
    if replies.len() < requests.len() {
        return Err(Fault::from(Refusal::BufferTooSmall));
    }
    serve_each(workbench, requests, pouch, replies);
    Ok(())
}

/// Sets up a new workbench on the system and serves the requests in turn, as `serve` does. With too few replies lent the
/// system goes back.
///
/// For every system and every list of requests, after each of them: the reply is the model's, and workbench and pouch hold
/// what the model says; no arc enters the root, no word has two heads, no word stands above itself; moves made since the
/// last load are moves standing and moves removed; the moves standing give the configuration and stay under the ceiling.
/// Where the advice is reliable, each derive of a good table is refused exactly where the table cannot be reached from the
/// configuration in which it found the workbench, and else leaves it finished with exactly the table's arcs.
pub fn run<S: System, Q: Ask<S>>(
    system: S,
    requests: &[Q],
    pouch: &mut [Option<Ticket>],
    replies: &mut [Reply],
) -> Result<Workbench<S>, (S, Fault)>
    ensures { RanOn Q.reliable system pouch.old (map Q.request requests.now)
        replies.old result replies.new pouch.new }
{
    if replies.len() < requests.len() {
        return Err((system, Fault::from(Refusal::BufferTooSmall)));
    }
    let mut workbench = Workbench::new(system);
    serve_each(&mut workbench, requests, pouch, replies);
    Ok(workbench)
}
