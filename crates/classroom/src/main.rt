//! Two pupils at two workbenches, each with a checkpoint standing, and one pouch for their tickets.
#![tactic(auto)]

mod lesson;
mod scripts;

use lesson::hold_lesson;
use scripts::Turn;
use std::io;

fn main(rt: HostRuntime) -> io::Result<()> {
    for turn in &hold_lesson() {
        tell(rt, turn)?;
    }
    Ok(())
}

/// Prints what a pupil asked, and what was said to it.
fn tell(rt: HostRuntime, turn: &Turn) -> io::Result<()> {
    println!(rt; "{}", turn.pupil)?;
    for (request, reply) in turn.requests.iter().zip(&turn.replies) {
        println!(rt; "  {request}: {reply}")?;
    }
    Ok(())
}
