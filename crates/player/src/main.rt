//! Plays a run sheet from standard input and prints an account of it.
#![tactic(auto)]

mod columns;
mod telling;

use std::io;
use std::io::{Read, Write};
use telling::account;

/// No sheet that is accepted is longer: its first line and 5,150 moves.
const LONGEST: u64 = 5 * 5151;

fn main(rt: HostRuntime) -> io::Result<()> {
    let mut sheet = Vec::new(rt.alloc());
    rt.stdin().take(LONGEST).read_to_end(&mut sheet)?;
    let text = account(rt.alloc(), sheet.as_slice())?;
    rt.stdout().write_all(text.as_str().as_bytes())
}
