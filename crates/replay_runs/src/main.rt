//! Replays the list of runs.
#![tactic(auto)]

use replay::{List, replay};
use std::io;

fn main(rt: HostRuntime) -> io::Result<()> {
    replay(&rt, b"runs: ", List::Runs.number())?;
    Ok(())
}
