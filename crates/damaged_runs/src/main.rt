//! Replays a short list of runs, with an answer of each kind, that was damaged in its ninth line and those behind it:
//! what differs is told.
#![tactic(auto)]

use replay::{List, replay};
use std::io;

fn main(rt: HostRuntime) -> io::Result<()> {
    replay(&rt, b"damaged runs: ", List::Runs.number())?;
    Ok(())
}
