//! Replays the list of graphs.
#![tactic(auto)]

use replay::{List, replay};
use std::io;

fn main(rt: HostRuntime) -> io::Result<()> {
    replay(&rt, b"graphs: ", List::Graphs.number())?;
    Ok(())
}
