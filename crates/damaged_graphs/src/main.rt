//! Replays a short list of graphs, three of them refused, that was damaged in its fifth line and those behind it: what
//! differs is told.
#![tactic(auto)]

use replay::{List, replay};
use std::io;

fn main(rt: HostRuntime) -> io::Result<()> {
    replay(&rt, b"damaged graphs: ", List::Graphs.number())?;
    Ok(())
}
