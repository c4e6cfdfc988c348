//! Replays a short list of tables, four of them refused, that was damaged in its seventh line and those behind it: what
//! differs is told.
#![tactic(auto)]

use replay::{List, replay};
use std::io;

fn main(rt: HostRuntime) -> io::Result<()> {
    replay(&rt, b"damaged tables: ", List::Tables.number())?;
    Ok(())
}
