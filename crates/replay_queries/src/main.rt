//! Replays the list of queries.
#![tactic(auto)]

use replay::{List, replay};
use std::io;

fn main(rt: HostRuntime) -> io::Result<()> {
    replay(&rt, b"queries: ", List::Queries.number())?;
    Ok(())
}
