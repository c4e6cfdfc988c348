//! Replays the list of blocks.
#![tactic(auto)]

use replay::{List, replay};
use std::io;

fn main(rt: HostRuntime) -> io::Result<()> {
    replay(&rt, b"blocks: ", List::Blocks.number())?;
    Ok(())
}
