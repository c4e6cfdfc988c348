//! Replays the list of closures.
#![tactic(auto)]

use replay::{List, replay};
use std::io;

fn main(rt: HostRuntime) -> io::Result<()> {
    replay(&rt, b"closures: ", List::Closures.number())?;
    Ok(())
}
