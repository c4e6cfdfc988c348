//! Replays the list of refusals.
#![tactic(auto)]

use replay::{List, replay};
use std::io;

fn main(rt: HostRuntime) -> io::Result<()> {
    replay(&rt, b"refusals: ", List::Refusals.number())?;
    Ok(())
}
