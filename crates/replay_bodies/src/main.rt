//! Replays the list of bodies.
#![tactic(auto)]

use replay::{List, replay};
use std::io;

fn main(rt: HostRuntime) -> io::Result<()> {
    replay(&rt, b"bodies: ", List::Bodies.number())?;
    Ok(())
}
