//! Replays a short list of closures that was damaged in its second line and those behind it: what differs is told.
#![tactic(auto)]

use replay::{List, replay};
use std::io;

fn main(rt: HostRuntime) -> io::Result<()> {
    replay(&rt, b"damaged closures: ", List::Closures.number())?;
    Ok(())
}
