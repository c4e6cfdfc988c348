//! Replays a short list of bodies that was damaged in its second to sixth line and at its end: what differs is told.
#![tactic(auto)]

use replay::{List, replay};
use std::io;

fn main(rt: HostRuntime) -> io::Result<()> {
    replay(&rt, b"damaged: ", List::Bodies.number())?;
    Ok(())
}
