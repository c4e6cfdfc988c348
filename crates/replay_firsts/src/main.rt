//! Replays the list of firsts.
#![tactic(auto)]

use replay::{List, replay};
use std::io;

fn main(rt: HostRuntime) -> io::Result<()> {
    replay(&rt, b"firsts: ", List::Firsts.number())?;
    Ok(())
}
