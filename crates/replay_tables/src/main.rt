//! Replays the list of tables.
#![tactic(auto)]

use replay::{List, replay};
use std::io;

fn main(rt: HostRuntime) -> io::Result<()> {
    replay(&rt, b"tables: ", List::Tables.number())?;
    Ok(())
}
