//! Reads a grammar block as decimal words from standard input and prints its tables, one item a line.
//! A text that is no block is told on standard output too. The first read or write that fails ends the program with its error;
//! what was printed before it stays.
#![tactic(auto)]

mod reading;
mod rooms;
mod telling;

use input::{read_full, room};
use reading::{BLOCK, NoBlock, TEXT, take_block};
use rooms::tell_tables;
use std::io;

/// Tells the tables of the block that the text spells, or where it spells none.
fn tell_text(rt: &impl Print, text: &[u8]) -> io::Result<()> {
    let mut words = room::<u32, BLOCK>(0);
    match take_block(text, &mut words) {
        Ok(n) => tell_tables(rt, &words[..n]),
        Err(fault) => println!(rt; "{fault}"),
    }
}

fn main(rt: HostRuntime) -> io::Result<()> {
    let mut text = room::<u8, TEXT>(0);
    let n = read_full(&mut rt.reader(), &mut text)?;
    if n == TEXT {
        // The rest of it may not have been read.
        println!(rt; "{}", NoBlock::TextRoom(n))
    } else {
        tell_text(&rt, &text[..n])
    }
}
