//! The blocks of document 01's samples: what the check says of each, and its right sides. A write that fails ends the program
//! with its error.
#![tactic(auto)]

use block::{Grammar, body, body_refusal};
use std::io;

/// What a check says: good, or the number of the refusal.
fn tell(rt: &impl Print, refusal: u32) -> io::Result<()> {
    if refusal == 0 {
        print!(rt; " good")
    } else {
        print!(rt; " {refusal}")
    }
}

/// The number of production p's query, and its right side.
fn tell_body(rt: &impl Print, block: &[u32], p: usize) -> io::Result<()> {
    print!(rt; "  {p}:")?;
    tell(rt, body_refusal(block, p))?;
    for symbol in body(block, p) {
        print!(rt; " {symbol}")?;
    }
    println!(rt; "")
}

/// The productions of G1, and one that it does not have.
fn show(rt: &impl Print, name: &str, block: &[u32]) -> io::Result<()> {
    print!(rt; "{name}:")?;
    let refusal = match Grammar::check(block) {
        Ok(_) => 0,
        Err(refusal) => refusal.number(),
    };
    tell(rt, refusal)?;
    println!(rt; "")?;
    tell_body(rt, block, 0)?;
    tell_body(rt, block, 1)?;
    tell_body(rt, block, 2)
}

fn main(rt: HostRuntime) -> io::Result<()> {
    let mut g1 = [
        2u32, 2, 2, 2, 1, 0, 9, 17, 19, 0, 0, 1, 0, 1, 1, 1, 0, 2, 1, 0, 0,
    ];
    show(&rt, "G1", &g1)?;
    show(&rt, "G1 with 20 words", &g1[..20])?;
    g1[0] = 257;
    show(&rt, "G1 with T = 257", &g1)
}
