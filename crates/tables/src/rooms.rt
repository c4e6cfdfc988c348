//! The rooms that a block's tables are built in, and what is named so that they suffice.
use crate::telling::tell_answer;
use block::Grammar;
use block::limits::{ITEM, PRODS, SYMBOLS};
use input::room;
use statetable::limits::{RR, SR};
use statetable::{Named, build};
use std::io;

/// Most states that are named.
const STATES: usize = 1024;

/// Kernel items that are named: as many as a closed list may have.
const ITEMS: usize = SYMBOLS + PRODS;

/// Records that are named, of each list.
const RECORDS: usize = 1024;

/// Words of each table that has a row for a state: 256 rows of the widest.
const TABLE: usize = 131072;

/// Words of each list of items.
const ROWS: usize = ITEM * ITEMS;

const SPANS: usize = 2 * STATES;

const RR_LIST: usize = RR * RECORDS;

const SR_LIST: usize = SR * RECORDS;

/// The states that a table of that width has room for, at most as many as are ever named.
fn rows(width: usize) -> usize {
    STATES.min(TABLE / width.max(1))
}

/// As many states as the rooms allow for the grammar, never fewer than 256, so that no build is refused by 7.
fn named(grammar: Grammar<'_>) -> Named {
    let edges = rows(grammar.tokens() + grammar.rules());
    let cores = rows(grammar.productions());
    Named {
        states: edges.min(cores),
        items: ITEMS,
        rr: RECORDS,
        sr: RECORDS,
    }
}

// stays: rooms on the stack and no Vec, since nothing new is to be assumed, and a Vec stands on the C library's heap.
/// Builds the block's tables and tells them. An error is that of the write that failed.
pub fn tell_tables(rt: &impl Print, block: &[u32]) -> io::Result<()> {
    let grammar = match Grammar::check(block) {
        Ok(grammar) => grammar,
        Err(refusal) => return println!(rt; "refused {}", refusal.number()),
    };
    let mut items = room::<u64, ROWS>(0);
    let mut spans = room::<u32, SPANS>(0);
    let mut edges = room::<u32, TABLE>(0);
    let mut actions = room::<u32, TABLE>(0);
    let mut gotos = room::<u32, TABLE>(0);
    let mut offered = room::<u32, TABLE>(0);
    let mut shifts = room::<u32, TABLE>(0);
    let mut cores = room::<u32, TABLE>(0);
    let mut only = room::<u32, STATES>(0);
    let mut rr = room::<u32, RR_LIST>(0);
    let mut sr = room::<u32, SR_LIST>(0);
    let mut marks = room::<u32, SPANS>(0);
    let mut closed = room::<u64, ROWS>(0);
    let mut kernel = room::<u64, ROWS>(0);
    let answer = build(
        block,
        named(grammar),
        &mut items,
        &mut spans,
        &mut edges,
        &mut actions,
        &mut gotos,
        &mut offered,
        &mut shifts,
        &mut cores,
        &mut only,
        &mut rr,
        &mut sr,
        &mut marks,
        &mut closed,
        &mut kernel,
    );
    tell_answer(rt, grammar, answer, &actions, &gotos, &rr, &sr)
}
