//! The list of queries.
ghost use Rattle.std.specs.Prelude.{Ok, true, [], ◌∷◌, ◌↔◌, ◌≡◌, ◌/◌, ◌%◌, ◌≤◌};
ghost use Rattle.words.specs.Given.{Given};
ghost use Rattle.statetable.specs.Queries.{found_of};
ghost use Rattle.listed_block.specs.Rooms.{BLOCK};
ghost use Rattle.listed_statetable.specs.Queries.{found_words, ActsTold, asked_of, WordCase, TableCase, QueryCase};

use listed_block::rooms::BLOCK;
use statetable::{
    Action, QueryRefusal, action, cell_word, core_mark, goto_word, offered, only_mark, shift_mark,
};
use words::{given, index};

/// What the query of that kind finds.
fn found_of(
    kind: u64,
    block: &[u32],
    states: usize,
    table: &[u32],
    s: usize,
    i: usize,
) -> Result<u32, QueryRefusal>
    requires known { kind ≤ 5 }
    requires none { kind ≡ 5 → i ≡ 0 }
    ensures { found_of result ≡ asked_of kind block.now states table.now s i }
{
    match kind {
        0 => cell_word(block, states, table, s, i),
        1 => goto_word(block, states, table, s, i),
        2 => offered(block, states, table, s, i),
        3 => shift_mark(block, states, table, s, i),
        4 => core_mark(block, states, table, s, i),
        _ => only_mark(block, states, table, s),
    }
}

/// Whether the two numbers are these.
fn is_pair(number: u64, word: u64, n: u32, w: u32) -> bool
    ensures { (result ≡ true) ↔ (number ∷ word ∷ [] ≡ n ∷ w ∷ []) }
{
    if number != n as u64 {
        return false;
    }
    word == w as u64
}

/// number word
fn found_is(found: Result<u32, QueryRefusal>, number: u64, word: u64) -> bool
    ensures { (result ≡ true) ↔ (number ∷ word ∷ [] ≡ found_words (found_of found)) }
{
    match found {
        Ok(w) => is_pair(number, word, 0, w),
        Err(refusal) => is_pair(number, word, refusal.number(), 0),
    }
}

/// Whether the word is a cell of that kind with that value.
fn is_coded(number: u64, word: u64, kind: u32, value: u32) -> bool
    ensures { (result ≡ true) ↔ ((number ≡ 0) × (word % 4 ≡ kind) × (word / 4 ≡ value)) }
{
    if !is_pair(number, word % 4, 0, kind) {
        return false;
    }
    word / 4 == value as u64
}

/// number word: whether the action is the one that the low two bits of the word decide on.
fn action_is(action: Action, number: u64, word: u64) -> bool
    ensures { (result ≡ true) ↔ ActsTold (Ok action) number word }
{
    match action {
        Action::Error => is_pair(number, word % 4, 0, 0),
        Action::Shift(s) => is_coded(number, word, 1, s),
        Action::Reduce(p) => is_coded(number, word, 2, p),
        Action::Accept => is_pair(number, word % 4, 0, 3),
    }
}

/// number word: the same of a query of an action, or refused with that number.
fn acts_is(acts: Result<Action, QueryRefusal>, number: u64, word: u64) -> bool
    ensures { (result ≡ true) ↔ ActsTold acts number word }
{
    match acts {
        Ok(action) => action_is(action, number, word),
        Err(refusal) => is_pair(number, word, refusal.number(), 0),
    }
}

/// [table] state column → number word
fn word_holds(kind: u64, block: &[u32], states: usize, rest: &[u64]) -> bool
    requires { kind ≤ 5 }
    ensures { (result ≡ true) ↔ Given BLOCK (WordCase kind block.now states) rest.now }
{
    let mut room = [0u32; BLOCK];
    let Some((table, last)) = given(rest, &mut room) else {
        return false;
    };
    if last.len() != 4 {
        return false;
    }
    let s = index(last[0]);
    let i = index(last[1]);
    let number = last[2];
    let word = last[3];
    if kind == 5 {
        if i != 0 {
            return false;
        }
    }
    // The list has one line for both queries of a cell: the word, and the action read from it.
    if kind == 0 {
        if !acts_is(action(block, states, table, s, i), number, word) {
            return false;
        }
    }
    found_is(found_of(kind, block, states, table, s, i), number, word)
}

/// [block] states [table] state column → number word
fn asked_holds(kind: u64, words: &[u64]) -> bool
    requires { kind ≤ 5 }
    ensures { (result ≡ true) ↔ Given BLOCK (TableCase kind) words.now }
{
    let mut room = [0u32; BLOCK];
    let Some((block, rest)) = given(words, &mut room) else {
        return false;
    };
    if rest.is_empty() {
        return false;
    }
    word_holds(kind, block, index(rest[0]), &rest[1..])
}

/// kind [block] states [table] state column → number word
// Not inlined, so that its rooms stand in no other frame (docs/DECISIONS.md, 67).
#[inline(never)]
pub fn query_holds(words: &[u64]) -> bool
    ensures { (result ≡ true) ↔ QueryCase words.now }
{
    if words.len() == 0 {
        return false;
    }
    let kind = words[0];
    if 5 < kind {
        return false;
    }
    asked_holds(kind, &words[1..])
}
