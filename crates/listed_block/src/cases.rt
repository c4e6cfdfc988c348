//! The lists of blocks, right sides and FIRST sets.
ghost use Rattle.std.specs.Prelude.{true, map, ◌↔◌, ◌≡◌};
ghost use Rattle.block.specs.Refusal.{refusal_of};
ghost use Rattle.listed_block.specs.Cases.{BlockCase, BodyCase, FirstsCase};
ghost use Rattle.listed_block.specs.Aheads.{marks_of, words_of};

use crate::rooms::BLOCK;
use block::{Firsts, Grammar, Lookahead, body, body_refusal};
use words::{given, index, same, split_part};

/// The number of the block's refusal, 0 for a good one.
fn refusal(block: &[u32]) -> u64
    ensures { result ≡ refusal_of block.now }
{
    match Grammar::check(block) {
        Ok(_) => 0,
        Err(refusal) => u64::from(refusal.number()),
    }
}

/// [block] → number
// Not inlined, so that its rooms stand in no other frame (docs/DECISIONS.md, 67).
#[inline(never)]
pub fn block_holds(words: &[u64]) -> bool
    ensures { (result ≡ true) ↔ BlockCase words.now }
{
    let mut room = [0u32; BLOCK];
    let Some((block, expected)) = given(words, &mut room) else {
        return false;
    };
    if expected.len() != 1 {
        return false;
    }
    expected[0] == refusal(block)
}

/// [block] production → number [body]
// Not inlined, so that its rooms stand in no other frame (docs/DECISIONS.md, 67).
#[inline(never)]
pub fn body_holds(words: &[u64]) -> bool
    ensures { (result ≡ true) ↔ BodyCase words.now }
{
    let mut room = [0u32; BLOCK];
    let Some((block, rest)) = given(words, &mut room) else {
        return false;
    };
    if rest.len() < 3 {
        return false;
    }
    let p = index(rest[0]);
    let right = body(block, p);
    if rest[1] != u64::from(body_refusal(block, p)) {
        return false;
    }
    if rest[2] != right.len() as u64 {
        return false;
    }
    same(&rest[3..], right)
}

/// Whether the marks are those of the rules.
fn marks_hold(marks: &[u64], aheads: &[Lookahead]) -> bool
    ensures { (result ≡ true) ↔ (marks.now ≡ marks_of aheads.now) }
{
    if marks.len() != aheads.len() {
        return false;
    }
    for (i, ahead) in aheads.iter().enumerate() {
        if marks[i] != u64::from(ahead.null) {
            return false;
        }
    }
    true
}

/// Whether the words are those of the rules' sets, one behind the other.
fn sets_hold(words: &[u64], aheads: &[Lookahead]) -> bool
    ensures { (result ≡ true) ↔ (words.now ≡ words_of aheads.now) }
{
    let mut rest = words;
    for ahead in aheads {
        let Some(next) = rest.strip_prefix(&ahead.set.words) else {
            return false;
        };
        rest = next;
    }
    rest.is_empty()
}

/// [good block] → [nullable marks] [FIRST words]
// Not inlined, so that its rooms stand in no other frame (docs/DECISIONS.md, 67).
#[inline(never)]
pub fn firsts_hold(words: &[u64]) -> bool
    ensures { (result ≡ true) ↔ FirstsCase words.now }
{
    let mut room = [0u32; BLOCK];
    let Some((block, expected)) = given(words, &mut room) else {
        return false;
    };
    let Ok(grammar) = Grammar::check(block) else {
        return false;
    };
    let Some((marks, rest)) = split_part(expected) else {
        return false;
    };
    let Some((sets, behind)) = split_part(rest) else {
        return false;
    };
    let Firsts { grammar, rules } = Firsts::new(grammar);
    let aheads = &rules[..grammar.rules()];
    if !marks_hold(marks, aheads) {
        return false;
    }
    if !sets_hold(sets, aheads) {
        return false;
    }
    behind.is_empty()
}
