//! What is expected of a build: numbers, tables, marks and lists.
ghost use Rattle.std.specs.Prelude.{true, ◌++◌, ◌↔◌, ◌≡◌, length};
ghost use Rattle.words.specs.Given.{as_part};
ghost use Rattle.words.specs.Parts.{behind_of};
ghost use Rattle.statetable.specs.Build.{answer_of};
ghost use Rattle.listed_statetable.specs.Tables.{refusal_numbers, made_numbers, numbers, table_parts};

use statetable::{BuildRefusal, Counts};
use words::{begins, behind, behind_three};

/// Numbers of an answer.
pub const NUMBERS: usize = 10;

/// A refusal: number a b c, then zeros. The count of numbers is told since lending the array needs it.
fn refusal(number: u32, a: u32, b: u32, c: u32) -> [u64; NUMBERS]
    ensures numbers { result ≡ refusal_numbers number a b c }
    ensures count { 10 ≡ length result }
{
    [
        number as u64,
        a as u64,
        b as u64,
        c as u64,
        0,
        0,
        0,
        0,
        0,
        0,
    ]
}

/// number a b c  states items before rr sr settled, of a build
fn made(c: Counts) -> [u64; NUMBERS]
    ensures numbers { result ≡ made_numbers c }
    ensures count { 10 ≡ length result }
{
    [
        0,
        0,
        0,
        0,
        c.states as u64,
        c.items as u64,
        c.before as u64,
        c.rr as u64,
        c.sr as u64,
        c.count as u64,
    ]
}

/// number a b c  states items before rr sr settled
pub fn numbers_of(answer: Result<Counts, BuildRefusal>) -> [u64; NUMBERS]
    ensures numbers { result ≡ numbers (answer_of answer) }
    ensures count { 10 ≡ length result }
{
    match answer {
        Ok(counts) => made(counts),
        Err(
            BuildRefusal::AcceptReduce {
                there: Some(r),
                coming,
            },
        ) => refusal(11, 1, r, coming),
        Err(
            BuildRefusal::AcceptReduce {
                there: None,
                coming,
            },
        ) => refusal(11, 0, 0, coming),
        Err(
            BuildRefusal::MixedKinds {
                token,
                production,
                state,
            },
        ) => refusal(12, token, production, state),
        Err(refused) => refusal(refused.number(), 0, 0, 0),
    }
}

/// [first] [second] [third]
fn three_begin(expected: &[u64], first: &[u32], second: &[u32], third: &[u32]) -> bool
    ensures { (result ≡ true) ↔ (expected.now ≡ as_part first.now ++ (as_part second.now ++ (as_part third.now ++ behind_of (behind_of (behind_of expected.now))))) }
{
    if !begins(expected, first) {
        return false;
    }
    let next = behind(expected);
    if !begins(next, second) {
        return false;
    }
    begins(behind(next), third)
}

/// [reduce/reduce list] [shift/reduce list], and nothing behind them
fn lists_hold(expected: &[u64], rr: &[u32], sr: &[u32]) -> bool
    ensures { (result ≡ true) ↔ (expected.now ≡ as_part rr.now ++ as_part sr.now) }
{
    if !begins(expected, rr) {
        return false;
    }
    let next = behind(expected);
    if !begins(next, sr) {
        return false;
    }
    behind(next).len() == 0
}

/// [actions] [gotos] [offered] [shifts] [core-reduces] [reduce-only] [reduce/reduce list] [shift/reduce list]
pub fn tables_hold(
    expected: &[u64],
    actions: &[u32],
    gotos: &[u32],
    offers: &[u32],
    shifts: &[u32],
    cores: &[u32],
    only: &[u32],
    rr: &[u32],
    sr: &[u32],
) -> bool
    ensures { (result ≡ true) ↔ (expected.now ≡ table_parts actions.now gotos.now offers.now shifts.now cores.now only.now rr.now sr.now) }
{
    if !three_begin(expected, actions, gotos, offers) {
        return false;
    }
    let marks = behind_three(expected);
    if !three_begin(marks, shifts, cores, only) {
        return false;
    }
    lists_hold(behind_three(marks), rr, sr)
}
