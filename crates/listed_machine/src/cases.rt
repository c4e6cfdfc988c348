//! The list of runs.
ghost use Rattle.std.specs.Prelude.{true, ◌++◌, ◌↔◌, ◌≡◌, length};
ghost use Rattle.words.specs.Given.{as_part};
ghost use Rattle.machine.specs.Call.{answer_of, ended_of, called};
ghost use Rattle.listed_machine.specs.Cases.{numbers_at, numbers, run_words, LentCase, InputCase, TablesCase, RunCase};

use listed_block::rooms::{BLOCK, ROOM, bounded};
use machine::{Ended, How, Run, RunRefusal, run};
use words::{begins, behind, given, index, numbers_begin};

/// Numbers of an answer.
const NUMBERS: usize = 5;

/// number place k steps height, of a run that stands so. Their count is told since lending the array needs it.
fn numbers_at(number: u64, place: usize, run: Run) -> [u64; NUMBERS]
    ensures numbers { result ≡ numbers_at number place run }
    ensures count { 5 ≡ length result }
{
    [
        number,
        place as u64,
        run.k as u64,
        run.steps as u64,
        run.height as u64,
    ]
}

/// number place k steps height, of a run that began
fn ended_numbers(ended: Ended) -> [u64; NUMBERS]
    ensures numbers { result ≡ numbers (ended_of ended) }
    ensures count { 5 ≡ length result }
{
    match ended.how {
        How::Accept => numbers_at(0, 0, ended.run),
        How::Reject => numbers_at(100, ended.run.at, ended.run),
        How::Stopped(stop) => numbers_at(stop.number() as u64, 0, ended.run),
    }
}

/// number place k steps height
fn numbers_of(ran: Result<Ended, RunRefusal>) -> [u64; NUMBERS]
    ensures numbers { result ≡ numbers (answer_of ran) }
    ensures count { 5 ≡ length result }
{
    match ran {
        Ok(ended) => ended_numbers(ended),
        Err(RunRefusal::Block(refusal)) => [refusal.number() as u64, 0, 0, 0, 0],
        Err(RunRefusal::RoomShort) => [7, 0, 0, 0, 0],
        Err(RunRefusal::BadToken { place }) => [13, place as u64, 0, 0, 0],
    }
}

/// number place k steps height [stack] [output]
fn ran_holds(
    expected: &[u64],
    ran: Result<Ended, RunRefusal>,
    stack: &[u32],
    output: &[u32],
) -> bool
    ensures { (result ≡ true) ↔ (expected.now ≡ numbers (answer_of ran) ++ (as_part stack.now ++ as_part output.now)) }
{
    let numbers = numbers_of(ran);
    if expected.len() < NUMBERS {
        return false;
    }
    if !numbers_begin(expected, &numbers) {
        return false;
    }
    let buffers = &expected[NUMBERS..];
    if !begins(buffers, stack) {
        return false;
    }
    let last = behind(buffers);
    if !begins(last, output) {
        return false;
    }
    behind(last).is_empty()
}

/// The call, and what is expected of it.
// stays: the parameters are those of `run`, which takes any words (what may not change).
fn call_holds(
    block: &[u32],
    states: usize,
    actions: &[u32],
    gotos: &[u32],
    input: &[u32],
    limit: usize,
    expected: &[u64],
    stack: &mut [u32],
    output: &mut [u32],
) -> bool
    ensures { (result ≡ true) ↔ (expected.now ≡ run_words (called block.now states actions.now gotos.now input.now limit stack.old output.old)) }
{
    let ran = run(block, states, actions, gotos, input, limit, stack, output);
    ran_holds(expected, ran, stack, output)
}

/// step-limit fill stack-length output-length  → number place k steps height [stack] [output]
fn lent_holds(
    block: &[u32],
    states: usize,
    actions: &[u32],
    gotos: &[u32],
    input: &[u32],
    rest: &[u64],
) -> bool
    ensures { (result ≡ true) ↔ LentCase block.now states actions.now gotos.now input.now rest.now }
{
    if rest.len() < 4 {
        return false;
    }
    let fill = rest[1];
    if 4294967295 < fill {
        return false;
    }
    let mut stack = [fill as u32; ROOM];
    let mut output = [fill as u32; ROOM];
    call_holds(
        block,
        states,
        actions,
        gotos,
        input,
        index(rest[0]),
        &rest[4..],
        &mut stack[..bounded(index(rest[2]))],
        &mut output[..bounded(index(rest[3]))],
    )
}

/// [gotos] [input] step-limit ..
fn input_holds(block: &[u32], states: usize, actions: &[u32], rest: &[u64]) -> bool
    ensures { (result ≡ true) ↔ InputCase block.now states actions.now rest.now }
{
    let mut goto_room = [0u32; BLOCK];
    let mut input_room = [0u32; BLOCK];
    let Some((gotos, next)) = given(rest, &mut goto_room) else {
        return false;
    };
    let Some((input, last)) = given(next, &mut input_room) else {
        return false;
    };
    lent_holds(block, states, actions, gotos, input, last)
}

/// states [actions] [gotos] [input] step-limit ..
fn tables_hold(block: &[u32], rest: &[u64]) -> bool
    ensures { (result ≡ true) ↔ TablesCase block.now rest.now }
{
    let Some((states, tables)) = rest.split_first() else {
        return false;
    };
    let mut room = [0u32; BLOCK];
    let Some((actions, last)) = given(tables, &mut room) else {
        return false;
    };
    input_holds(block, index(*states), actions, last)
}

/// [block] states [actions] [gotos] [input] step-limit fill stack-length output-length
///   → number place k steps height [stack] [output]
// Not inlined, so that its rooms stand in no other frame (docs/DECISIONS.md, 67).
#[inline(never)]
pub fn run_holds(words: &[u64]) -> bool
    ensures { (result ≡ true) ↔ RunCase words.now }
{
    let mut room = [0u32; BLOCK];
    let Some((block, rest)) = given(words, &mut room) else {
        return false;
    };
    tables_hold(block, rest)
}
