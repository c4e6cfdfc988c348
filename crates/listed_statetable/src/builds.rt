//! The list of tables: graph and tables in one call.
ghost use Rattle.std.specs.Prelude.{true, ◌++◌, ◌↔◌, ◌≡◌, ◌^◌, ◌<◌, ◌≤◌, get_or};
ghost use Rattle.pager.specs.Call as graph;
ghost use Rattle.statetable.specs.Build.{lent_all, answer_of};
ghost use Rattle.listed_block.specs.Rooms.{ROOM, bounded_of};
ghost use Rattle.listed_pager.specs.Work.{work_of, WorkLeft};
ghost use Rattle.listed_statetable.specs.Tables.{numbers};
ghost use Rattle.listed_statetable.specs.Builds.{buffer_parts, lent_all_for, BuildSeen, LentCase, BuildCase};

use crate::tables::{NUMBERS, numbers_of, tables_hold};
use listed_block::rooms::{BLOCK, ROOM, bounded};
use listed_pager::{Work, graph_begins, lent, work_holds, work_of};
use statetable::{BuildRefusal, Counts, Named, build};
use words::{behind_three, given, index, numbers_begin};

/// Lengths of a case: one for each output buffer.
const LENGTHS: usize = 11;

/// The words lent to the buffer of that number.
fn room_at(lengths: &[u64], k: usize) -> usize
    ensures length { result ≡ bounded_of (get_or lengths.now k 0) }
    ensures most { result ≤ ROOM }
{
    match lengths.get(k) {
        Some(length) => bounded(index(*length)),
        None => 0,
    }
}

/// What is expected of the call: number a b c  states items before rr sr settled  eleven [buffer]; and the work room.
fn all_hold(
    answer: Result<Counts, BuildRefusal>,
    work: Work,
    fill: u32,
    expected: &[u64],
    items: &[u64],
    spans: &[u32],
    edges: &[u32],
    actions: &[u32],
    gotos: &[u32],
    offers: &[u32],
    shifts: &[u32],
    cores: &[u32],
    only: &[u32],
    rr: &[u32],
    sr: &[u32],
    marks: &[u32],
    closed: &[u64],
    kernel: &[u64],
) -> bool
    ensures { (result ≡ true) ↔ ((expected.now ≡ numbers (answer_of answer) ++ buffer_parts
        (lent_all (graph.lent items.now spans.now edges.now marks.now closed.now kernel.now) actions.now gotos.now offers.now shifts.now cores.now only.now rr.now sr.now))
        × WorkLeft (get_or expected.now 0 0) work fill marks.now closed.now kernel.now) }
{
    let numbers = numbers_of(answer);
    if expected.len() < NUMBERS {
        return false;
    }
    if !numbers_begin(expected, &numbers) {
        return false;
    }
    let buffers = &expected[NUMBERS..];
    let tables = behind_three(buffers);
    if !graph_begins(buffers, items, spans, edges) {
        return false;
    }
    if !tables_hold(tables, actions, gotos, offers, shifts, cores, only, rr, sr) {
        return false;
    }
    work_holds(expected[0], work, fill, marks, closed, kernel)
}

/// The call, and what is expected of it.
// stays: the parameters are those of `build`, whose buffers the C interface lends one by one; so in all_hold and tables_hold.
fn call_holds(
    block: &[u32],
    named: Named,
    work: Work,
    fill: u32,
    expected: &[u64],
    items: &mut [u64],
    spans: &mut [u32],
    edges: &mut [u32],
    actions: &mut [u32],
    gotos: &mut [u32],
    offers: &mut [u32],
    shifts: &mut [u32],
    cores: &mut [u32],
    only: &mut [u32],
    rr: &mut [u32],
    sr: &mut [u32],
    marks: &mut [u32],
    closed: &mut [u64],
    kernel: &mut [u64],
) -> bool
    requires { work ≡ work_of block.now named.states }
    ensures { (result ≡ true) ↔ BuildSeen block.now named fill
        (lent_all (graph.lent items.old spans.old edges.old marks.old closed.old kernel.old) actions.old gotos.old offers.old shifts.old cores.old only.old rr.old sr.old)
        expected.now }
{
    let answer = build(
        block, named, items, spans, edges, actions, gotos, offers, shifts, cores, only, rr, sr,
        marks, closed, kernel,
    );
    all_hold(
        answer, work, fill, expected, items, spans, edges, actions, gotos, offers, shifts, cores,
        only, rr, sr, marks, closed, kernel,
    )
}

/// Lends the fronts of filled rooms, by the lengths of the eleven buffers and what work room is needed.
fn built_holds(
    block: &[u32],
    named: Named,
    work: Work,
    fill: u32,
    lengths: &[u64],
    expected: &[u64],
) -> bool
    requires { work ≡ work_of block.now named.states }
    ensures { (result ≡ true) ↔ BuildSeen block.now named fill (lent_all_for (work_of block.now named.states) fill lengths.now) expected.now }
{
    let wide = fill as u64;
    let mut items = [wide; ROOM];
    let mut spans = [fill; ROOM];
    let mut edges = [fill; ROOM];
    let mut actions = [fill; ROOM];
    let mut gotos = [fill; ROOM];
    let mut offers = [fill; ROOM];
    let mut shifts = [fill; ROOM];
    let mut cores = [fill; ROOM];
    let mut only = [fill; ROOM];
    let mut rr = [fill; ROOM];
    let mut sr = [fill; ROOM];
    let mut marks = [fill; ROOM];
    let mut closed = [wide; ROOM];
    let mut kernel = [wide; ROOM];
    call_holds(
        block,
        named,
        work,
        fill,
        expected,
        &mut items[..room_at(lengths, 0)],
        &mut spans[..room_at(lengths, 1)],
        &mut edges[..room_at(lengths, 2)],
        &mut actions[..room_at(lengths, 3)],
        &mut gotos[..room_at(lengths, 4)],
        &mut offers[..room_at(lengths, 5)],
        &mut shifts[..room_at(lengths, 6)],
        &mut cores[..room_at(lengths, 7)],
        &mut only[..room_at(lengths, 8)],
        &mut rr[..room_at(lengths, 9)],
        &mut sr[..room_at(lengths, 10)],
        &mut marks[..lent(work.marks)],
        &mut closed[..lent(work.closed)],
        &mut kernel[..lent(work.kernel)],
    )
}

/// eleven lengths  → number a b c ..
fn lent_holds(block: &[u32], named: Named, fill: u64, rest: &[u64]) -> bool
    ensures { (result ≡ true) ↔ ((fill < 2 ^ 32) × LentCase block.now named fill rest.now) }
{
    let Ok(fill) = u32::try_from(fill) else {
        return false;
    };
    if rest.len() < LENGTHS {
        return false;
    }
    let work = work_of(block, named.states);
    if ROOM < work.closed {
        return false;
    }
    built_holds(block, named, work, fill, &rest[..LENGTHS], &rest[LENGTHS..])
}

/// [block] S I limit-rr limit-sr fill  eleven lengths
///   → number a b c  states items before rr sr settled  eleven [buffer]
// Not inlined, so that its rooms stand in no other frame (docs/DECISIONS.md, 67).
#[inline(never)]
pub fn build_holds(words: &[u64]) -> bool
    ensures { (result ≡ true) ↔ BuildCase words.now }
{
    let mut room = [0u32; BLOCK];
    let Some((block, rest)) = given(words, &mut room) else {
        return false;
    };
    if rest.len() < 5 {
        return false;
    }
    let named = Named {
        states: index(rest[0]),
        items: index(rest[1]),
        rr: index(rest[2]),
        sr: index(rest[3]),
    };
    lent_holds(block, named, rest[4], &rest[5..])
}
