//! The calls: the check of a block, the build, the graph alone, the machine. Each is the lower crate's, its answer in words.
ghost use Rattle.std.specs.Prelude.{◌≡◌, length};
ghost use Rattle.block.specs.Refusal.{refusal_of};
ghost use Rattle.pager.specs.Call as pager;
ghost use Rattle.pager.specs.Call.{lent};
ghost use Rattle.statetable.specs.Build as tables;
ghost use Rattle.statetable.specs.Build.{lent_all};
ghost use Rattle.machine.specs.Call as machine;
ghost use Rattle.machine.specs.Call.{called, run_call, told};
ghost use Rattle.timkerzal.specs.Words.{named, built_words, graph_words, ran_words};

use crate::words::{BUILT, GRAPHED, RAN, built_words, graph_words, ran_words};
use block::Grammar;
use machine::run;
use pager::graph;
use statetable::{Named, build};

/// The number of the refusal of a block: 1 to 6, or 0 for a good block.
pub fn timkerzal_check(block: &[u32]) -> u32
    ensures { result ≡ refusal_of block.now }
{
    match Grammar::check(block) {
        Ok(_) => 0,
        Err(refusal) => refusal.number(),
    }
}

/// Graph and tables of any block, with the rooms that the caller names.
pub fn timkerzal_build(
    block: &[u32],
    states: usize,
    most: usize,
    rr_most: usize,
    sr_most: usize,
    items: &mut [u64],
    spans: &mut [u32],
    edges: &mut [u32],
    actions: &mut [u32],
    gotos: &mut [u32],
    offered: &mut [u32],
    shifts: &mut [u32],
    cores: &mut [u32],
    only: &mut [u32],
    rr: &mut [u32],
    sr: &mut [u32],
    marks: &mut [u32],
    closed: &mut [u64],
    kernel: &mut [u64],
    answer: &mut [u64; BUILT],
)
    ensures answer { answer.new ≡ built_words (tables.counted (tables.build_call block.now (named states most rr_most sr_most)
        (lent_all (lent items.old spans.old edges.old marks.old closed.old kernel.old) actions.old gotos.old offered.old shifts.old cores.old only.old rr.old sr.old))) }
    ensures buffers { lent_all (lent items.new spans.new edges.new marks.new closed.new kernel.new) actions.new gotos.new offered.new shifts.new cores.new only.new rr.new sr.new
        ≡ tables.leaves block.now (named states most rr_most sr_most)
        (lent_all (lent items.old spans.old edges.old marks.old closed.old kernel.old) actions.old gotos.old offered.old shifts.old cores.old only.old rr.old sr.old) }
{
    let room = Named {
        states,
        items: most,
        rr: rr_most,
        sr: sr_most,
    };
    *answer = built_words(build(
        block, room, items, spans, edges, actions, gotos, offered, shifts, cores, only, rr, sr,
        marks, closed, kernel,
    ));
}

/// The graph alone of any block.
pub fn timkerzal_graph(
    block: &[u32],
    states: usize,
    most: usize,
    items: &mut [u64],
    spans: &mut [u32],
    edges: &mut [u32],
    marks: &mut [u32],
    closed: &mut [u64],
    kernel: &mut [u64],
    answer: &mut [u64; GRAPHED],
)
    ensures answer { answer.new ≡ graph_words (pager.counted (pager.graph_call block.now (pager.named states most)
        (lent items.old spans.old edges.old marks.old closed.old kernel.old))) }
    ensures buffers { lent items.new spans.new edges.new marks.new closed.new kernel.new
        ≡ pager.leaves block.now (pager.named states most)
        (lent items.old spans.old edges.old marks.old closed.old kernel.old) }
{
    *answer = graph_words(graph(
        block, states, most, items, spans, edges, marks, closed, kernel,
    ));
}

/// The machine on any block, tables and input, in at most `limit` steps.
pub fn timkerzal_run(
    block: &[u32],
    states: usize,
    actions: &[u32],
    gotos: &[u32],
    input: &[u32],
    limit: usize,
    stack: &mut [u32],
    output: &mut [u32],
    answer: &mut [u64; RAN],
)
    ensures answer { answer.new ≡ ran_words (told (length input.now)
        (run_call (called block.now states actions.now gotos.now input.now limit stack.old output.old))) }
    ensures stack { stack.new ≡ machine.stack_of
        (run_call (called block.now states actions.now gotos.now input.now limit stack.old output.old))
        stack.old }
    ensures output { output.new ≡ machine.output_of
        (run_call (called block.now states actions.now gotos.now input.now limit stack.old output.old))
        output.old }
{
    *answer = ran_words(run(block, states, actions, gotos, input, limit, stack, output));
}
