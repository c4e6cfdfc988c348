//! The call that builds the graph: what it is refused for, the graph, collection.
ghost use Rattle.std.specs.Prelude.{◌≡◌, ◌+◌, ◌*◌};
ghost use Rattle.block.specs.First.{firsts_of};
ghost use Rattle.pager.specs.Graph.{graph_of};
ghost use Rattle.pager.specs.Held.{limits_of};
ghost use Rattle.pager.specs.Building.{BuiltBy};
ghost use Rattle.pager.specs.Call.{lent, named, room_short, closed_part, kernel_part, zeroed, graph_call, counted, answer_of, written, leaves};
ghost use Rattle.pager.specs.CallSteps.{Roomy, behind_of, Outcome, Unfinished, Finished};

use crate::build::build_graph;
use crate::collect::collect_states;
use crate::limits::{ITEMS, STATES};
use crate::refusal::GraphRefusal;
use crate::room::{Count, Room};
use crate::zero::clear_room;
use block::limits::ITEM;
use block::{Firsts, Grammar};

/// States and items kept, and the states before collection.
#[derive(Clone, Copy, Debug, PartialEq, Eq)]
pub struct Kept {
    pub states: usize,
    pub items: usize,
    pub before: usize,
}

/// Whether a named size is out of range, or a lent buffer, of so many words, is shorter than the named sizes need.
pub fn room_short(
    grammar: Grammar<'_>,
    room: Room,
    items: usize,
    spans: usize,
    edges: usize,
    marks: usize,
    closed: usize,
    kernel: usize,
) -> bool
    ensures { result ≡ room_short grammar.entry.words.now (limits_of room) items spans edges marks closed kernel }
{
    if room.states < 1 {
        return true;
    }
    if STATES < room.states {
        return true;
    }
    if room.items < 1 {
        return true;
    }
    if ITEMS < room.items {
        return true;
    }
    if items < ITEM * room.items {
        return true;
    }
    if spans < 2 * room.states {
        return true;
    }
    if edges < room.states * (grammar.rules() + grammar.tokens()) {
        return true;
    }
    if marks < 2 * room.states {
        return true;
    }
    if closed < ITEM * (grammar.symbols() + grammar.productions()) {
        return true;
    }
    kernel < ITEM * grammar.symbols()
}

/// Clears what is named, builds the graph, and clears the room it was worked out in.
fn make(
    firsts: &Firsts<'_>,
    room: Room,
    items: &mut [u64],
    spans: &mut [u32],
    edges: &mut [u32],
    marks: &mut [u32],
    closed: &mut [u64],
    kernel: &mut [u64],
) -> Result<Count, GraphRefusal>
    requires { Roomy firsts.now.grammar.words.now room (lent items.old spans.old edges.old marks.old closed.old kernel.old) }
    ensures built { BuiltBy (graph_of firsts.now.grammar.words.now (firsts_of firsts.now.grammar.words.now) (limits_of room)) firsts.now.grammar.words.now room result items.new spans.new edges.new marks.new
        (behind_of firsts.now.grammar.words.now (limits_of room) items.old spans.old edges.old marks.old) }
    ensures closed { closed.new ≡ zeroed (closed_part firsts.now.grammar.words.now) closed.old }
    ensures kernel { kernel.new ≡ zeroed (kernel_part firsts.now.grammar.words.now) kernel.old }
{
    let grammar = firsts.grammar;
    let width = grammar.rules() + grammar.tokens();
    clear_room(room, width, items, spans, edges, marks);
    let made = build_graph(firsts, room, items, spans, edges, marks, closed, kernel);
    let symbols = grammar.symbols();
    closed[..ITEM * (symbols + grammar.productions())].fill(0);
    kernel[..ITEM * symbols].fill(0);
    made
}

/// Keeps what state 0 reaches; where the graph was refused, clears what is named.
fn finish(
    room: Room,
    width: usize,
    made: Result<Count, GraphRefusal>,
    items: &mut [u64],
    spans: &mut [u32],
    edges: &mut [u32],
    marks: &mut [u32],
) -> Result<Kept, GraphRefusal>
    requires { (v : Outcome) × Unfinished room width made items.old spans.old edges.old marks.old v }
    ensures { (v : Outcome) → Unfinished room width made items.old spans.old edges.old marks.old v
        → Finished room result items.new spans.new edges.new marks.new v }
{
    match made {
        Err(refusal) => {
            clear_room(room, width, items, spans, edges, marks);
            Err(refusal)
        }
        Ok(count) => {
            let kept = collect_states(items, spans, edges, marks, count, width);
            Ok(Kept {
                states: kept.states,
                items: kept.items,
                before: count.states,
            })
        }
    }
}

/// The graph of a good block, in room enough; a refusal leaves what is named zero.
fn build(
    firsts: &Firsts<'_>,
    room: Room,
    items: &mut [u64],
    spans: &mut [u32],
    edges: &mut [u32],
    marks: &mut [u32],
    closed: &mut [u64],
    kernel: &mut [u64],
) -> Result<Kept, GraphRefusal>
    requires { Roomy firsts.now.grammar.words.now room (lent items.old spans.old edges.old marks.old closed.old kernel.old) }
    ensures answer { answer_of result ≡ counted (graph_of firsts.now.grammar.words.now (firsts_of firsts.now.grammar.words.now) (limits_of room)) }
    ensures buffers { lent items.new spans.new edges.new marks.new closed.new kernel.new
        ≡ written (graph_of firsts.now.grammar.words.now (firsts_of firsts.now.grammar.words.now) (limits_of room)) firsts.now.grammar.words.now (limits_of room)
        (lent items.old spans.old edges.old marks.old closed.old kernel.old) }
{
    let made = make(firsts, room, items, spans, edges, marks, closed, kernel);
    let width = firsts.grammar.rules() + firsts.grammar.tokens();
    finish(room, width, made, items, spans, edges, marks)
}

/// The graph of any words, with at most `states` states and `most` kernel items: refused for the block (1 to 6), the room (7),
/// which leave the buffers as they were, or for one state more (8) or its items (9), which leave what is named zero.
pub fn graph(
    words: &[u32],
    states: usize,
    most: usize,
    items: &mut [u64],
    spans: &mut [u32],
    edges: &mut [u32],
    marks: &mut [u32],
    closed: &mut [u64],
    kernel: &mut [u64],
) -> Result<Kept, GraphRefusal>
    ensures answer { answer_of result ≡ counted (graph_call words.now (named states most)
        (lent items.old spans.old edges.old marks.old closed.old kernel.old)) }
    ensures buffers { lent items.new spans.new edges.new marks.new closed.new kernel.new
        ≡ leaves words.now (named states most)
        (lent items.old spans.old edges.old marks.old closed.old kernel.old) }
{
    let grammar = Grammar::check(words)?;
    let room = Room {
        states,
        items: most,
    };
    if room_short(
        grammar,
        room,
        items.len(),
        spans.len(),
        edges.len(),
        marks.len(),
        closed.len(),
        kernel.len(),
    ) {
        return Err(GraphRefusal::RoomShort);
    }
    let firsts = Firsts::new(grammar);
    build(&firsts, room, items, spans, edges, marks, closed, kernel)
}
