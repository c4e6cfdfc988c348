//! The call that builds graph and tables: refusals 1 to 12, the graph, its collection, cells, gotos, marks and lists.
ghost use Rattle.std.specs.Prelude.{List, ◌≡◌, ℕ, ◌*◌, ◌≤◌, length};
ghost use Rattle.block.specs.First.{firsts_of};
ghost use Rattle.pager.specs.Place.{State};
ghost use Rattle.pager.specs.Held.{STATES, ITEMS};
ghost use Rattle.pager.specs.Call.{lent, closed_part, item_part, span_part, edge_part, zeroed};
ghost use Rattle.statetable.specs.Cells.{cells_of};
ghost use Rattle.statetable.specs.Build.{lent_all, limits_of, caps_of, tables_short, build_call, build_of, counted, answer_of, written, leaves};
ghost use Rattle.statetable.specs.BuildSteps.{Roomy, ForTabulate, Tabulated};

use crate::derive::derive_tables;
use crate::limits::{RECORDS, RR, SR};
use crate::records::{Caps, Tally};
use crate::refusal::BuildRefusal;
use crate::states::fill_tables;
use block::Grammar;
use block::limits::ITEM;
use pager::{Room, graph, room_short};

/// States, kernel items, and records of each list that there is room for.
#[derive(Clone, Copy, Debug, PartialEq, Eq)]
pub struct Named {
    pub states: usize,
    pub items: usize,
    pub rr: usize,
    pub sr: usize,
}

/// States and items kept, states before collection, records in each list, choices made by precedence.
#[derive(Clone, Copy, Debug, PartialEq, Eq)]
pub struct Counts {
    pub states: usize,
    pub items: usize,
    pub before: usize,
    pub rr: usize,
    pub sr: usize,
    pub count: usize,
}

/// Refusal 7, by the lengths of the buffers for tables, marks and lists.
#[tactic(auto, unfolding(crate::specs::Build::tables_short, pager::specs::Call::some_less))]
fn tables_short(
    grammar: Grammar<'_>,
    named: Named,
    actions: usize,
    gotos: usize,
    offered: usize,
    shifts: usize,
    cores: usize,
    only: usize,
    rr: usize,
    sr: usize,
) -> bool
    requires { named.states ≤ STATES }
    ensures { result ≡ tables_short grammar.entry.words.now named actions gotos offered shifts cores only rr sr }
{
    let tokens = grammar.tokens();
    let rules = grammar.rules();
    let prods = grammar.productions();
    RECORDS < named.rr
        || RECORDS < named.sr
        || actions < named.states * tokens
        || gotos < named.states * rules
        || offered < named.states * tokens
        || shifts < named.states * tokens
        || cores < named.states * prods
        || only < named.states
        || rr < RR * named.rr
        || sr < SR * named.sr
}

/// The graph's named parts are zero.
fn clear_graph(
    grammar: Grammar<'_>,
    named: Named,
    items: &mut [u64],
    spans: &mut [u32],
    edges: &mut [u32],
)
    requires { (named.states ≤ STATES) × (named.items ≤ ITEMS) × (item_part (limits_of named) ≤ length items.old) × (span_part (limits_of named) ≤ length spans.old) × (edge_part grammar.words.now (limits_of named) ≤ length edges.old) }
    ensures items { items.new ≡ zeroed (item_part (limits_of named)) items.old }
    ensures spans { spans.new ≡ zeroed (span_part (limits_of named)) spans.old }
    ensures edges { edges.new ≡ zeroed (edge_part grammar.entry.words.now (limits_of named)) edges.old }
{
    items[..ITEM * named.items].fill(0);
    spans[..2 * named.states].fill(0);
    edges[..named.states * (grammar.rules() + grammar.tokens())].fill(0);
}

/// Tables, marks and lists of the graph; where the filling has to stop, all outputs are zero.
fn tabulate(
    grammar: Grammar<'_>,
    named: Named,
    states: usize,
    items: &mut [u64],
    spans: &mut [u32],
    edges: &mut [u32],
    closed: &mut [u64],
    actions: &mut [u32],
    gotos: &mut [u32],
    offered: &mut [u32],
    shifts: &mut [u32],
    cores: &mut [u32],
    only: &mut [u32],
    rr: &mut [u32],
    sr: &mut [u32],
) -> Result<Tally, BuildRefusal>
    requires { (ss : List State) × ForTabulate grammar.words.now named states items.old spans.old edges.old closed.old actions.old gotos.old offered.old shifts.old cores.old only.old rr.old sr.old ss }
    ensures tables { (ss : List State) → ForTabulate grammar.entry.words.now named states items.old spans.old edges.old closed.old actions.old gotos.old offered.old shifts.old cores.old only.old rr.old sr.old ss
        → Tabulated (cells_of grammar.entry.words.now (firsts_of grammar.entry.words.now) (caps_of named) ss) grammar.entry.words.now named ss result
        items.old spans.old edges.old actions.old gotos.old offered.old shifts.old cores.old only.old rr.old sr.old
        items.new spans.new edges.new actions.new gotos.new offered.new shifts.new cores.new only.new rr.new sr.new }
    ensures closed { closed.new ≡ zeroed (closed_part grammar.entry.words.now) closed.old }
{
    let caps = Caps {
        rr: named.rr,
        sr: named.sr,
    };
    let most = named.states;
    match fill_tables(
        grammar, most, states, caps, items, spans, edges, closed, actions, offered, rr, sr,
    ) {
        Ok(tally) => {
            derive_tables(
                grammar, most, states, edges, actions, gotos, shifts, cores, only,
            );
            Ok(tally)
        }
        Err(refusal) => {
            derive_tables(grammar, most, 0, edges, actions, gotos, shifts, cores, only);
            clear_graph(grammar, named, items, spans, edges);
            Err(refusal)
        }
    }
}

/// Graph and tables of a good block, in room enough. Where the graph is refused, no states are tabulated, which leaves all outputs zero.
fn make(
    grammar: Grammar<'_>,
    named: Named,
    items: &mut [u64],
    spans: &mut [u32],
    edges: &mut [u32],
    actions: &mut [u32],
    gotos: &mut [u32],
    offered: &mut [u32],
    shifts: &mut [u32],
    cores: &mut [u32],
    only: &mut [u32],
    rr: &mut [u32],
    sr: &mut [u32],
    marks: &mut [u32],
    closed: &mut [u64],
    kernel: &mut [u64],
) -> Result<Counts, BuildRefusal>
    requires { Roomy grammar.words.now named (lent_all (lent items.old spans.old edges.old marks.old closed.old kernel.old) actions.old gotos.old offered.old shifts.old cores.old only.old rr.old sr.old) }
    ensures answer { answer_of result ≡ counted (build_of grammar.entry.words.now named) }
    ensures buffers { lent_all (lent items.new spans.new edges.new marks.new closed.new kernel.new) actions.new gotos.new offered.new shifts.new cores.new only.new rr.new sr.new
        ≡ written (build_of grammar.entry.words.now named) grammar.entry.words.now named
        (lent_all (lent items.old spans.old edges.old marks.old closed.old kernel.old) actions.old gotos.old offered.old shifts.old cores.old only.old rr.old sr.old) }
{
    let graphed = graph(
        grammar.words,
        named.states,
        named.items,
        items,
        spans,
        edges,
        marks,
        closed,
        kernel,
    );
    let states = match graphed {
        Ok(kept) => kept.states,
        Err(_) => 0,
    };
    let told = tabulate(
        grammar, named, states, items, spans, edges, closed, actions, gotos, offered, shifts,
        cores, only, rr, sr,
    );
    let kept = graphed?;
    let tally = told?;
    Ok(Counts {
        states: kept.states,
        items: kept.items,
        before: kept.before,
        rr: tally.rr,
        sr: tally.sr,
        count: tally.count,
    })
}

/// Graph and tables of any block, with the rooms that the caller names.
// stays: the C interface. timkerzal_build lends these buffers one by one.
pub fn build(
    words: &[u32],
    named: Named,
    items: &mut [u64],
    spans: &mut [u32],
    edges: &mut [u32],
    actions: &mut [u32],
    gotos: &mut [u32],
    offered: &mut [u32],
    shifts: &mut [u32],
    cores: &mut [u32],
    only: &mut [u32],
    rr: &mut [u32],
    sr: &mut [u32],
    marks: &mut [u32],
    closed: &mut [u64],
    kernel: &mut [u64],
) -> Result<Counts, BuildRefusal>
    ensures answer { answer_of result ≡ counted (build_call words.now named
        (lent_all (lent items.old spans.old edges.old marks.old closed.old kernel.old) actions.old gotos.old offered.old shifts.old cores.old only.old rr.old sr.old)) }
    ensures buffers { lent_all (lent items.new spans.new edges.new marks.new closed.new kernel.new) actions.new gotos.new offered.new shifts.new cores.new only.new rr.new sr.new
        ≡ leaves words.now named
        (lent_all (lent items.old spans.old edges.old marks.old closed.old kernel.old) actions.old gotos.old offered.old shifts.old cores.old only.old rr.old sr.old) }
{
    let grammar = Grammar::check(words)?;
    let room = Room {
        states: named.states,
        items: named.items,
    };
    if room_short(
        grammar,
        room,
        items.len(),
        spans.len(),
        edges.len(),
        marks.len(),
        closed.len(),
        kernel.len(),
    ) {
        return Err(BuildRefusal::RoomShort);
    }
    if tables_short(
        grammar,
        named,
        actions.len(),
        gotos.len(),
        offered.len(),
        shifts.len(),
        cores.len(),
        only.len(),
        rr.len(),
        sr.len(),
    ) {
        return Err(BuildRefusal::RoomShort);
    }
    make(
        grammar, named, items, spans, edges, actions, gotos, offered, shifts, cores, only, rr, sr,
        marks, closed, kernel,
    )
}
