//! The cells and offered marks of all states, the two lists and the precedence count.
ghost use Rattle.std.specs.Prelude.{List, ◌≡◌, ℕ, ◌*◌, ◌≤◌, length};
ghost use Rattle.block.specs.First.{firsts_of};
ghost use Rattle.pager.specs.Place.{State};
ghost use Rattle.pager.specs.Call.{closed_part, zeroed};
ghost use Rattle.statetable.specs.Limits.{RECORDS, RR, SR};
ghost use Rattle.statetable.specs.Cells.{cells_of};
ghost use Rattle.statetable.specs.ForTables.{ForStates, FilledBy, ForNamed, NamedBy, ForTables, TablesFilled};

use crate::fill::fill_state;
use crate::limits::{RR, SR};
use crate::records::{Caps, Tally};
use crate::refusal::BuildRefusal;
use block::limits::ITEM;
use block::{Firsts, Grammar};
use pager::kernel_of;

/// State by state, into rooms that are zero and just long enough.
fn fill_states(
    firsts: &Firsts<'_>,
    states: usize,
    items: &[u64],
    spans: &[u32],
    edges: &[u32],
    closed: &mut [u64],
    actions: &mut [u32],
    offered: &mut [u32],
    rr: &mut [u32],
    sr: &mut [u32],
    caps: Caps,
) -> Result<Tally, BuildRefusal>
    requires { (ss : List State) × ForStates firsts.now.grammar.words.now caps states items.now spans.now edges.now closed.old actions.old offered.old rr.old sr.old ss }
    ensures { (ss : List State) → ForStates firsts.now.grammar.words.now caps states items.now spans.now edges.now closed.old actions.old offered.old rr.old sr.old ss
        → FilledBy (cells_of firsts.now.grammar.words.now (firsts_of firsts.now.grammar.words.now) caps ss) firsts.now.grammar.words.now caps states result actions.new offered.new rr.new sr.new }
{
    let tokens = firsts.grammar.tokens();
    let width = firsts.grammar.rules() + tokens;
    let mut n = Tally {
        rr: 0,
        sr: 0,
        count: 0,
    };
    for s in 0..states {
        let at = s * tokens;
        let end = at + tokens;
        let from = s * width;
        let to = from + width;
        n = fill_state(
            firsts,
            kernel_of(items, spans, s),
            &edges[from..to],
            closed,
            &mut actions[at..end],
            &mut offered[at..end],
            rr,
            sr,
            caps,
            n,
            s,
        )?;
    }
    Ok(n)
}

/// The first words of the four outputs are zero.
fn clear_cells(
    cells: usize,
    caps: Caps,
    actions: &mut [u32],
    offered: &mut [u32],
    rr: &mut [u32],
    sr: &mut [u32],
)
    requires { (cells ≤ length actions.old) × (cells ≤ length offered.old) × (caps.rr ≤ RECORDS) × (caps.sr ≤ RECORDS) × (RR * caps.rr ≤ length rr.old) × (SR * caps.sr ≤ length sr.old) }
    ensures actions { actions.new ≡ zeroed cells actions.old }
    ensures offered { offered.new ≡ zeroed cells offered.old }
    ensures rr { rr.new ≡ zeroed (RR * caps.rr) rr.old }
    ensures sr { sr.new ≡ zeroed (SR * caps.sr) sr.old }
{
    actions[..cells].fill(0);
    offered[..cells].fill(0);
    rr[..RR * caps.rr].fill(0);
    sr[..SR * caps.sr].fill(0);
}

/// The filling in the first words of lent rooms, all of them zero before.
fn fill_named(
    grammar: Grammar<'_>,
    states: usize,
    caps: Caps,
    items: &[u64],
    spans: &[u32],
    edges: &[u32],
    closed: &mut [u64],
    actions: &mut [u32],
    offered: &mut [u32],
    rr: &mut [u32],
    sr: &mut [u32],
) -> Result<Tally, BuildRefusal>
    requires { (ss : List State) × ForNamed grammar.words.now caps states items.now spans.now edges.now closed.old actions.old offered.old rr.old sr.old ss }
    ensures filled { (ss : List State) → ForNamed grammar.entry.words.now caps states items.now spans.now edges.now closed.old actions.old offered.old rr.old sr.old ss
        → NamedBy (cells_of grammar.entry.words.now (firsts_of grammar.entry.words.now) caps ss) grammar.entry.words.now caps states result actions.old offered.old rr.old sr.old actions.new offered.new rr.new sr.new }
    ensures closed { closed.new ≡ zeroed (closed_part grammar.entry.words.now) closed.old }
{
    let firsts = Firsts::new(grammar);
    let cells = states * grammar.tokens();
    let work = ITEM * (grammar.symbols() + grammar.productions());
    let filled = fill_states(
        &firsts,
        states,
        items,
        spans,
        edges,
        &mut closed[..work],
        &mut actions[..cells],
        &mut offered[..cells],
        &mut rr[..RR * caps.rr],
        &mut sr[..SR * caps.sr],
        caps,
    );
    closed[..work].fill(0);
    filled
}

/// The filling in rooms that `most` states would fit, zero where nothing stands, and zero all over where it had to stop.
pub fn fill_tables(
    grammar: Grammar<'_>,
    most: usize,
    states: usize,
    caps: Caps,
    items: &[u64],
    spans: &[u32],
    edges: &[u32],
    closed: &mut [u64],
    actions: &mut [u32],
    offered: &mut [u32],
    rr: &mut [u32],
    sr: &mut [u32],
) -> Result<Tally, BuildRefusal>
    requires { (ss : List State) × ForTables grammar.words.now caps most states items.now spans.now edges.now closed.old actions.old offered.old rr.old sr.old ss }
    ensures filled { (ss : List State) → ForTables grammar.entry.words.now caps most states items.now spans.now edges.now closed.old actions.old offered.old rr.old sr.old ss
        → TablesFilled (cells_of grammar.entry.words.now (firsts_of grammar.entry.words.now) caps ss) grammar.entry.words.now caps most states result actions.old offered.old rr.old sr.old actions.new offered.new rr.new sr.new }
    ensures closed { closed.new ≡ zeroed (closed_part grammar.entry.words.now) closed.old }
{
    let cells = most * grammar.tokens();
    clear_cells(cells, caps, actions, offered, rr, sr);
    let filled = fill_named(
        grammar, states, caps, items, spans, edges, closed, actions, offered, rr, sr,
    );
    if filled.is_err() {
        clear_cells(cells, caps, actions, offered, rr, sr);
    }
    filled
}
