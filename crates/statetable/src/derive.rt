//! Gotos and marks, once the cells are filled.
ghost use Rattle.std.specs.Prelude.{List, ◌≡◌, ℕ, ◌*◌, ◌≤◌, length};
ghost use Rattle.block.specs.Block.{tokens, rules, prods};
ghost use Rattle.pager.specs.Place.{State};
ghost use Rattle.pager.specs.Held.{STATES};
ghost use Rattle.pager.specs.Call.{zeroed};
ghost use Rattle.statetable.specs.ForTables.{goto_words, ForGotos, ForDerived, Derived};

use crate::marks::{mark_shifts, mark_states};
use block::Grammar;

/// The rule edges of all states: of each row of `edges`, rules before tokens, its first `rules` words.
fn copy_gotos(grammar: Grammar<'_>, states: usize, edges: &[u32], gotos: &mut [u32])
    requires { (ss : List State) × ForGotos grammar.words.now states edges.now gotos.old ss }
    ensures { (ss : List State) → ForGotos grammar.entry.words.now states edges.now gotos.old ss → gotos.new ≡ goto_words grammar.entry.words.now ss }
{
    let rules = grammar.rules();
    let width = rules + grammar.tokens();
    for s in 0..states {
        let from = s * width;
        let at = s * rules;
        gotos[at..at + rules].copy_from_slice(&edges[from..from + rules]);
    }
}

/// The parts for `most` states are zero, what stands behind them is as it was.
fn clear_derived(
    grammar: Grammar<'_>,
    most: usize,
    gotos: &mut [u32],
    shifts: &mut [u32],
    cores: &mut [u32],
    only: &mut [u32],
)
    requires fair { most ≤ STATES }
    requires gotos { most * rules grammar.words.now ≤ length gotos.old }
    requires shifts { most * tokens grammar.words.now ≤ length shifts.old }
    requires cores { most * prods grammar.words.now ≤ length cores.old }
    requires only { most ≤ length only.old }
    ensures gotos { gotos.new ≡ zeroed (most * rules grammar.entry.words.now) gotos.old }
    ensures shifts { shifts.new ≡ zeroed (most * tokens grammar.entry.words.now) shifts.old }
    ensures cores { cores.new ≡ zeroed (most * prods grammar.entry.words.now) cores.old }
    ensures only { only.new ≡ zeroed most only.old }
{
    gotos[..most * grammar.rules()].fill(0);
    shifts[..most * grammar.tokens()].fill(0);
    cores[..most * grammar.productions()].fill(0);
    only[..most].fill(0);
}

/// Gotos and marks of the states, in rooms that `most` states would fit, zero where nothing stands.
pub fn derive_tables(
    grammar: Grammar<'_>,
    most: usize,
    states: usize,
    edges: &[u32],
    actions: &[u32],
    gotos: &mut [u32],
    shifts: &mut [u32],
    cores: &mut [u32],
    only: &mut [u32],
)
    requires { (ss : List State) × (rs : List (List ℕ)) × ForDerived grammar.words.now most states edges.now actions.now gotos.old shifts.old cores.old only.old ss rs }
    ensures { (ss : List State) (rs : List (List ℕ)) → ForDerived grammar.entry.words.now most states edges.now actions.now gotos.old shifts.old cores.old only.old ss rs
        → Derived grammar.entry.words.now most ss rs gotos.old shifts.old cores.old only.old gotos.new shifts.new cores.new only.new }
{
    clear_derived(grammar, most, gotos, shifts, cores, only);
    let cells = states * grammar.tokens();
    copy_gotos(
        grammar,
        states,
        edges,
        &mut gotos[..states * grammar.rules()],
    );
    mark_shifts(&actions[..cells], &mut shifts[..cells]);
    mark_states(
        grammar,
        states,
        &actions[..cells],
        &mut cores[..states * grammar.productions()],
        &mut only[..states],
    );
}
