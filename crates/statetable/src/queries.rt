//! The queries of a cell, an action, a goto, an edge and a mark, in lent tables of whatever words.
ghost use Rattle.std.specs.Prelude.{◌≡◌, ◌+◌, ◌≤◌};
ghost use Rattle.block.specs.Limits.{TOKENS, RULES};
ghost use Rattle.block.specs.Block.{tokens, rules, prods};
ghost use Rattle.statetable.specs.declared.queries.QueryRefusal.{QueryRefusal};
ghost use Rattle.statetable.specs.Queries.{number_of, table_word, query_of, column_of, found_of, acted_of, decoded};

use crate::cell::Action;
use block::{BlockRefusal, Grammar};
use pager::limits::STATES;

/// Why a query finds nothing.
#[derive(Clone, Copy, Debug, PartialEq, Eq)]
pub enum QueryRefusal {
    /// The block is refused.
    Block(BlockRefusal),
    /// The count of states is out of range, or the table is shorter than so many rows.
    RoomShort,
    /// No such state, or no such token, rule, production or symbol.
    NoSuch,
}

impl QueryRefusal {
    /// Document 01's number: 1 to 6, 7 or 18.
    pub fn number(self) -> u32
        ensures { result ≡ number_of self }
    {
        match self {
            QueryRefusal::Block(refusal) => refusal.number(),
            QueryRefusal::RoomShort => 7,
            QueryRefusal::NoSuch => 18,
        }
    }
}

impl From<BlockRefusal> for QueryRefusal {
    ghost from_gives = { λ e r. r ≡ QueryRefusal.Block e };

    fn from(refused: BlockRefusal) -> Self {
        QueryRefusal::Block(refused)
    }
}

/// The word in row s and column i of as many rows as there are states, each of that width.
#[tactic(auto, unfolding(crate::specs::Queries::table_word, crate::specs::Queries::table_short, pager::specs::Call::some_less))]
fn find(states: usize, table: &[u32], width: usize, s: usize, i: usize) -> Result<u32, QueryRefusal>
    requires { width ≤ TOKENS + RULES }
    ensures { found_of result ≡ table_word states table.now width s i }
{
    if states < 1 || STATES < states || table.len() < states * width {
        return Err(QueryRefusal::RoomShort);
    }
    if s < states && i < width {
        return Ok(table[s * width + i]);
    }
    Err(QueryRefusal::NoSuch)
}

/// A table with a column for each token: actions, offered marks, shift marks.
#[tactic(auto, using(crate::proofs::Asked::query_refused, crate::proofs::Asked::query_is))]
fn by_token(
    block: &[u32],
    states: usize,
    table: &[u32],
    s: usize,
    t: usize,
) -> Result<u32, QueryRefusal>
    ensures { found_of result ≡ query_of block.now states table.now (tokens block.now) s t }
{
    let grammar = Grammar::check(block)?;
    find(states, table, grammar.tokens(), s, t)
}

// stays: docs/API.md names cell_word, offered and shift_mark, each by what it reads; all three are one call of by_token.

/// The word of the cell of state s at token t.
pub fn cell_word(
    block: &[u32],
    states: usize,
    actions: &[u32],
    s: usize,
    t: usize,
) -> Result<u32, QueryRefusal>
    ensures { found_of result ≡ query_of block.now states actions.now (tokens block.now) s t }
{
    by_token(block, states, actions, s, t)
}

/// The offered mark of state s at token t.
pub fn offered(
    block: &[u32],
    states: usize,
    marks: &[u32],
    s: usize,
    t: usize,
) -> Result<u32, QueryRefusal>
    ensures { found_of result ≡ query_of block.now states marks.now (tokens block.now) s t }
{
    by_token(block, states, marks, s, t)
}

/// The shift mark of state s at token t.
pub fn shift_mark(
    block: &[u32],
    states: usize,
    shifts: &[u32],
    s: usize,
    t: usize,
) -> Result<u32, QueryRefusal>
    ensures { found_of result ≡ query_of block.now states shifts.now (tokens block.now) s t }
{
    by_token(block, states, shifts, s, t)
}

/// The action of state s at token t.
pub fn action(
    block: &[u32],
    states: usize,
    actions: &[u32],
    s: usize,
    t: usize,
) -> Result<Action, QueryRefusal>
    ensures { acted_of result ≡ decoded (query_of block.now states actions.now (tokens block.now) s t) }
{
    Ok(Action::from(by_token(block, states, actions, s, t)?))
}

/// The goto of state s for rule r: the state and one more, 0 for none.
// stays: what may not change. `query_of` gives the table's word, as the caller's table has it; so in edge.
#[tactic(auto, using(crate::proofs::Asked::query_refused, crate::proofs::Asked::query_is))]
pub fn goto_word(
    block: &[u32],
    states: usize,
    gotos: &[u32],
    s: usize,
    r: usize,
) -> Result<u32, QueryRefusal>
    ensures { found_of result ≡ query_of block.now states gotos.now (rules block.now) s r }
{
    let grammar = Grammar::check(block)?;
    find(states, gotos, grammar.rules(), s, r)
}

/// The core-reduce mark of state s for production p.
#[tactic(auto, using(crate::proofs::Asked::query_refused, crate::proofs::Asked::query_is))]
pub fn core_mark(
    block: &[u32],
    states: usize,
    marks: &[u32],
    s: usize,
    p: usize,
) -> Result<u32, QueryRefusal>
    ensures { found_of result ≡ query_of block.now states marks.now (prods block.now) s p }
{
    let grammar = Grammar::check(block)?;
    find(states, marks, grammar.productions(), s, p)
}

/// The reduce-only mark of state s.
#[tactic(auto, using(crate::proofs::Asked::query_refused, crate::proofs::Asked::query_is))]
pub fn only_mark(block: &[u32], states: usize, marks: &[u32], s: usize) -> Result<u32, QueryRefusal>
    ensures { found_of result ≡ query_of block.now states marks.now 1 s 0 }
{
    Grammar::check(block)?;
    find(states, marks, 1, s, 0)
}

/// Where a symbol, 2r or 2t + 1, stands among the edges of a state, rules before tokens; past the last for no symbol.
// stays: with an Option, edge would have to tell a short table (7) from no such symbol (18) itself; past the last, `find` does.
#[tactic(auto, unfolding(crate::specs::Queries::column_of))]
fn column(grammar: Grammar<'_>, x: usize) -> usize
    ensures { result ≡ column_of grammar.entry.words.now x }
{
    let i = x / 2;
    if x % 2 == 0 {
        return if i < grammar.rules() {
            i
        } else {
            grammar.rules() + grammar.tokens()
        };
    }
    grammar.rules() + i
}

/// The edge of state s on a symbol, 2r or 2t + 1: the state and one more, 0 for none.
#[tactic(auto, using(crate::proofs::Asked::query_refused, crate::proofs::Asked::query_is))]
pub fn edge(
    block: &[u32],
    states: usize,
    edges: &[u32],
    s: usize,
    x: usize,
) -> Result<u32, QueryRefusal>
    ensures { found_of result ≡ query_of block.now states edges.now (rules block.now + tokens block.now) s (column_of block.now x) }
{
    let grammar = Grammar::check(block)?;
    find(
        states,
        edges,
        grammar.rules() + grammar.tokens(),
        s,
        column(grammar, x),
    )
}
