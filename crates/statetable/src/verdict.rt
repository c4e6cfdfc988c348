//! What a reduce or a shift makes of the cell that it comes to.
ghost use Rattle.std.specs.Prelude.{[], ◌∷◌, ◌≡◌, ◌<◌};
ghost use Rattle.knuth.specs.Tables.{shift, reduce};
ghost use Rattle.block.specs.Limits.{PRODS};
ghost use Rattle.block.specs.Block.{tokens};
ghost use Rattle.pager.specs.Held.{STATES};
ghost use Rattle.statetable.specs.Cell.{decode};
ghost use Rattle.statetable.specs.Verdict.{on_reduce, resolve, on_shift};
ghost use Rattle.statetable.specs.Laid.{verdict_of, ActionIn};

use crate::cell::Action;
use crate::refusal::BuildRefusal;
use block::Grammar;

/// The cell's word then, and what is told beside it.
#[derive(Clone, Copy, Debug, PartialEq, Eq)]
pub enum Verdict {
    Write(u32),
    /// the smaller production and the other: recorded
    TwoReduces(u32, u32, u32),
    /// a shift met a reduce of this production, and a precedence is missing: recorded
    Unsettled(u32, u32),
    /// settled by precedence: counted
    Settled(u32),
}

/// Production p is reduced in a cell with word w; `accepts` if it is the start production and the token is the end.
/// Accept and a reduce in one cell are refused.
pub fn reduce_cell(w: u32, p: u32, accepts: bool) -> Result<Verdict, BuildRefusal>
    requires { p < PRODS }
    ensures { verdict_of result ≡ on_reduce accepts p (decode w) }
{
    match Action::from(w) {
        Action::Error => Ok(Verdict::Write(if accepts { 3 } else { 4 * p + 2 })),
        Action::Shift(_) => Ok(Verdict::Write(w)),
        Action::Accept => Err(BuildRefusal::AcceptReduce {
            there: None,
            coming: p,
        }),
        Action::Reduce(r) => {
            if accepts {
                return Err(BuildRefusal::AcceptReduce {
                    there: Some(r),
                    coming: p,
                });
            }
            if r < p {
                Ok(Verdict::TwoReduces(4 * r + 2, r, p))
            } else {
                Ok(Verdict::TwoReduces(4 * p + 2, p, r))
            }
        }
    }
}

/// A shift to state `to` meets a reduce of p, and both precedences are there. Equal levels of different kinds are refused.
fn resolve_shift_reduce(
    token: u32,
    prod: u32,
    to: u32,
    p: u32,
    t: u32,
    s: u32,
) -> Result<Verdict, BuildRefusal>
    requires { (to < STATES) × (p < PRODS) }
    ensures { verdict_of result ≡ resolve token prod (shift to) (reduce p) (12 ∷ t ∷ p ∷ s ∷ []) }
{
    let level = token / 4;
    let other = prod / 4;
    if level < other {
        return Ok(Verdict::Settled(4 * p + 2));
    }
    if other < level {
        return Ok(Verdict::Settled(4 * to + 1));
    }
    if token != prod {
        return Err(BuildRefusal::MixedKinds {
            token: t,
            production: p,
            state: s,
        });
    }
    match token % 4 {
        1 => Ok(Verdict::Settled(4 * p + 2)),
        2 => Ok(Verdict::Settled(4 * to + 1)),
        _ => Ok(Verdict::Settled(0)),
    }
}

/// State `to` is shifted to at token t, in a cell of state s with word w.
pub fn shift_cell(
    grammar: Grammar<'_>,
    w: u32,
    s: u32,
    t: usize,
    to: u32,
) -> Result<Verdict, BuildRefusal>
    requires { (t < tokens grammar.words.now) × (to < STATES) × ActionIn grammar.words.now (decode w) }
    ensures { verdict_of result ≡ on_shift grammar.entry.words.now s t to (decode w) }
{
    match Action::from(w) {
        Action::Reduce(p) => {
            let token = grammar.token_precedence(t);
            let prod = grammar.precedence(p as usize);
            if token == 0 || prod == 0 {
                return Ok(Verdict::Unsettled(4 * to + 1, p));
            }
            resolve_shift_reduce(token, prod, to, p, t as u32, s)
        }
        _ => Ok(Verdict::Write(4 * to + 1)),
    }
}
