//! The cells of one state: its complete items, then its token edges.
ghost use Rattle.std.specs.Prelude.{List, map, ◌≡◌, ℕ, suc, ◌+◌, ◌*◌, ◌<◌};
ghost use Rattle.block.specs.Block.{tokens, prods};
ghost use Rattle.block.specs.Sets.{members};
ghost use Rattle.block.specs.First.{firsts_of};
ghost use Rattle.itemset.specs.Rows.{Row};
ghost use Rattle.pager.specs.Lists.{each, walk};
ghost use Rattle.pager.specs.Place.{State};
ghost use Rattle.pager.specs.Held.{STATES};
ghost use Rattle.statetable.specs.Events.{completes, leads, of_row, of_edges};
ghost use Rattle.statetable.specs.Cells.{Told, Fill, settle, fill, fill_state};
ghost use Rattle.statetable.specs.Laid.{settles_of, LeftBy};
ghost use Rattle.statetable.specs.ForFilling.{ForRow, ForEdges, ForState};

use crate::limits::{RR, SR};
use crate::records::{Caps, Records, Tally};
use crate::refusal::BuildRefusal;
use crate::verdict::{Verdict, reduce_cell, shift_cell};
use block::limits::{DOTS, ITEM};
use block::{Firsts, Grammar, TokenSet};
use itemset::close;

/// The row of a state and the two lists, in lent room; most records of each list, and what was told so far.
#[derive(Drop)]
pub struct Filling<'a> {
    pub cells: &'a mut [u32],
    pub offered: &'a mut [u32],
    pub rr: &'a mut [u32],
    pub sr: &'a mut [u32],
    pub caps: Caps,
    pub told: Tally,
    pub state: u32,
}

impl Filling<'_> {
    ghost use Rattle.statetable.specs.Filled.{IsSame, ForVerdictIn, SettledIn, LaidIn, LeftIn};

    /// The verdict on cell t; 10 where its list has no room for the record that it asks for.
    fn settle(&mut self, t: usize, v: Verdict) -> Result<(), BuildRefusal>
        requires { (f : Fill) × ForVerdictIn f t self.old }
        ensures settled { (f : Fill) → ForVerdictIn f t self.old → SettledIn (settle self.old.caps self.old.state t (settles_of v) f) self.old result self.new }
        ensures offered { self.new.offered.now ≡ self.old.offered.now }
        ensures same { IsSame self.old self.new }
    {
        match v {
            Verdict::Write(w) => {
                self.cells[t] = w;
            }
            Verdict::TwoReduces(w, smaller, other) => {
                let mut list = Records::<RR> {
                    words: self.rr,
                    most: self.caps.rr,
                    count: self.told.rr,
                };
                list.push([t as u32, smaller, other, self.state])?;
                self.told.rr += 1;
                self.cells[t] = w;
            }
            Verdict::Unsettled(w, p) => {
                let mut list = Records::<SR> {
                    words: self.sr,
                    most: self.caps.sr,
                    count: self.told.sr,
                };
                list.push([t as u32, p, self.state])?;
                self.told.sr += 1;
                self.cells[t] = w;
            }
            Verdict::Settled(w) => {
                self.cells[t] = w;
                self.told.count += 1;
            }
        }
        Ok(())
    }

    /// One token of a complete item of production p.
    fn complete_at(&mut self, grammar: Grammar<'_>, p: usize, t: usize) -> Result<(), BuildRefusal>
        requires { (p < prods grammar.words.now) × (t < tokens grammar.words.now) × ((f : Fill) × LaidIn grammar.words.now (self.old.state * tokens grammar.words.now) f self.old) }
        ensures left { (f : Fill) → LaidIn grammar.entry.words.now (self.old.state * tokens grammar.entry.words.now) f self.old
            → LeftIn (fill grammar.entry.words.now self.old.caps self.old.state f (completes t p)) grammar.entry.words.now (self.old.state * tokens grammar.entry.words.now) self.old result self.new }
        ensures same { IsSame self.old self.new }
    {
        self.offered[t] = 1;
        let start = grammar.start();
        let end = grammar.end();
        let accepts = p == start && t == end;
        let v = reduce_cell(self.cells[t], p as u32, accepts)?;
        self.settle(t, v)
    }

    /// The edge on token t, to state `to`.
    fn shift_at(&mut self, grammar: Grammar<'_>, t: usize, to: usize) -> Result<(), BuildRefusal>
        requires { (t < tokens grammar.words.now) × (to < STATES) × ((f : Fill) × LaidIn grammar.words.now (self.old.state * tokens grammar.words.now + t) f self.old) }
        ensures left { (f : Fill) → LaidIn grammar.entry.words.now (self.old.state * tokens grammar.entry.words.now + t) f self.old
            → LeftIn (fill grammar.entry.words.now self.old.caps self.old.state f (leads t to)) grammar.entry.words.now (self.old.state * tokens grammar.entry.words.now + suc t) self.old result self.new }
        ensures same { IsSame self.old self.new }
    {
        self.offered[t] = 1; // and it stays, also where precedence makes the cell an error
        let v = shift_cell(grammar, self.cells[t], self.state, t, to as u32)?;
        self.settle(t, v)
    }

    /// The tokens of a complete item of production p, ascending.
    fn reduce_item(
        &mut self,
        grammar: Grammar<'_>,
        p: usize,
        set: TokenSet,
    ) -> Result<(), BuildRefusal>
        requires { (p < prods grammar.words.now) × ((f : Fill) × LaidIn grammar.words.now (self.old.state * tokens grammar.words.now) f self.old) }
        ensures left { (f : Fill) → LaidIn grammar.entry.words.now (self.old.state * tokens grammar.entry.words.now) f self.old
            → LeftIn (walk (fill grammar.entry.words.now self.old.caps self.old.state) f (map (λ t. completes t p) (members (tokens grammar.entry.words.now) set.words)))
            grammar.entry.words.now (self.old.state * tokens grammar.entry.words.now) self.old result self.new }
        ensures same { IsSame self.old self.new }
    {
        let tokens = grammar.tokens();
        for t in set.tokens() {
            if tokens <= t {
                break;
            }
            self.complete_at(grammar, p, t)?;
        }
        Ok(())
    }

    /// The complete items among closed rows, ascending.
    fn reduces(&mut self, grammar: Grammar<'_>, closed: &[u64]) -> Result<(), BuildRefusal>
        requires { ((C : List Row) × ForRow grammar.words.now closed.now C) × ((f : Fill) × LaidIn grammar.words.now (self.old.state * tokens grammar.words.now) f self.old) }
        ensures left { (C : List Row) (f : Fill) → ForRow grammar.entry.words.now closed.now C
            → LaidIn grammar.entry.words.now (self.old.state * tokens grammar.entry.words.now) f self.old
            → LeftIn (walk (fill grammar.entry.words.now self.old.caps self.old.state) f (each (of_row grammar.entry.words.now) C))
            grammar.entry.words.now (self.old.state * tokens grammar.entry.words.now) self.old result self.new }
        ensures same { IsSame self.old self.new }
    {
        for i in 0..closed.len() / ITEM {
            let item = closed[ITEM * i] as usize;
            let p = item / DOTS;
            if item % DOTS == grammar.length(p) {
                self.reduce_item(grammar, p, TokenSet::load(closed, ITEM * i + 1))?;
            }
        }
        Ok(())
    }

    /// The token edges, ascending.
    fn shifts(&mut self, grammar: Grammar<'_>, edges: &[u32]) -> Result<(), BuildRefusal>
        requires { ForEdges grammar.words.now edges.now × ((f : Fill) × LaidIn grammar.words.now (self.old.state * tokens grammar.words.now) f self.old) }
        ensures left { (f : Fill) → LaidIn grammar.entry.words.now (self.old.state * tokens grammar.entry.words.now) f self.old
            → LeftIn (walk (fill grammar.entry.words.now self.old.caps self.old.state) f (of_edges 0 edges.now))
            grammar.entry.words.now (self.old.state * tokens grammar.entry.words.now + tokens grammar.entry.words.now) self.old result self.new }
        ensures same { IsSame self.old self.new }
    {
        for (t, edge) in edges.iter().enumerate() {
            let e = *edge as usize;
            if 0 < e {
                self.shift_at(grammar, t, e - 1)?;
            }
        }
        Ok(())
    }

    /// The row of the state, which is empty, from its kernel and its edges.
    pub fn fill(
        &mut self,
        firsts: &Firsts<'_>,
        kernel: &[u64],
        edges: &[u32],
        closed: &mut [u64],
    ) -> Result<(), BuildRefusal>
        requires { (st : State) × (k : Told) × ForState firsts.now.grammar.words.now self.old.caps self.old.state kernel.now edges.now closed.old self.old.told self.old.cells.now self.old.offered.now self.old.rr.now self.old.sr.now st k }
        ensures left { (st : State) (k : Told) → ForState firsts.now.grammar.words.now self.old.caps self.old.state kernel.now edges.now closed.old self.old.told self.old.cells.now self.old.offered.now self.old.rr.now self.old.sr.now st k
            → LeftIn (fill_state firsts.now.grammar.words.now (firsts_of firsts.now.grammar.words.now) self.old.caps self.old.state k st)
            firsts.now.grammar.words.now (self.old.state * tokens firsts.now.grammar.words.now + tokens firsts.now.grammar.words.now) self.old result self.new }
        ensures same { IsSame self.old self.new }
    {
        let grammar = firsts.grammar;
        let rows = close(firsts, kernel, closed);
        self.reduces(grammar, &closed[..ITEM * rows])?;
        self.shifts(grammar, &edges[grammar.rules()..])
    }
}

/// The row of state s, which is empty, from its kernel and its edges: the numbers of what was told then.
pub fn fill_state(
    firsts: &Firsts<'_>,
    kernel: &[u64],
    edges: &[u32],
    closed: &mut [u64],
    cells: &mut [u32],
    offered: &mut [u32],
    rr: &mut [u32],
    sr: &mut [u32],
    caps: Caps,
    told: Tally,
    s: usize,
) -> Result<Tally, BuildRefusal>
    requires { (st : State) × (k : Told) × ForState firsts.now.grammar.words.now caps s kernel.now edges.now closed.old told cells.old offered.old rr.old sr.old st k }
    ensures { (st : State) (k : Told) → ForState firsts.now.grammar.words.now caps s kernel.now edges.now closed.old told cells.old offered.old rr.old sr.old st k
        → LeftBy (fill_state firsts.now.grammar.words.now (firsts_of firsts.now.grammar.words.now) caps s k st)
        firsts.now.grammar.words.now caps s (s * tokens firsts.now.grammar.words.now + tokens firsts.now.grammar.words.now) result cells.new offered.new rr.new sr.new }
{
    let mut filling = Filling {
        cells,
        offered,
        rr,
        sr,
        caps,
        told,
        state: s as u32,
    };
    filling.fill(firsts, kernel, edges, closed)?;
    Ok(filling.told)
}
