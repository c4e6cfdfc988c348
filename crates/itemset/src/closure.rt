//! Rule 2: the closure of a kernel. A kernel is rows of ITEM words, ascending: the item, then its context.

ghost use Rattle.std.specs.Prelude.{List, ◌≡◌, ◌<◌, ◌≤◌, take, position};
ghost use Rattle.block.specs.Limits.{PRODS};
ghost use Rattle.block.specs.Block.{prods};
ghost use Rattle.block.specs.First.{firsts_of};
ghost use Rattle.itemset.specs.Rows.{Row, Item};
ghost use Rattle.itemset.specs.Close.{close_of};
ghost use Rattle.itemset.specs.Opens.{offer_of, told};
ghost use Rattle.itemset.specs.Lent.{ForClosure, Wrote};
ghost use Rattle.itemset.specs.Work.{TookAt, Fed, HandedOn, Worked, NoneLeft, ForSeed};

use crate::lay::lay;
use block::limits::{DOTS, ITEM, PRODS};
use block::{Firsts, Grammar, Symbol, TokenSet};

/// The rule behind an item's dot, and the tokens that the item hands to each production of that rule.
#[derive(Clone, Copy)]
pub struct Offer {
    pub rule: usize,
    pub set: TokenSet,
}

/// What an item with the context `own` hands on, if a rule is behind its dot.
fn offer_of(firsts: &Firsts<'_>, item: usize, own: TokenSet) -> Option<Offer>
    requires { Item firsts.now.grammar.words.now item }
    ensures { told result ≡ offer_of firsts.now.grammar.words.now (firsts_of firsts.now.grammar.words.now) item own.words }
{
    let body = firsts.grammar.body(item / DOTS);
    let dot = item % DOTS;
    if body.len() <= dot {
        return None;
    }
    match Symbol::from(body[dot]) {
        Symbol::Token(_) => None,
        Symbol::Rule(rule) => {
            let ahead = firsts.of(&body[dot + 1..]);
            let set = if ahead.null {
                ahead.set.join(own)
            } else {
                ahead.set
            };
            Some(Offer { rule, set })
        }
    }
}

/// The items with dot 0 of a closure, by production: which have still to be looked at, which are there, and their contexts.
#[derive(Drop)]
pub struct Closure {
    pub todo: [bool; PRODS],
    pub here: [bool; PRODS],
    pub contexts: [TokenSet; PRODS],
}

impl Closure {
    /// Production p takes the tokens. If it was not there or grows, it has to be looked at.
    fn take(&mut self, p: usize, tokens: TokenSet)
        requires { p < PRODS }
        ensures { TookAt p tokens.words self.old self.new }
    {
        let joined = self.contexts[p].join(tokens);
        if !self.here[p] || joined != self.contexts[p] {
            self.todo[p] = true;
            self.here[p] = true;
            self.contexts[p] = joined;
        }
    }

    /// Every production of the rule takes the tokens.
    fn feed(&mut self, grammar: Grammar<'_>, rule: usize, tokens: TokenSet)
        ensures { Fed grammar.entry.words.now rule tokens.words (prods grammar.entry.words.now) self.old self.new }
    {
        for p in 0..grammar.productions() {
            if grammar.rule(p) == rule {
                self.take(p, tokens);
            }
        }
    }

    /// An item with the context `own` hands on what it has.
    fn hand_on(&mut self, firsts: &Firsts<'_>, item: usize, own: TokenSet)
        requires { Item firsts.now.grammar.words.now item }
        ensures { HandedOn firsts.now.grammar.words.now (firsts_of firsts.now.grammar.words.now) item own.words self.old self.new }
    {
        if let Some(offer) = offer_of(firsts, item, own) {
            self.feed(firsts.grammar, offer.rule, offer.set);
        }
    }

    /// The kernel's items come in: one with dot 0 itself, of another what it hands on.
    fn seed(&mut self, firsts: &Firsts<'_>, kernel: &[u64])
        requires { (K : List Row) × ForSeed firsts.now.grammar.words.now kernel.now K self.old }
        ensures { (K : List Row) → ForSeed firsts.now.grammar.words.now kernel.now K self.old → Worked firsts.now.grammar.words.now K self.new }
    {
        let (rows, _) = kernel.as_chunks::<ITEM>();
        for row in rows {
            let item = row[0] as usize;
            let own = TokenSet::load(row, 1);
            if item % DOTS == 0 {
                self.take(item / DOTS, own);
            } else {
                self.hand_on(firsts, item, own);
            }
        }
    }

    /// The first of the first n productions that has to be looked at.
    fn next(&self, n: usize) -> Option<usize>
        requires { n ≤ PRODS }
        ensures { result ≡ position (λ mark. mark) (take n self.now.todo) }
    {
        self.todo[..n].iter().position(|mark| *mark)
    }

    /// Productions hand on what they have until none has to be looked at.
    fn settle(&mut self, firsts: &Firsts<'_>)
        requires { (K : List Row) × Worked firsts.now.grammar.words.now K self.old }
        ensures work { (K : List Row) → Worked firsts.now.grammar.words.now K self.old → Worked firsts.now.grammar.words.now K self.new }
        ensures none { NoneLeft firsts.now.grammar.words.now self.new }
    {
        let prods = firsts.grammar.productions();
        while let Some(p) = self.next(prods) {
            self.todo[p] = false;
            self.hand_on(firsts, DOTS * p, self.contexts[p]);
        }
    }
}

/// The closed rows of a kernel, ascending. Answers how many they are.
pub fn close(firsts: &Firsts<'_>, kernel: &[u64], out: &mut [u64]) -> usize
    requires { (K : List Row) × ForClosure firsts.now.grammar.words.now kernel.now out.old K }
    ensures { (K : List Row) → ForClosure firsts.now.grammar.words.now kernel.now out.old K → Wrote (close_of firsts.now.grammar.words.now (firsts_of firsts.now.grammar.words.now) K) result out.old out.new }
{
    let mut closure = Closure {
        todo: [false; PRODS],
        here: [false; PRODS],
        contexts: [TokenSet::empty(); PRODS],
    };
    closure.seed(firsts, kernel);
    closure.settle(firsts);
    lay(firsts.grammar, kernel, &closure, out)
}
