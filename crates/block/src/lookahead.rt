//! Rule 1: nullable and FIRST of every rule, by rounds over the productions until nothing grows.
ghost use Rattle.std.specs.Prelude.{List, ◌≡◌, ◌<◌, length};
ghost use Rattle.block.specs.Block.{prods, rules};
ghost use Rattle.block.specs.First.{Ahead, ahead_of, add_prod, round_of, firsts_of, AheadIs, Small};
ghost use Rattle.block.specs.Firsts.{AheadsAre, AheadsHold, Rounded};

use crate::grammar::Grammar;
use crate::limits::RULES;
use crate::set::TokenSet;
use crate::symbol::Symbol;

/// What may stand ahead in a rest of symbols: whether it is nullable, and its FIRST.
#[derive(Clone, Copy, Debug, PartialEq, Eq)]
pub struct Lookahead {
    pub null: bool,
    pub set: TokenSet,
}

impl Lookahead {
    /// What is ahead in a rest, which may be any part of a right side, by what is ahead in each rule.
    pub fn of(rest: &[u32], aheads: &[Lookahead; RULES]) -> Lookahead
        requires { Small rest.now }
        ensures { (F : List Ahead) → AheadsHold aheads.now F → AheadIs result (ahead_of F rest.now) }
    {
        let mut set = TokenSet::empty();
        for symbol in rest {
            match Symbol::from(*symbol) {
                Symbol::Token(token) => {
                    return Lookahead {
                        null: false,
                        set: set.with(token),
                    };
                }
                Symbol::Rule(rule) => {
                    let ahead = aheads[rule];
                    set = set.join(ahead.set);
                    if !ahead.null {
                        return Lookahead { null: false, set };
                    }
                }
            }
        }
        Lookahead { null: true, set }
    }
}

/// Production p adds to its rule what its body has ahead now. Answers whether that was new.
fn add_prod(grammar: Grammar<'_>, p: usize, aheads: &mut [Lookahead; RULES]) -> bool
    requires { p < prods grammar.words.now }
    ensures { (F : List Ahead) → length F ≡ rules grammar.entry.words.now → AheadsAre aheads.old F → Rounded F (add_prod grammar.entry.words.now F p) result aheads.new }
{
    let ahead = Lookahead::of(grammar.body(p), aheads);
    let rule = grammar.rule(p);
    let old = aheads[rule];
    let new = Lookahead {
        null: old.null || ahead.null,
        set: old.set.join(ahead.set),
    };
    aheads[rule] = new;
    new != old
}

/// Every production once, in order. Answers whether something was new.
fn one_round(grammar: Grammar<'_>, aheads: &mut [Lookahead; RULES]) -> bool
    ensures { (F : List Ahead) → length F ≡ rules grammar.entry.words.now → AheadsAre aheads.old F → Rounded F (round_of grammar.entry.words.now F) result aheads.new }
{
    let mut grew = false;
    for p in 0..grammar.productions() {
        if add_prod(grammar, p, aheads) {
            grew = true;
        }
    }
    grew
}

/// What may stand ahead in each rule of a grammar.
#[derive(Clone, Copy)]
pub struct Firsts<'a> {
    pub grammar: Grammar<'a>,
    pub rules: [Lookahead; RULES],
    ghost right: { AheadsAre rules (firsts_of grammar.words.now) },
}

impl<'a> Firsts<'a> {
    /// The rounds from nothing, until one changes nothing.
    pub fn new(grammar: Grammar<'a>) -> Firsts<'a>
        ensures { result.grammar.words.now ≡ grammar.entry.words.now }
    {
        let none = Lookahead {
            null: false,
            set: TokenSet::empty(),
        };
        let mut rules = [none; RULES];
        while one_round(grammar, &mut rules) {}
        Firsts { grammar, rules }
    }

    /// What is ahead in a rest, which may be any part of a right side.
    pub fn of(&self, rest: &[u32]) -> Lookahead
        requires { Small rest.now }
        ensures { AheadIs result (ahead_of (firsts_of self.now.grammar.words.now) rest.now) }
    {
        Lookahead::of(rest, &self.rules)
    }
}
