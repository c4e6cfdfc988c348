//! A grammar: a block that is not refused.
ghost use Rattle.std.specs.Prelude.{◌≡◌, ◌<◌, IfOk};
ghost use Rattle.block.specs.Block.{tokens, rules, prods, symbols, end_token_of, start_prod, rule_of, first_of, length_of, prod_prec, token_prec, body_of};
ghost use Rattle.block.specs.Refusal.{Good, refusal_of};
ghost use Rattle.block.specs.Refused.{told};
ghost use Rattle.block.specs.Stages.{Placed};
ghost use Rattle.block.specs.Inside.{Inside, RulesBelow};

use crate::check::check_words;
use crate::limits::HEADER;
use crate::refusal::BlockRefusal;

/// A grammar block that is not refused: its words, as document 01 lays them out.
#[derive(Clone, Copy)]
pub struct Grammar<'a> {
    pub words: &'a [u32],
    ghost good: { Good words.now },
    ghost placed: { Placed words.now },
    ghost inside: { Inside words.now },
    ghost rules_below: { RulesBelow words.now },
}

impl<'a> Grammar<'a> {
    /// The grammar that these words spell, or document 01's first refusal.
    pub fn check(words: &'a [u32]) -> Result<Grammar<'a>, BlockRefusal>
        ensures refusal { told result ≡ refusal_of words.now }
        ensures words { IfOk result (λ g. g.words.now ≡ words.now) }
    {
        check_words(words)?;
        Ok(Grammar { words })
    }

    /// How many tokens, the end token among them.
    pub fn tokens(self) -> usize
        ensures { result ≡ tokens self.entry.words.now }
    {
        self.words[0] as usize
    }

    /// How many rules.
    pub fn rules(self) -> usize
        ensures { result ≡ rules self.entry.words.now }
    {
        self.words[1] as usize
    }

    /// How many productions.
    pub fn productions(self) -> usize
        ensures { result ≡ prods self.entry.words.now }
    {
        self.words[2] as usize
    }

    /// How many symbols on all right sides.
    pub fn symbols(self) -> usize
        ensures { result ≡ symbols self.entry.words.now }
    {
        self.words[3] as usize
    }

    /// The end token.
    pub fn end(self) -> usize
        ensures { result ≡ end_token_of self.entry.words.now }
    {
        self.words[4] as usize
    }

    /// The start production.
    pub fn start(self) -> usize
        ensures { result ≡ start_prod self.entry.words.now }
    {
        self.words[5] as usize
    }

    /// The rule of production p.
    pub fn rule(self, p: usize) -> usize
        requires { p < prods self.words.now }
        ensures { result ≡ rule_of self.entry.words.now p }
    {
        self.words[HEADER + 4 * p] as usize
    }

    /// Where the right side of production p begins among the symbols.
    pub fn first(self, p: usize) -> usize
        requires { p < prods self.words.now }
        ensures { result ≡ first_of self.entry.words.now p }
    {
        self.words[HEADER + 4 * p + 1] as usize
    }

    /// How many symbols are on the right side of production p.
    pub fn length(self, p: usize) -> usize
        requires { p < prods self.words.now }
        ensures { result ≡ length_of self.entry.words.now p }
    {
        self.words[HEADER + 4 * p + 2] as usize
    }

    /// The precedence word of production p.
    pub fn precedence(self, p: usize) -> u32
        requires { p < prods self.words.now }
        ensures { result ≡ prod_prec self.entry.words.now p }
    {
        self.words[HEADER + 4 * p + 3]
    }

    /// The right side of production p, as a part of the block.
    #[tactic(auto, unfolding(crate::specs::Block::body_of))]
    pub fn body(self, p: usize) -> &'a [u32]
        requires { p < prods self.words.now }
        ensures { result.now ≡ body_of self.entry.words.now p }
    {
        let start = HEADER + 4 * self.productions() + self.first(p);
        &self.words[start..start + self.length(p)]
    }

    /// The precedence word of token t.
    pub fn token_precedence(self, t: usize) -> u32
        requires { t < tokens self.words.now }
        ensures { result ≡ token_prec self.entry.words.now t }
    {
        self.words[HEADER + 4 * self.productions() + self.symbols() + t]
    }
}
