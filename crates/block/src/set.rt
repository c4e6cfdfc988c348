//! Sets of tokens.
ghost use Rattle.std.specs.Prelude.{true, false, ◌||◌, ◌↔◌, ◌≡◌, ℕ, ◌+◌, ◌-◌, ◌<◌, ◌≤◌, IfSome, MatchOption, ⊤, eqb, length, take, drop};
ghost use Rattle.std.specs.Iterator.{at_most, YieldsFirst};
ghost use Rattle.std.proofs.Math.Seq.{paste};
ghost use Rattle.block.specs.Limits.{WORDS, TOKENS};
ghost use Rattle.block.specs.Sets.{mem, In, empty, with, join, meets, next_of, IsNextOf, or_tokens, members_from};

use crate::limits::{TOKENS, WORDS};

/// A set of tokens: token t is bit t mod 64 of word t div 64.
#[derive(Clone, Copy, Debug, PartialEq, Eq)]
pub struct TokenSet {
    pub words: [u64; WORDS],
}

impl TokenSet {
    /// The set with no token.
    pub fn empty() -> Self
        ensures words { result.words ≡ empty }
        ensures members { (u : ℕ) → mem result.words u ≡ false }
    {
        TokenSet { words: [0; WORDS] }
    }

    /// The set whose words stand from `at` on.
    pub fn load(words: &[u64], at: usize) -> Self
        requires { at + WORDS ≤ length words.now }
        ensures { result.words ≡ take WORDS (drop at words.now) }
    {
        let mut set = TokenSet::empty();
        set.words.copy_from_slice(&words[at..at + WORDS]);
        set
    }

    /// Its words put from `at` on.
    pub fn store(self, words: &mut [u64], at: usize)
        requires { at + WORDS ≤ length words.old }
        ensures { words.new ≡ paste words.old at self.words WORDS }
    {
        words[at..at + WORDS].copy_from_slice(&self.words);
    }

    /// Whether the token is a member; from TOKENS on none is.
    pub fn has(self, token: usize) -> bool
        ensures { result ≡ mem self.words token }
    {
        token < TOKENS && self.words[token / 64] >> (token % 64) & 1 == 1
    }

    /// The set with one token more.
    pub fn with(self, token: usize) -> Self
        requires { token < TOKENS }
        ensures words { result.words ≡ with self.words token }
        ensures members { (u : ℕ) → mem result.words u ≡ (mem self.words u || eqb u token) }
    {
        let mut set = self;
        set.words[token / 64] |= 1 << (token % 64);
        set
    }

    /// The tokens of either.
    pub fn join(self, other: Self) -> Self
        ensures words { result.words ≡ join self.words other.words }
        ensures members { (u : ℕ) → mem result.words u ≡ (mem self.words u || mem other.words u) }
        ensures sizes { (length self.words ≡ WORDS) × (length other.words ≡ WORDS) }
    {
        let mut set = self;
        for i in 0..WORDS {
            set.words[i] |= other.words[i];
        }
        set
    }

    /// Whether some token is in both.
    pub fn meets(self, other: Self) -> bool
        ensures words { result ≡ meets self.words other.words }
        ensures members { (result ≡ true) ↔ ((u : ℕ) × In self.words u × In other.words u) }
    {
        for i in 0..WORDS {
            if self.words[i] & other.words[i] != 0 {
                return true;
            }
        }
        false
    }

    /// Whether both have the same tokens: what `==` answers.
    pub fn same(self, other: Self) -> bool
        ensures words { (result ≡ true) ↔ (self.words ≡ other.words) }
        ensures members { (result ≡ true) ↔ ((u : ℕ) → mem self.words u ≡ mem other.words u) }
    {
        self == other
    }

    /// The least member from `from` on.
    pub fn next(self, from: usize) -> Option<usize>
        ensures next { IsNextOf self.words from result }
        ensures below { IfSome result (λ t. t < TOKENS) }
        ensures number { from ≤ TOKENS → or_tokens result ≡ next_of self.words from }
    {
        (from..TOKENS).find(|token| self.has(*token))
    }

    /// Its tokens, ascending.
    pub fn tokens(self) -> Tokens
        ensures { (result.set.words ≡ self.words) × (result.from ≡ 0) }
    {
        Tokens { set: self, from: 0 }
    }
}

/// The tokens of a set from a number on, ascending.
#[derive(Clone, Copy)]
pub struct Tokens {
    pub set: TokenSet,
    pub from: usize,
}

impl Iterator for Tokens {
    type Item = usize;

    ghost can_next = { λ _. ⊤ };

    ghost next_gives = { λ s r t. IsNextOf s.set.words s.from r
        × YieldsFirst (λ x. members_from x.set.words x.from) s r t
        × (t.set.words ≡ s.set.words)
        × MatchOption r (t.from ≡ s.from) (λ n. (n < TOKENS) × (t.from ≡ n + 1)) };

    ghost remaining = { λ s. at_most (TOKENS - s.from) };

    fn next(&mut self) -> Option<usize> {
        let token = self.set.next(self.from)?;
        self.from = token + 1;
        Some(token)
    }
}
