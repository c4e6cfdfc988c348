//! The checks of a grammar block: document 01's refusals 1 to 6, in its order.
// stays: what the checks so far have shown is a clause of the next; a type for each stage would be five that one check makes and the next takes.
ghost use Rattle.std.specs.Prelude.{not, ◌≡◌, OnOk};
ghost use Rattle.block.specs.Block.{tokens, prods, prod_prec, token_prec};
ghost use Rattle.block.specs.Lists.{any, upto};
ghost use Rattle.block.specs.Refusal.{short_block, too_large, misplaced, bad_production, start_again, bad_start, good_symbol, bad_symbol, good_prec, bad_precedence};
ghost use Rattle.block.specs.Stages.{Headed, Sized, Placed, Listed, Started};
ghost use Rattle.block.specs.Stage.{refuse_if, checked};

use crate::limits::{HEADER, LENGTH, LEVEL, PRODS, RULES, SYMBOLS, TOKENS};
use crate::refusal::BlockRefusal;

/// It has the words of a header; else refusal 1.
#[tactic(auto, unfolding(crate::specs::Refusal::short_block))]
fn has_header(words: &[u32]) -> Result<(), BlockRefusal>
    ensures refusal { result ≡ refuse_if (short_block words.now) BlockRefusal.BadHeader }
    ensures headed { OnOk result (Headed words.now) }
{
    if words.len() < HEADER {
        return Err(BlockRefusal::BadHeader);
    }
    Ok(())
}

/// Tokens, rules, productions and symbols are as many as there may be; else refusal 2.
#[tactic(auto, unfolding(crate::specs::Refusal::too_large))]
fn has_sizes(words: &[u32]) -> Result<(), BlockRefusal>
    requires { Headed words.now }
    ensures refusal { result ≡ refuse_if (too_large words.now) BlockRefusal.TooLarge }
    ensures sized { OnOk result (Sized words.now) }
{
    if !(1..=TOKENS).contains(&(words[0] as usize))
        || !(1..=RULES).contains(&(words[1] as usize))
        || !(1..=PRODS).contains(&(words[2] as usize))
        || SYMBOLS < words[3] as usize
    {
        return Err(BlockRefusal::TooLarge);
    }
    Ok(())
}

/// Its parts stand where the sizes put them, and nothing behind; else refusal 1.
#[tactic(auto, unfolding(crate::specs::Refusal::misplaced))]
fn has_places(words: &[u32]) -> Result<(), BlockRefusal>
    requires { Sized words.now }
    ensures refusal { result ≡ refuse_if (misplaced words.now) BlockRefusal.BadHeader }
    ensures placed { OnOk result (Placed words.now) }
{
    let symbols_at = HEADER + 4 * words[2] as usize;
    let precs_at = symbols_at + words[3] as usize;
    if words[6] as usize != HEADER
        || words[7] as usize != symbols_at
        || words[8] as usize != precs_at
        || words.len() != precs_at + words[0] as usize
    {
        return Err(BlockRefusal::BadHeader);
    }
    Ok(())
}

/// Each production has a rule, its right side begins where the one before it ends and is short enough, and the last ends with the
/// symbols; else refusal 3.
fn has_productions(words: &[u32]) -> Result<(), BlockRefusal>
    requires { Placed words.now }
    ensures refusal { result ≡ refuse_if (bad_production words.now) BlockRefusal.BadProduction }
    ensures listed { OnOk result (Listed words.now) }
{
    let mut sum = 0;
    for p in 0..words[2] as usize {
        let at = HEADER + 4 * p;
        let n = words[at + 2] as usize;
        if words[1] <= words[at] || words[at + 1] as usize != sum || LENGTH < n {
            return Err(BlockRefusal::BadProduction);
        }
        sum += n;
    }
    if sum != words[3] as usize {
        return Err(BlockRefusal::BadProduction);
    }
    Ok(())
}

/// No other production has the start production's rule; else refusal 4.
fn starts_once(words: &[u32]) -> Result<(), BlockRefusal>
    requires { Started words.now }
    ensures { result ≡ refuse_if (any (start_again words.now) (upto (prods words.now))) BlockRefusal.BadStart }
{
    let start = words[5] as usize;
    let rule = words[HEADER + 4 * start];
    for q in 0..words[2] as usize {
        if words[HEADER + 4 * q] == rule && q != start {
            return Err(BlockRefusal::BadStart);
        }
    }
    Ok(())
}

/// The end token is a token, and the start production one whose right side is a rule, the only production of its own; else refusal 4.
#[tactic(auto, unfolding(crate::specs::Refusal::bad_start))]
fn has_start(words: &[u32]) -> Result<(), BlockRefusal>
    requires { Listed words.now }
    ensures refusal { result ≡ refuse_if (bad_start words.now) BlockRefusal.BadStart }
    ensures started { OnOk result (Started words.now) }
{
    let prods = words[2] as usize;
    let start = words[5] as usize;
    if words[0] <= words[4] || prods <= start {
        return Err(BlockRefusal::BadStart);
    }
    let at = HEADER + 4 * start;
    if words[at + 2] != 1 || words[HEADER + 4 * prods + words[at + 1] as usize] % 2 != 0 {
        return Err(BlockRefusal::BadStart);
    }
    starts_once(words)
}

/// Whether a symbol is a rule but the start rule, or a token but the end token.
#[tactic(auto, unfolding(crate::specs::Refusal::good_symbol))]
fn is_symbol(words: &[u32], x: u32) -> bool
    requires { Started words.now }
    ensures { result ≡ good_symbol words.now x }
{
    if x % 2 == 0 {
        x / 2 < words[1] && x / 2 != words[HEADER + 4 * words[5] as usize]
    } else {
        x / 2 < words[0] && x / 2 != words[4]
    }
}

/// Each symbol of the right sides is a rule but the start rule, or a token but the end token; else refusal 5.
fn has_symbols(words: &[u32]) -> Result<(), BlockRefusal>
    requires { Started words.now }
    ensures { result ≡ refuse_if (bad_symbol words.now) BlockRefusal.BadSymbol }
{
    let at = HEADER + 4 * words[2] as usize;
    for i in 0..words[3] as usize {
        if !is_symbol(words, words[at + i]) {
            return Err(BlockRefusal::BadSymbol);
        }
    }
    Ok(())
}

/// Whether a word is a precedence: none, or a kind and a level.
#[tactic(auto, unfolding(crate::specs::Refusal::good_prec))]
fn is_precedence(word: u32) -> bool
    ensures { result ≡ good_prec word }
{
    word == 0 || word % 4 != 0 && word as usize / 4 <= LEVEL
}

/// Each production has a precedence; else refusal 6.
fn has_production_precedences(words: &[u32]) -> Result<(), BlockRefusal>
    requires { Placed words.now }
    ensures { result ≡ refuse_if (any (λ p. not (good_prec (prod_prec words.now p))) (upto (prods words.now))) BlockRefusal.BadPrecedence }
{
    for p in 0..words[2] as usize {
        if !is_precedence(words[HEADER + 4 * p + 3]) {
            return Err(BlockRefusal::BadPrecedence);
        }
    }
    Ok(())
}

/// Each token has a precedence; else refusal 6.
fn has_token_precedences(words: &[u32]) -> Result<(), BlockRefusal>
    requires { Placed words.now }
    ensures { result ≡ refuse_if (any (λ t. not (good_prec (token_prec words.now t))) (upto (tokens words.now))) BlockRefusal.BadPrecedence }
{
    let at = HEADER + 4 * words[2] as usize + words[3] as usize;
    for t in 0..words[0] as usize {
        if !is_precedence(words[at + t]) {
            return Err(BlockRefusal::BadPrecedence);
        }
    }
    Ok(())
}

/// Each production and each token has a precedence; else refusal 6.
#[tactic(auto, unfolding(crate::specs::Refusal::bad_precedence))]
fn has_precedences(words: &[u32]) -> Result<(), BlockRefusal>
    requires { Placed words.now }
    ensures { result ≡ refuse_if (bad_precedence words.now) BlockRefusal.BadPrecedence }
{
    has_production_precedences(words)?;
    has_token_precedences(words)
}

/// Document 01's first refusal of a block.
pub(crate) fn check_words(words: &[u32]) -> Result<(), BlockRefusal>
    ensures { result ≡ checked words.now }
{
    has_header(words)?;
    has_sizes(words)?;
    has_places(words)?;
    has_productions(words)?;
    has_start(words)?;
    has_symbols(words)?;
    has_precedences(words)
}
