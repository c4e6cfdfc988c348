//! The two queries of a right side, for any words and any production.
ghost use Rattle.std.specs.Prelude.{◌≡◌, IfOk};
ghost use Rattle.block.specs.Block.{body_of};
ghost use Rattle.block.specs.Refusal.{body_refusal, body_part};
ghost use Rattle.block.specs.Bodies.{body_number, body_told};

use crate::grammar::Grammar;
use crate::refusal::BlockRefusal;

/// Why there is no right side.
#[derive(Clone, Copy, Debug, PartialEq, Eq)]
pub enum BodyRefusal {
    Block(BlockRefusal),
    UnknownProduction,
}

impl BodyRefusal {
    /// Document 01's number: 1 to 6, or 18.
    pub fn number(self) -> u32
        ensures { result ≡ body_number self }
    {
        match self {
            BodyRefusal::Block(refusal) => refusal.number(),
            BodyRefusal::UnknownProduction => 18,
        }
    }
}

impl From<BlockRefusal> for BodyRefusal {
    ghost use Rattle.block.specs.declared.queries.BodyRefusal.TheVariants.{Block};

    ghost from_gives = { λ refusal result. result ≡ Block refusal };

    fn from(refusal: BlockRefusal) -> Self {
        BodyRefusal::Block(refusal)
    }
}

/// The right side of production p as a part of the block, or why there is none.
fn find_body(words: &[u32], p: usize) -> Result<&[u32], BodyRefusal>
    ensures refusal { body_told result ≡ body_refusal words.now p }
    ensures part { IfOk result (λ part. part.now ≡ body_of words.now p) }
{
    let grammar = Grammar::check(words)?;
    if grammar.productions() <= p {
        return Err(BodyRefusal::UnknownProduction);
    }
    Ok(grammar.body(p))
}

/// Why `body` hands back nothing: 1 to 6 or 18, or 0 where it hands back a right side.
// stays: the C interface has a number and a part, in two calls (timkerzal_body_refusal, timkerzal_body).
pub fn body_refusal(words: &[u32], p: usize) -> u32
    ensures { result ≡ body_refusal words.now p }
{
    match find_body(words, p) {
        Ok(_) => 0,
        Err(refusal) => refusal.number(),
    }
}

/// The right side of production p as a part of the block; empty for a refused block or an unknown production.
pub fn body(words: &[u32], p: usize) -> &[u32]
    ensures { result.now ≡ body_part words.now p }
{
    match find_body(words, p) {
        Ok(part) => part,
        Err(_) => &words[..0],
    }
}
