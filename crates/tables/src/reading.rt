//! The words of a block, out of a text.
ghost use Rattle.std.specs.Prelude.{◌≡◌};
ghost use Rattle.tables.specs.declared.reading.NoBlock.TheVariants.{NoWord};
ghost use Rattle.tables.specs.Taken.{Fits};

use block::limits::{HEADER, PRODS, SYMBOLS, TOKENS};
use thiserror::Error;
use words::{Fault, next_word};

/// Words of the longest block that is not refused.
pub const BLOCK: usize = HEADER + 4 * PRODS + SYMBOLS + TOKENS;

/// Bytes of a text: more than so many words of ten digits, with a blank behind each.
pub const TEXT: usize = 131072;

/// Why a text spells no block.
#[derive(Clone, Copy, Debug, PartialEq, Eq, Error)]
pub enum NoBlock {
    /// The place of what is no digit, or behind a number that is larger than any word.
    #[error("no word at byte {0}")]
    NoWord(usize),
    /// The place behind the last word that there is room for.
    #[error("no room for the word at byte {0}")]
    WordRoom(usize),
    /// The place behind the last byte that there is room for.
    #[error("no room for the text at byte {0}")]
    TextRoom(usize),
}

impl From<Fault> for NoBlock {
    ghost from_gives = { λ f r. r ≡ NoWord f.place };

    fn from(fault: Fault) -> Self {
        NoBlock::NoWord(fault.place)
    }
}

/// Puts all words of the text into the first slots. Answers how many.
pub fn take_block(text: &[u8], out: &mut [u32]) -> Result<usize, NoBlock>
    ensures { Fits result out.new }
{
    let mut at = 0;
    for n in 0..out.len() {
        let Some((number, next)) = next_word(text, at)? else {
            return Ok(n);
        };
        let Ok(word) = u32::try_from(number) else {
            return Err(NoBlock::NoWord(next));
        };
        out[n] = word;
        at = next;
    }
    match next_word(text, at)? {
        Some(_) => Err(NoBlock::WordRoom(at)),
        None => Ok(out.len()),
    }
}
