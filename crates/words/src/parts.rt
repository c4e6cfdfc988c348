//! The parts of a line: a part is its length, then its words.
ghost use Rattle.std.specs.Prelude.{true, List, MatchOption, [], ◌++◌, ◌↔◌, ◌≡◌, ◌≤◌, ℕ, length, drop, map, slice_index};
ghost use Rattle.words.specs.Parts.{part_of, behind_of, narrow_from, Counts};
ghost use Rattle.words.specs.Given.{as_part, narrows};
ghost use Rattle.words.specs.Wide.{each_same};

use crate::scan::index;

/// A word of a buffer, of 32 or of 64 bits.
pub trait Word: Copy {
    ghost number: { Self → ℕ };

    ghost numbers: { List Self → List ℕ };

    /// The word in 64 bits.
    fn wide(self) -> u64
        ensures { result ≡ number self };

    ghost each: { (ws : List Self) → numbers ws ≡ map number ws };
}

impl Word for u32 {
    ghost number = { λ w. w };

    ghost numbers = { λ ws. ws };

    ghost each = { each_same };

    fn wide(self) -> u64 {
        u64::from(self)
    }
}

impl Word for u64 {
    ghost number = { λ w. w };

    ghost numbers = { λ ws. ws };

    ghost each = { each_same };

    fn wide(self) -> u64 {
        self
    }
}

/// The part that the words begin with, without its length, and what stands behind it. None where no part stands whole.
pub fn split_part(words: &[u64]) -> Option<(&[u64], &[u64])>
    ensures { MatchOption result
        ((part_of words.now ≡ []) × (behind_of words.now ≡ []) × (length words.now ≤ slice_index words.now 0))
        (λ p. (p.0.now ≡ part_of words.now) × (p.1.now ≡ behind_of words.now) × (words.now ≡ as_part p.0.now ++ p.1.now)) }
{
    let (count, rest) = words.split_first()?;
    rest.split_at_checked(index(*count))
}

/// The part that the words begin with, without its length; empty where none stands whole.
// stays: what may not change. docs/API.md names part, behind and narrow, which cannot fail; split_part and given answer an Option.
pub fn part(words: &[u64]) -> &[u64]
    ensures { result.now ≡ part_of words.now }
{
    match split_part(words) {
        Some((part, _)) => part,
        None => &words[..0],
    }
}

/// What stands behind that part; empty where none stands whole.
pub fn behind(words: &[u64]) -> &[u64]
    ensures { result.now ≡ behind_of words.now }
{
    match split_part(words) {
        Some((_, rest)) => rest,
        None => &words[..0],
    }
}

/// What stands behind three parts.
pub fn behind_three(words: &[u64]) -> &[u64]
    ensures { result.now ≡ behind_of (behind_of (behind_of words.now)) }
{
    let first = behind(words);
    let second = behind(first);
    behind(second)
}

/// Puts the words into the first slots, up to the first that is no u32 word or has no slot. Answers how many.
pub fn narrow(words: &[u64], out: &mut [u32]) -> usize
    ensures put { (result, out.new) ≡ narrow_from words.now 0 out.old }
    ensures counts { Counts result out.new }
{
    for (i, word) in words.iter().enumerate() {
        if out.len() <= i {
            return i;
        }
        let Ok(narrow) = u32::try_from(*word) else {
            return i;
        };
        out[i] = narrow;
    }
    words.len()
}

/// The part that the words begin with, put into the room, and what stands behind it. None where no part stands whole, where
/// it has more words than the room, or one past 32 bits.
pub fn given<'a>(words: &'a [u64], room: &'a mut [u32]) -> Option<(&'a [u32], &'a [u64])>
    ensures { MatchOption result
        ((ws rest : List ℕ) → words.now ≡ as_part ws ++ rest → narrows (length room.old) ws ≡ true → ⊥)
        (λ g. (words.now ≡ as_part g.0.now ++ g.1.now) × (narrows (length room.old) g.0.now ≡ true)) }
{
    let (part, rest) = split_part(words)?;
    let n = narrow(part, room);
    if n != part.len() {
        return None;
    }
    Some((&room[..n], rest))
}

/// Whether two slices have the same words.
pub fn same<T: Word>(a: &[u64], b: &[T]) -> bool
    ensures { (result ≡ true) ↔ (a.now ≡ T.numbers b.now) }
{
    if a.len() != b.len() {
        return false;
    }
    for (i, word) in b.iter().enumerate() {
        if a[i] != word.wide() {
            return false;
        }
    }
    true
}

/// Whether the words begin with the buffer, as a part.
pub fn begins<T: Word>(words: &[u64], buffer: &[T]) -> bool
    ensures { (result ≡ true) ↔ (words.now ≡ as_part (T.numbers buffer.now) ++ behind_of words.now) }
{
    if words.is_empty() || words[0] != buffer.len() as u64 {
        return false;
    }
    same(part(words), buffer)
}

/// Whether the words begin with the numbers.
pub fn numbers_begin(words: &[u64], numbers: &[u64]) -> bool
    ensures { (result ≡ true) ↔ (words.now ≡ numbers.now ++ drop (length numbers.now) words.now) }
{
    words.starts_with(numbers)
}
