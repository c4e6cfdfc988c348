//! The work room of a graph: what is lent, and what is left in it.
ghost use Rattle.std.specs.Prelude.{true, replicate, length, ◌↔◌, ◌≡◌, ◌≤◌};
ghost use Rattle.listed_block.specs.Rooms.{ROOM};
ghost use Rattle.listed_pager.specs.Work.{lent_of, work_of, zeros_of, Cleared, WorkLeft};

use block::Grammar;
use block::limits::ITEM;
use listed_block::rooms::bounded;
use words::Word;

/// Words lent beyond what is needed, to see that they stay as they were.
const MORE: usize = 7;

/// Words of the work room that a graph needs, and clears.
#[derive(Clone, Copy, Debug, PartialEq, Eq)]
pub struct Work {
    pub marks: usize,
    pub closed: usize,
    pub kernel: usize,
}

/// The words lent where so many are needed.
pub fn lent(needed: usize) -> usize
    ensures lent { result ≡ lent_of needed }
    ensures most { result ≤ ROOM }
{
    bounded(bounded(needed) + MORE)
}

/// The words that a graph of so many states needs; a bad block needs no rows.
pub fn work_of(block: &[u32], states: usize) -> Work
    ensures { result ≡ work_of block.now states }
{
    let marks = 2 * bounded(states);
    let Ok(grammar) = Grammar::check(block) else {
        return Work {
            marks,
            closed: 0,
            kernel: 0,
        };
    };
    let symbols = grammar.symbols();
    let prods = grammar.productions();
    Work {
        marks,
        closed: ITEM * (symbols + prods),
        kernel: ITEM * symbols,
    }
}

/// Whether every word is this one.
fn full<T: Word>(words: &[T], all: u64) -> bool
    ensures { (result ≡ true) ↔ (T.numbers words.now ≡ replicate (length words.now) all) }
{
    for word in words {
        if word.wide() != all {
            return false;
        }
    }
    true
}

/// Whether the first words are zero, so many, and those behind them the fill.
fn cleared<T: Word>(room: &[T], zeros: usize, fill: u64) -> bool
    ensures { (result ≡ true) ↔ Cleared zeros fill (T.numbers room.now) }
{
    let (front, behind) = room.split_at(zeros.min(room.len()));
    if !full(front, 0) {
        return false;
    }
    full(behind, fill)
}

/// The words that the answer of that number leaves zero: 1 to 7 leave all as it was.
fn zeros(number: u64, needed: usize) -> usize
    ensures { result ≡ zeros_of number needed }
{
    match number {
        1..=7 => 0,
        _ => needed,
    }
}

/// Whether the work room was left as the answer of that number leaves it.
pub fn work_holds(
    number: u64,
    work: Work,
    fill: u32,
    marks: &[u32],
    closed: &[u64],
    kernel: &[u64],
) -> bool
    ensures { (result ≡ true) ↔ WorkLeft number work fill marks.now closed.now kernel.now }
{
    let fill = u64::from(fill);
    if !cleared(marks, zeros(number, work.marks), fill) {
        return false;
    }
    if !cleared(closed, zeros(number, work.closed), fill) {
        return false;
    }
    cleared(kernel, zeros(number, work.kernel), fill)
}
