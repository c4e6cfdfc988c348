//! The lines of a list, from the first to the last.
ghost use Rattle.std.specs.Prelude.{true, List, ◌↔◌, ◌≡◌, ℕ, length, IfOk};
ghost use Rattle.words.specs.Words.{end, next_word};
ghost use Rattle.replay.specs.Tally.{case_of, CaseIs, TallyOf};

use crate::lists::holds;
use input::{read_full, room};
use std::io;
use words::{Fault, next_line, next_word};

/// Most bytes of a list.
const TEXT: usize = 2097152;

/// Most numbers on a line.
const LINE: usize = 16384;

/// Most differing lines that are told.
const TOLD: usize = 10;

/// The cases of a text, those among them that differ, and whether only blanks stand behind them.
#[derive(Clone, Copy, Debug, PartialEq, Eq)]
pub struct Tally {
    pub cases: u64,
    pub differ: u64,
    pub whole: bool,
}

/// Whether the case on the line that comes next from `at` on holds, and the place behind the line. None where only blanks
/// follow. The room for its numbers is lent, so that it is not made anew for each line.
fn next_case(
    list: u64,
    text: &[u8],
    at: usize,
    room: &mut [u64; LINE],
) -> Result<Option<(bool, usize)>, Fault>
    ensures { CaseIs list text.now at (case_of result) }
{
    let Some((n, place)) = next_line(text, at, room)? else {
        return Ok(None);
    };
    Ok(Some((holds(list, &room[..n]), place)))
}

/// Whether only blanks follow.
fn ends(text: &[u8], at: usize) -> bool
    ensures { (result ≡ true) ↔ (next_word text.now at ≡ end) }
{
    matches!(next_word(text, at), Ok(None))
}

/// Counts the cases up to the end or a fault.
pub fn count_cases(list: u64, text: &[u8]) -> Tally
    ensures { TallyOf list text.now result }
{
    let mut at = 0;
    let mut cases = 0u64;
    let mut differ = 0u64;
    let mut room = [0; LINE];
    // No line is shorter than a byte.
    for _ in 0..text.len() {
        let Ok(case) = next_case(list, text, at, &mut room) else {
            break;
        };
        let Some((holds, next)) = case else {
            break;
        };
        at = next;
        cases += 1;
        if !holds {
            differ += 1;
        }
    }
    Tally {
        cases,
        differ,
        whole: ends(text, at),
    }
}

/// Tells the first lines that differ, and the place of a fault.
fn tell_wrong(rt: &impl Print, list: u64, text: &[u8]) -> io::Result<()> {
    let mut from = 0;
    let mut told = 0;
    let mut room = [0; LINE];
    for i in 0..text.len() {
        match next_case(list, text, from, &mut room) {
            Ok(Some((holds, next))) => {
                from = next;
                if !holds && told < TOLD {
                    println!(rt; "{} differs", i + 1)?;
                    told += 1;
                }
            }
            Ok(None) => break,
            Err(fault) => {
                println!(rt; "{} is the place of a fault", fault.place)?;
                break;
            }
        }
    }
    Ok(())
}

/// Replays the list of that number, and tells its name, the first lines that differ, how many cases it has, how many of them
/// differ, and whether it was not read whole. No contract can name the text that is read: the tally of any would do. What is
/// proved is `count_cases`. An error is that of the first read or write that fails; what was printed before it stays.
pub fn replay<R: Input + Print>(rt: &R, name: &[u8], list: u64) -> io::Result<Tally>
    ensures { IfOk result (λ r. (text : List ℕ) × TallyOf list text r) }
{
    rt.write_all(name)?;
    let mut text = room::<u8, TEXT>(0);
    let n = read_full(&mut rt.reader(), &mut text)?;
    let tally = count_cases(list, &text[..n]);
    if tally.differ != 0 || !tally.whole {
        tell_wrong(rt, list, &text[..n])?;
    }
    println!(rt; "{} cases, {} differ", tally.cases, tally.differ)?;
    if !tally.whole {
        println!(rt; "not read whole")?;
    }
    Ok(tally)
}
