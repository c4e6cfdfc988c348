//! The lists by their numbers: whether a line holds.
ghost use Rattle.std.specs.Prelude.{true, MatchOption, ◌↔◌, ◌≡◌, ◌≤◌};
ghost use Rattle.replay.specs.Lists.{CaseOf, LineCase};
ghost use Rattle.replay.specs.Numbers.{number_of};

use listed_block::{block_holds, body_holds, firsts_hold};
use listed_itemset::closure_holds;
use listed_machine::run_holds;
use listed_pager::graph_holds;
use listed_statetable::{build_holds, query_holds};

/// The lists, by the numbers that the list of refusals gives them; those that it leaves out follow.
#[derive(Clone, Copy, Debug, PartialEq, Eq)]
pub enum List {
    Blocks,
    Bodies,
    Graphs,
    Tables,
    Queries,
    Runs,
    Firsts,
    Closures,
    /// Each line names its call by one of the numbers above.
    Refusals,
}

impl List {
    /// The list's number.
    pub fn number(self) -> u64
        ensures { result ≡ number_of self }
    {
        self as u64
    }

    /// The list of that number. None where there is none.
    fn of(number: u64) -> Option<List>
        ensures { MatchOption result (9 ≤ number) (λ list. number_of list ≡ number) }
    {
        Some(match number {
            0 => List::Blocks,
            1 => List::Bodies,
            2 => List::Graphs,
            3 => List::Tables,
            4 => List::Queries,
            5 => List::Runs,
            6 => List::Firsts,
            7 => List::Closures,
            8 => List::Refusals,
            _ => return None,
        })
    }

    /// Whether the library answers what the case of a call expects.
    #[tactic(auto, unfolding(crate::specs::Lists::CaseOf))]
    fn call_holds(self, words: &[u64]) -> bool
        ensures { (result ≡ true) ↔ CaseOf (number_of self) words.now }
    {
        match self {
            List::Blocks => block_holds(words),
            List::Bodies => body_holds(words),
            List::Graphs => graph_holds(words),
            List::Tables => build_holds(words),
            List::Queries => query_holds(words),
            List::Runs => run_holds(words),
            List::Firsts => firsts_hold(words),
            List::Closures => closure_holds(words),
            List::Refusals => false,
        }
    }
}

/// Whether the library answers what the case of a call of that number expects.
fn call_holds(list: u64, words: &[u64]) -> bool
    ensures { (result ≡ true) ↔ CaseOf list words.now }
{
    match List::of(list) {
        Some(list) => list.call_holds(words),
        None => false,
    }
}

/// Whether the library answers what the case expects; in the list of refusals the call stands first. Of a list that is not
/// there no line holds.
// stays: what may not change. holds, count_cases and replay answer for any number, also one that no list has.
pub fn holds(list: u64, words: &[u64]) -> bool
    ensures { (result ≡ true) ↔ LineCase list words.now }
{
    if list != List::Refusals.number() {
        return call_holds(list, words);
    }
    let Some((call, rest)) = words.split_first() else {
        return false;
    };
    // No list behind that of runs has calls that refuse.
    if List::Runs.number() < *call {
        return false;
    }
    call_holds(*call, rest)
}
