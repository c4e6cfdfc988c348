//! Answers as words: the number of a refusal, 0 for none, and the values behind it.
ghost use Rattle.std.specs.Prelude.{◌≡◌};
ghost use Rattle.pager.specs.Call as graph;
ghost use Rattle.pager.specs.Lists.{refused};
ghost use Rattle.statetable.specs.Build as build;
ghost use Rattle.statetable.specs.Refusals.{values_of};
ghost use Rattle.statetable.specs.Queries.{found_of, acted_of};
ghost use Rattle.machine.specs.Call as machine;
ghost use Rattle.timkerzal.specs.Words.{built_words, graph_words, ran_words, found_words, act_words};

use machine::{Ended, How, RunRefusal};
use pager::{GraphRefusal, Kept};
use statetable::{Action, BuildRefusal, Counts, QueryRefusal};

/// Words of the answer of a build.
pub const BUILT: usize = 7;

/// Words of the answer of a graph.
pub const GRAPHED: usize = 4;

/// Words of the answer of a run.
pub const RAN: usize = 6;

/// Words of the answer of a query.
pub const FOUND: usize = 2;

/// Words of the answer of a query of an action.
pub const ACTS: usize = 3;

/// 0, states, items, states before collection, records of the two lists, precedence count; or a refusal and its values.
pub fn built_words(r: Result<Counts, BuildRefusal>) -> [u64; BUILT]
    ensures { result ≡ built_words (build.answer_of r) }
{
    match r {
        Ok(k) => [
            0,
            k.states as u64,
            k.items as u64,
            k.before as u64,
            k.rr as u64,
            k.sr as u64,
            k.count as u64,
        ],
        Err(refusal) => refused_words(refusal),
    }
}

/// The number of a refusal and its values: of 11 the reduce that was there and one more, or 0 for none, and the production
/// that came; of 12 token, production, state.
fn refused_words(refusal: BuildRefusal) -> [u64; BUILT]
    ensures { result ≡ built_words (refused (values_of refusal)) }
{
    let number = refusal.number() as u64;
    match refusal {
        BuildRefusal::Block(_)
        | BuildRefusal::RoomShort
        | BuildRefusal::StateRoom
        | BuildRefusal::ItemRoom
        | BuildRefusal::ConflictRoom => [number, 0, 0, 0, 0, 0, 0],
        BuildRefusal::AcceptReduce {
            there: Some(r),
            coming,
        } => [number, r as u64 + 1, coming as u64, 0, 0, 0, 0],
        BuildRefusal::AcceptReduce {
            there: None,
            coming,
        } => [number, 0, coming as u64, 0, 0, 0, 0],
        BuildRefusal::MixedKinds {
            token,
            production,
            state,
        } => [
            number,
            token as u64,
            production as u64,
            state as u64,
            0,
            0,
            0,
        ],
    }
}

/// 0, states, items, states before collection; or a refusal.
pub fn graph_words(r: Result<Kept, GraphRefusal>) -> [u64; GRAPHED]
    ensures { result ≡ graph_words (graph.answer_of r) }
{
    match r {
        Ok(k) => [0, k.states as u64, k.items as u64, k.before as u64],
        Err(refusal) => [refusal.number() as u64, 0, 0, 0],
    }
}

/// A refusal or 0, 1 for accept, the place, reductions, steps, the stack's height.
pub fn ran_words(r: Result<Ended, RunRefusal>) -> [u64; RAN]
    ensures { result ≡ ran_words (machine.answer_of r) }
{
    match r {
        Ok(ended) => ended_words(ended),
        Err(RunRefusal::Block(refusal)) => [refusal.number() as u64, 0, 0, 0, 0, 0],
        Err(RunRefusal::RoomShort) => [7, 0, 0, 0, 0, 0],
        Err(RunRefusal::BadToken { place }) => [13, 0, place as u64, 0, 0, 0],
    }
}

/// The same of a run that began.
fn ended_words(ended: Ended) -> [u64; RAN]
    ensures { result ≡ ran_words (machine.ended_of ended) }
{
    let (number, accepts) = match ended.how {
        How::Accept => (0, 1),
        How::Reject => (0, 0),
        How::Stopped(stop) => (stop.number(), 0),
    };
    let run = ended.run;
    [
        number as u64,
        accepts,
        run.at as u64,
        run.k as u64,
        run.steps as u64,
        run.height as u64,
    ]
}

/// A refusal or 0, and the word.
pub fn found_words(r: Result<u32, QueryRefusal>) -> [u32; FOUND]
    ensures { result ≡ found_words (found_of r) }
{
    match r {
        Ok(x) => [0, x],
        Err(refusal) => [refusal.number(), 0],
    }
}

/// A refusal or 0; 0 error, 1 shift, 2 reduce, 3 accept; the state or the production.
pub fn act_words(r: Result<Action, QueryRefusal>) -> [u32; ACTS]
    ensures { result ≡ act_words (acted_of r) }
{
    match r {
        Ok(Action::Error) => [0, 0, 0],
        Ok(Action::Shift(s)) => [0, 1, s],
        Ok(Action::Reduce(p)) => [0, 2, p],
        Ok(Action::Accept) => [0, 3, 0],
        Err(refusal) => [refusal.number(), 0, 0],
    }
}
