//! The call that runs the machine: refusals 1 to 7 and 13, then steps.
ghost use Rattle.std.specs.Prelude.{◌≡◌, length, position};
ghost use Rattle.machine.specs.Call.{called, room_short, bad_token, Begun, machine_of, run_call, told, answer_of, ended_of, stack_of, output_of};

use crate::answers::{Run, Step};
use crate::ends::{Ended, How, RunRefusal, Stop};
use crate::limits::{INPUT, STEPS};
use crate::moves::step;
use crate::tables::Tables;
use block::Grammar;
use pager::limits::STATES;

/// Refusal 7, by the lengths of what is lent.
#[tactic(auto, unfolding(crate::specs::Call::room_short, pager::specs::Call::some_less))]
fn room_short(
    grammar: Grammar<'_>,
    states: usize,
    actions: usize,
    gotos: usize,
    input: usize,
    limit: usize,
    stack: usize,
) -> bool
    ensures { result ≡ room_short grammar.entry.words.now states actions gotos input limit stack }
{
    states < 1
        || STATES < states
        || actions < states * grammar.tokens()
        || gotos < states * grammar.rules()
        || INPUT < input
        || STEPS < limit
        || stack < 1
}

/// The place of the first token that is not below T or is the end token.
#[tactic(auto, unfolding(crate::specs::Call::bad_token))]
fn bad_token(grammar: Grammar<'_>, input: &[u32]) -> Option<usize>
    ensures { result ≡ position (bad_token grammar.entry.words.now) input.now }
{
    let tokens = grammar.tokens();
    let end = grammar.end();
    input.iter().position(|token| tokens <= *token as usize || *token as usize == end)
}

/// Steps until an answer, a refusal or the limit, which is looked at before each step.
fn run_from(
    tables: Tables<'_>,
    input: &[u32],
    limit: usize,
    stack: &mut [u32],
    output: &mut [u32],
) -> Ended
    requires { Begun (called tables.grammar.words.now tables.states tables.actions.now tables.gotos.now input.now limit stack.old output.old) }
    ensures answer { ended_of result ≡ told (length input.now)
        (machine_of (called tables.entry.grammar.words.now tables.entry.states tables.entry.actions.now tables.entry.gotos.now input.now limit stack.old output.old)) }
    ensures stack { stack.new ≡ stack_of
        (machine_of (called tables.entry.grammar.words.now tables.entry.states tables.entry.actions.now tables.entry.gotos.now input.now limit stack.old output.old))
        stack.old }
    ensures output { output.new ≡ output_of
        (machine_of (called tables.entry.grammar.words.now tables.entry.states tables.entry.actions.now tables.entry.gotos.now input.now limit stack.old output.old))
        output.old }
{
    let mut run = Run {
        at: 0,
        k: 0,
        steps: 0,
        height: 1,
    };
    // stays: no index is counted here; `step` counts the steps, and their number is part of the answer
    while run.steps < limit {
        match step(tables, input, run, stack, output) {
            Ok(Step::On(next)) => run = next,
            Ok(Step::Accept(last)) => {
                return Ended {
                    how: How::Accept,
                    run: last,
                };
            }
            Ok(Step::Reject(last)) => {
                return Ended {
                    how: How::Reject,
                    run: last,
                };
            }
            Err(refusal) => {
                return Ended {
                    how: How::Stopped(Stop::from(refusal)),
                    run,
                };
            }
        }
    }
    Ended {
        how: How::Stopped(Stop::StepLimit),
        run,
    }
}

/// The machine on any block, tables and input, in at most `limit` steps. A refusal leaves stack and output
/// as they stood.
// stays: what may not change. `run` takes any words, so block and tables come one by one, and not as `Tables`.
pub fn run(
    block: &[u32],
    states: usize,
    actions: &[u32],
    gotos: &[u32],
    input: &[u32],
    limit: usize,
    stack: &mut [u32],
    output: &mut [u32],
) -> Result<Ended, RunRefusal>
    ensures answer { answer_of result ≡ told (length input.now)
        (run_call (called block.now states actions.now gotos.now input.now limit stack.old output.old)) }
    ensures stack { stack.new ≡ stack_of
        (run_call (called block.now states actions.now gotos.now input.now limit stack.old output.old))
        stack.old }
    ensures output { output.new ≡ output_of
        (run_call (called block.now states actions.now gotos.now input.now limit stack.old output.old))
        output.old }
{
    let grammar = Grammar::check(block)?;
    if room_short(
        grammar,
        states,
        actions.len(),
        gotos.len(),
        input.len(),
        limit,
        stack.len(),
    ) {
        return Err(RunRefusal::RoomShort);
    }
    if let Some(place) = bad_token(grammar, input) {
        return Err(RunRefusal::BadToken { place });
    }
    stack.fill(0);
    let tables = Tables {
        grammar,
        states,
        actions,
        gotos,
    };
    Ok(run_from(tables, input, limit, stack, output))
}
