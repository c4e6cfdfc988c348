//! One step of the machine: a shift, a reduce with its goto, an accept or an error.
ghost use Rattle.std.specs.Prelude.{List, ◌≡◌, ℕ, zero, suc, ◌<◌, ◌≤◌, length, drop, Result};
ghost use Rattle.knuth.specs.Grammar as knuth;
ghost use Rattle.knuth.specs.Tables as theory;
ghost use Rattle.knuth.specs.Machine.{Config, look, next};
ghost use Rattle.knuth.specs.Limits.{within};
ghost use Rattle.block.specs.Grammar.{grammar_of};
ghost use Rattle.statetable.specs.Read.{tables_in};
ghost use Rattle.machine.specs.Moves.{lent, doing, Ready, Stepped};

use crate::answers::{Run, Step, StepRefusal};
use crate::tables::Tables;
use block::Grammar;
use statetable::Action;

/// The first token that remains, or the end token.
fn lookahead(grammar: Grammar<'_>, input: &[u32], at: usize) -> usize
    ensures { result ≡ look (grammar_of grammar.entry.words.now) (drop at input.now) }
{
    match input.get(at) {
        Some(token) => *token as usize,
        None => grammar.end(),
    }
}

/// A shift to a state. The table is looked at first: the state, and that a token remains; then the stack's room.
fn shift_step(
    states: usize,
    input: &[u32],
    to: usize,
    run: Run,
    stack: &mut [u32],
) -> Result<Step, StepRefusal>
    requires { (block : List ℕ) × (actions : List ℕ) × (gotos : List ℕ) × (output : List ℕ) × (old : List ℕ) × (c : Config)
        × Ready block states actions gotos input.now run stack.old output old c }
    ensures { (block actions gotos output old : List ℕ) (c : Config) (G : knuth.Grammar) (T : theory.Tables) → T.states ≡ states
        → Ready block states actions gotos input.now run stack.old output old c
        → Stepped states input.now run c (within (lent zero stack.old output) (doing G T (theory.Action.shift to) c)) result stack.new output old }
{
    let h = run.height;
    if states <= to {
        return Err(StepRefusal::BadTable); // to no state
    }
    if input.len() <= run.at {
        return Err(StepRefusal::BadTable); // of the end token
    }
    if stack.len() <= h {
        return Err(StepRefusal::StackRoom); // no slot for the state
    }
    stack[h] = to as u32;
    Ok(Step::On(Run {
        at: run.at + 1,
        steps: run.steps + 1,
        height: h + 1,
        ..run
    }))
}

/// A reduction of p: production, stack depth, goto, output room, stack room, in this order.
fn reduce_step(
    tables: Tables<'_>,
    p: usize,
    run: Run,
    stack: &mut [u32],
    output: &mut [u32],
) -> Result<Step, StepRefusal>
    requires { (input : List ℕ) × (old : List ℕ) × (c : Config)
        × Ready tables.grammar.words.now tables.states tables.actions.now tables.gotos.now input run stack.old output.old old c }
    ensures { (input old : List ℕ) (c : Config)
        → Ready tables.entry.grammar.words.now tables.entry.states tables.entry.actions.now tables.entry.gotos.now input run stack.old output.old old c
        → Stepped tables.entry.states input run c (within (lent zero stack.old output.old)
        (doing (grammar_of tables.entry.grammar.words.now) (tables_in tables.entry.grammar.words.now tables.entry.states tables.entry.actions.now tables.entry.gotos.now) (theory.Action.reduce p) c)) result stack.new output.new old }
{
    let grammar = tables.grammar;
    if grammar.productions() <= p || p == grammar.start() {
        return Err(StepRefusal::BadTable); // of no production, or of the start production
    }
    let h = run.height;
    let k = run.k;
    let n = grammar.length(p);
    if h <= n {
        return Err(StepRefusal::BadTable); // fewer slots above the first than its length
    }
    let left = h - n;
    let Some(to) = tables.goto(stack[left - 1] as usize, grammar.rule(p)) else {
        return Err(StepRefusal::BadTable); // no goto to a state
    };
    if output.len() <= k {
        return Err(StepRefusal::OutputRoom); // no word for the reduction
    }
    if stack.len() <= left {
        return Err(StepRefusal::StackRoom); // no slot for the goto
    }
    output[k] = p as u32;
    stack[left..h].fill(0);
    stack[left] = to as u32;
    Ok(Step::On(Run {
        k: k + 1,
        steps: run.steps + 1,
        height: left + 1,
        ..run
    }))
}

/// One step. It knows of no step limit. A refusal leaves stack and output as they stood.
pub fn step(
    tables: Tables<'_>,
    input: &[u32],
    run: Run,
    stack: &mut [u32],
    output: &mut [u32],
) -> Result<Step, StepRefusal>
    requires { (old : List ℕ) × (c : Config)
        × Ready tables.grammar.words.now tables.states tables.actions.now tables.gotos.now input.now run stack.old output.old old c }
    ensures { (old : List ℕ) (c : Config)
        → Ready tables.entry.grammar.words.now tables.entry.states tables.entry.actions.now tables.entry.gotos.now input.now run stack.old output.old old c
        → Stepped tables.entry.states input.now run c (within (lent zero stack.old output.old)
        (next (grammar_of tables.entry.grammar.words.now) (tables_in tables.entry.grammar.words.now tables.entry.states tables.entry.actions.now tables.entry.gotos.now) c)) result stack.new output.new old }
{
    let token = lookahead(tables.grammar, input, run.at);
    let state = stack[run.height - 1] as usize;
    match tables.action(state, token) {
        Action::Shift(to) => shift_step(tables.states, input, to as usize, run, stack),
        Action::Reduce(p) => reduce_step(tables, p as usize, run, stack, output),
        Action::Accept => {
            if run.at < input.len() {
                return Err(StepRefusal::BadTable); // at another token
            }
            Ok(Step::Accept(Run {
                steps: run.steps + 1,
                ..run
            }))
        }
        Action::Error => Ok(Step::Reject(Run {
            steps: run.steps + 1,
            ..run
        })),
    }
}
