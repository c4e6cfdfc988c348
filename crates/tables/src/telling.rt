//! What a build answered, as text. An error is that of the write that failed; what was printed before it stays.
use block::Grammar;
use statetable::limits::{RR, SR};
use statetable::{BuildRefusal, Counts};
use std::io;

fn tell_words(rt: &impl Print, words: &[u32]) -> io::Result<()> {
    for word in words {
        print!(rt; " {word}")?;
    }
    Ok(())
}

/// Row i of rows of that width; empty where it does not stand whole.
fn row(table: &[u32], width: usize, i: usize) -> &[u32] {
    let Some(start) = width.checked_mul(i) else {
        return &table[..0];
    };
    table
        .get(start..start.saturating_add(width))
        .unwrap_or(&table[..0])
}

/// Each state: its cells by token, then its gotos by rule.
fn tell_states(
    rt: &impl Print,
    grammar: Grammar<'_>,
    states: usize,
    actions: &[u32],
    gotos: &[u32],
) -> io::Result<()> {
    for s in 0..states {
        print!(rt; "state {s}:")?;
        tell_words(rt, row(actions, grammar.tokens(), s))?;
        print!(rt; " /")?;
        tell_words(rt, row(gotos, grammar.rules(), s))?;
        println!(rt; "")?;
    }
    Ok(())
}

/// The records of a list, so many, of that width.
fn tell_records(
    rt: &impl Print,
    what: &str,
    list: &[u32],
    width: usize,
    records: usize,
) -> io::Result<()> {
    for i in 0..records {
        print!(rt; "{what}")?;
        tell_words(rt, row(list, width, i))?;
        println!(rt; "")?;
    }
    Ok(())
}

fn tell_counts(rt: &impl Print, counts: Counts) -> io::Result<()> {
    println!(rt; "states {}", counts.states)?;
    println!(rt; "items {}", counts.items)?;
    println!(rt; "states before collection {}", counts.before)?;
    println!(rt; "reduce/reduce records {}", counts.rr)?;
    println!(rt; "shift/reduce records {}", counts.sr)?;
    println!(rt; "settled by precedence {}", counts.count)
}

/// The number of a refusal and the values that it gives.
fn tell_refusal(rt: &impl Print, refusal: BuildRefusal) -> io::Result<()> {
    let number = refusal.number();
    match refusal {
        BuildRefusal::AcceptReduce {
            there: Some(there),
            coming,
        } => println!(rt; "refused {number} {there} {coming}"),
        BuildRefusal::AcceptReduce {
            there: None,
            coming,
        } => println!(rt; "refused {number} none {coming}"),
        BuildRefusal::MixedKinds {
            token,
            production,
            state,
        } => { println!(rt; "refused {number} {token} {production} {state}") }
        _ => println!(rt; "refused {number}"),
    }
}

/// The whole answer: counts, a line for each state and each record, or the refusal.
pub fn tell_answer(
    rt: &impl Print,
    grammar: Grammar<'_>,
    answer: Result<Counts, BuildRefusal>,
    actions: &[u32],
    gotos: &[u32],
    rr: &[u32],
    sr: &[u32],
) -> io::Result<()> {
    let counts = match answer {
        Ok(counts) => counts,
        Err(refusal) => return tell_refusal(rt, refusal),
    };
    tell_counts(rt, counts)?;
    tell_states(rt, grammar, counts.states, actions, gotos)?;
    tell_records(rt, "reduce/reduce", rr, RR, counts.rr)?;
    tell_records(rt, "shift/reduce", sr, SR, counts.sr)
}
