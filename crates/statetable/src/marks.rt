//! The marks of states, from their cells.
ghost use mathlib.Core.List.{List, map};
ghost use Rattle.std.specs.Prelude.{◌≡◌, ℕ, ◌%◌, ◌/◌, ◌^◌, ◌<◌, ◌≤◌, length, slice_index, replicate, sum};
ghost use Rattle.std.specs.List.{list_any};
ghost use Rattle.block.specs.Limits.{PRODS};
ghost use Rattle.block.specs.Block.{prods};
ghost use Rattle.pager.specs.Lists.{each};
ghost use Rattle.statetable.specs.Marks.{shift_mark, core_marks, moves_on, reduce_only};
ghost use Rattle.statetable.specs.ForTables.{ForMarks};

use block::Grammar;

/// `state_shifts` of as many cells: 1 where the cell shifts, else 0.
pub fn mark_shifts(cells: &[u32], shifts: &mut [u32])
    requires { length cells.now ≡ length shifts.old }
    ensures { shifts.new ≡ map shift_mark cells.now }
{
    for (i, cell) in cells.iter().enumerate() {
        shifts[i] = u32::from(cell % 4 == 1);
    }
}

/// `core_reduces` of one state: a mark for each production, none of them set yet. A cell that reduces names one of them.
fn mark_cores(cells: &[u32], cores: &mut [u32])
    requires inside { (i : ℕ) → i < length cells.now → slice_index cells.now i % 4 ≡ 2 → slice_index cells.now i / 4 < length cores.old }
    requires clear { cores.old ≡ replicate (length cores.old) 0 }
    ensures { cores.new ≡ core_marks (length cores.old) cells.now }
{
    for cell in cells {
        if cell % 4 == 2 {
            cores[*cell as usize / 4] = 1;
        }
    }
}

/// How many of some marks, each 0 or 1, are set.
fn ones(marks: &[u32]) -> u32
    requires { sum marks.now < 2 ^ 32 }
    ensures { result ≡ sum marks.now }
{
    marks.iter().sum()
}

/// Some cell shifts or accepts.
fn moves_on(cells: &[u32]) -> bool
    ensures { result ≡ list_any moves_on cells.now }
{
    cells.iter().any(|cell| cell % 2 == 1)
}

/// `core_reduces` of one state, as `mark_cores`; answers its `reduce_states` mark: 1 where one production is reduced and no cell shifts or accepts.
fn mark_state(cells: &[u32], cores: &mut [u32]) -> u32
    requires inside { (i : ℕ) → i < length cells.now → slice_index cells.now i % 4 ≡ 2 → slice_index cells.now i / 4 < length cores.old }
    requires clear { cores.old ≡ replicate (length cores.old) 0 }
    requires few { length cores.old ≤ PRODS }
    ensures cores { cores.new ≡ core_marks (length cores.old) cells.now }
    ensures only { result ≡ reduce_only (length cores.old) cells.now }
{
    mark_cores(cells, cores);
    u32::from(ones(cores) == 1 && !moves_on(cells))
}

/// `core_reduces` and `reduce_states` of all states: rows of `tokens` cells, rows of `prods` marks, a mark for each state.
pub fn mark_states(
    grammar: Grammar<'_>,
    states: usize,
    actions: &[u32],
    cores: &mut [u32],
    only: &mut [u32],
)
    requires { (rs : List (List ℕ)) × ForMarks grammar.words.now states actions.now cores.old only.old rs }
    ensures cores { (rs : List (List ℕ)) → ForMarks grammar.entry.words.now states actions.now cores.old only.old rs → cores.new ≡ each (core_marks (prods grammar.entry.words.now)) rs }
    ensures only { (rs : List (List ℕ)) → ForMarks grammar.entry.words.now states actions.now cores.old only.old rs → only.new ≡ map (reduce_only (prods grammar.entry.words.now)) rs }
{
    let tokens = grammar.tokens();
    let prods = grammar.productions();
    for s in 0..states {
        let at = s * tokens;
        let from = s * prods;
        only[s] = mark_state(&actions[at..at + tokens], &mut cores[from..from + prods]);
    }
}
