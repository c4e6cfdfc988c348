//! Lent tables: what a step reads.
ghost use Rattle.std.specs.Prelude.{◌≡◌, ◌+◌, ◌*◌, ◌<◌, ◌≤◌, length, get_or};
ghost use Rattle.block.specs.Block.{tokens, rules};
ghost use Rattle.pager.specs.Held.{STATES};
ghost use Rattle.statetable.specs.Cell.{decode};
ghost use Rattle.statetable.specs.Named.{action_of};
ghost use Rattle.machine.specs.Memory.{state_in};

use block::Grammar;
use statetable::Action;

/// The tables of a grammar, row by row: for each state a word for each token, and one for each rule. They may
/// be any words; only their lengths are known.
#[derive(Clone, Copy)]
pub struct Tables<'a> {
    pub grammar: Grammar<'a>,
    pub states: usize,
    pub actions: &'a [u32],
    pub gotos: &'a [u32],
    ghost states_most: { states ≤ STATES },
    ghost actions_long: { states * tokens grammar.words.now ≤ length actions.now },
    ghost gotos_long: { states * rules grammar.words.now ≤ length gotos.now },
}

impl Tables<'_> {
    /// The action of state s at token t.
    pub fn action(self, s: usize, t: usize) -> Action
        requires state { s < self.states }
        requires token { t < tokens self.grammar.words.now }
        ensures { action_of result ≡ decode (get_or self.entry.actions.now (s * tokens self.entry.grammar.words.now + t) 0) }
    {
        Action::from(self.actions[s * self.grammar.tokens() + t])
    }

    /// The state that the goto of state s for a rule goes to.
    pub fn goto(self, s: usize, rule: usize) -> Option<usize>
        requires state { s < self.states }
        requires rule { rule < rules self.grammar.words.now }
        ensures { result ≡ state_in self.entry.states (get_or self.entry.gotos.now (s * rules self.entry.grammar.words.now + rule) 0) }
    {
        let word = self.gotos[s * self.grammar.rules() + rule] as usize;
        word.checked_sub(1).filter(|to| *to < self.states)
    }
}
