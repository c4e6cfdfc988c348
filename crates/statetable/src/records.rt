//! The two conflict lists and the precedence count.
ghost use Rattle.std.specs.Prelude.{◌++◌, ◌≡◌, ◌+◌, ◌*◌, ◌<◌, ◌≤◌, length, take, drop, OnOk, OnErr, IfErr};
ghost use Rattle.statetable.specs.declared.refusal.BuildRefusal.TheVariants.{ConflictRoom};

use crate::refusal::BuildRefusal;

/// Most records in each list.
#[derive(Clone, Copy, Debug, PartialEq, Eq)]
pub struct Caps {
    pub rr: usize,
    pub sr: usize,
}

/// Records in each list, and the choices made by precedence.
#[derive(Clone, Copy, Debug, PartialEq, Eq)]
pub struct Tally {
    pub rr: usize,
    pub sr: usize,
    pub count: usize,
}

/// Records of WIDTH words each, one behind the other, in room for `most` of them.
#[derive(Drop)]
pub struct Records<'a, const WIDTH: usize> {
    pub words: &'a mut [u32],
    pub most: usize,
    pub count: usize,
    ghost fits: { most * WIDTH ≤ length words.now },
    ghost counted: { count ≤ most },
}

impl<const WIDTH: usize> Records<'_, WIDTH> {
    /// One record more; where there is no room for it, it is refused and nothing is written.
    pub fn push(&mut self, values: [u32; WIDTH]) -> Result<(), BuildRefusal>
        ensures room { OnOk result (self.old.count < self.old.most) }
        ensures full { IfErr result (λ e. (e ≡ ConflictRoom) × (self.old.most ≤ self.old.count)) }
        ensures count { OnOk result (self.new.count ≡ self.old.count + 1) }
        ensures words { OnOk result (self.new.words.now ≡ take (self.old.count * WIDTH) self.old.words.now ++ values.entry ++ drop (self.old.count * WIDTH + WIDTH) self.old.words.now) }
        ensures kept { OnErr result ((self.new.count ≡ self.old.count) × (self.new.words.now ≡ self.old.words.now)) }
        ensures same { self.new.words.ghost_name ≡ self.old.words.ghost_name }
    {
        if self.most <= self.count {
            return Err(BuildRefusal::ConflictRoom);
        }
        copy(self.words, self.count * WIDTH, &values);
        self.count += 1;
        Ok(())
    }
}

/// The words put from `at` on.
fn copy(words: &mut [u32], at: usize, from: &[u32])
    requires { at + length from.now ≤ length words.old }
    ensures { words.new ≡ take at words.old ++ from.now ++ drop (at + length from.now) words.old }
{
    words[at..at + from.len()].copy_from_slice(from);
}
