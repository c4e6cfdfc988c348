//! How a run ends, and why none begins.
ghost use Rattle.std.specs.Prelude.{◌≡◌};
ghost use Rattle.machine.specs.Moves.{refusal_number};
ghost use Rattle.machine.specs.Call.{stop_number, run_number};
ghost use Rattle.machine.specs.declared.ends.RunRefusal.TheVariants.{Block};

use crate::answers::{Run, StepRefusal};
use block::BlockRefusal;

/// Why a run stops with no answer: a step is refused, or the steps are used up.
#[derive(Clone, Copy, Debug, PartialEq, Eq)]
pub enum Stop {
    StackRoom = 14,
    OutputRoom = 15,
    StepLimit = 16,
    BadTable = 17,
}

impl Stop {
    /// 14 to 17.
    pub fn number(self) -> u32
        ensures { result ≡ stop_number self }
    {
        self as u32
    }
}

impl From<StepRefusal> for Stop {
    ghost from_gives = { λ refusal stop. stop_number stop ≡ refusal_number refusal };

    fn from(refusal: StepRefusal) -> Self {
        match refusal {
            StepRefusal::StackRoom => Stop::StackRoom,
            StepRefusal::OutputRoom => Stop::OutputRoom,
            StepRefusal::BadTable => Stop::BadTable,
        }
    }
}

/// How a run ends.
#[derive(Clone, Copy, Debug, PartialEq, Eq)]
pub enum How {
    Accept,
    Reject,
    Stopped(Stop),
}

/// A run that began: how it ended, and how it stands then; where it was stopped, as it stood before.
#[derive(Clone, Copy, Debug, PartialEq, Eq)]
pub struct Ended {
    pub how: How,
    pub run: Run,
}

/// Why no run began: the block is refused, what is lent is too short or too long, or a token of the
/// input is none, first at this place.
#[derive(Clone, Copy, Debug, PartialEq, Eq)]
pub enum RunRefusal {
    Block(BlockRefusal),
    RoomShort,
    BadToken { place: usize },
}

impl RunRefusal {
    /// 1 to 7, or 13.
    pub fn number(self) -> u32
        ensures { result ≡ run_number self }
    {
        match self {
            RunRefusal::Block(why) => why.number(),
            RunRefusal::RoomShort => 7,
            RunRefusal::BadToken { .. } => 13,
        }
    }
}

impl From<BlockRefusal> for RunRefusal {
    ghost from_gives = { λ refusal told. told ≡ Block refusal };

    fn from(refusal: BlockRefusal) -> Self {
        RunRefusal::Block(refusal)
    }
}
