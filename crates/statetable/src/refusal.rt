//! Why a build is refused.
ghost use Rattle.std.specs.Prelude.{◌≡◌};

use block::BlockRefusal;
use pager::GraphRefusal;

/// A build is refused by its block (1 to 6), for want of room (7 to 10), or by the actions that meet in a cell (11, 12).
#[derive(Clone, Copy, Debug, PartialEq, Eq)]
pub enum BuildRefusal {
    Block(BlockRefusal),
    /// 7: a named size is out of range, or a lent buffer is shorter than the named sizes need.
    RoomShort,
    /// 8: no room for one more state.
    StateRoom,
    /// 9: no room for the kernel items of one more state.
    ItemRoom,
    /// 10: no room for one more record of a conflict.
    ConflictRoom,
    /// 11: accept and a reduce meet in a cell; the reduce that was there, or none where accept was, and the production that came.
    AcceptReduce {
        there: Option<u32>,
        coming: u32,
    },
    /// 12: a shift and a reduce of equal levels and different kinds.
    MixedKinds {
        token: u32,
        production: u32,
        state: u32,
    },
}

impl BuildRefusal {
    ghost use Rattle.statetable.specs.Refusals.{number_of};

    /// 1 to 12.
    pub fn number(self) -> u32
        ensures { result ≡ number_of self }
    {
        match self {
            BuildRefusal::Block(refusal) => refusal.number(),
            BuildRefusal::RoomShort => 7,
            BuildRefusal::StateRoom => 8,
            BuildRefusal::ItemRoom => 9,
            BuildRefusal::ConflictRoom => 10,
            BuildRefusal::AcceptReduce { .. } => 11,
            BuildRefusal::MixedKinds { .. } => 12,
        }
    }
}

impl From<BlockRefusal> for BuildRefusal {
    ghost use Rattle.statetable.specs.declared.refusal.BuildRefusal.TheVariants.{Block};

    ghost from_gives = { λ e r. r ≡ Block e };

    fn from(refusal: BlockRefusal) -> Self {
        BuildRefusal::Block(refusal)
    }
}

impl From<GraphRefusal> for BuildRefusal {
    ghost use Rattle.statetable.specs.Refusals.{of_graph};

    ghost from_gives = { λ e r. r ≡ of_graph e };

    fn from(refusal: GraphRefusal) -> Self {
        match refusal {
            GraphRefusal::Block(refusal) => BuildRefusal::Block(refusal),
            GraphRefusal::RoomShort => BuildRefusal::RoomShort,
            GraphRefusal::StateRoom => BuildRefusal::StateRoom,
            GraphRefusal::ItemRoom => BuildRefusal::ItemRoom,
        }
    }
}
