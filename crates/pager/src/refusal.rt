//! Why no graph is built.

use block::BlockRefusal;

/// Why no graph is built: the block is refused (1 to 6), the lent room is shorter than the named sizes need, or a size is out of
/// range (7), or a kernel finds no room for one more state (8), or for its items (9).
#[derive(Clone, Copy, Debug, PartialEq, Eq)]
pub enum GraphRefusal {
    Block(BlockRefusal),
    RoomShort,
    StateRoom,
    ItemRoom,
}

impl GraphRefusal {
    ghost use Rattle.std.specs.Prelude.{◌≡◌};
    ghost use Rattle.pager.specs.Held.{number_of};

    /// The number of the refusal, 1 to 9.
    pub fn number(self) -> u32
        ensures { result ≡ number_of self }
    {
        match self {
            GraphRefusal::Block(block) => block.number(),
            GraphRefusal::RoomShort => 7,
            GraphRefusal::StateRoom => 8,
            GraphRefusal::ItemRoom => 9,
        }
    }
}

impl From<BlockRefusal> for GraphRefusal {
    ghost use Rattle.std.specs.Prelude.{◌≡◌};
    ghost use Rattle.pager.specs.declared.refusal.GraphRefusal.TheVariants.{Block};

    ghost from_gives = { λ e r. r ≡ Block e };

    fn from(refusal: BlockRefusal) -> Self {
        GraphRefusal::Block(refusal)
    }
}
