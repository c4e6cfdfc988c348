//! Why a block is refused.
ghost use Rattle.std.specs.Prelude.{◌≡◌};
ghost use Rattle.block.specs.Refused.{number_of};

/// Document 01's refusals of a block, by its numbers.
#[derive(Clone, Copy, Debug, PartialEq, Eq)]
pub enum BlockRefusal {
    BadHeader = 1,
    TooLarge,
    BadProduction,
    BadStart,
    BadSymbol,
    BadPrecedence,
}

impl BlockRefusal {
    /// 1 to 6.
    pub fn number(self) -> u32
        ensures { result ≡ number_of self }
    {
        self as u32
    }
}
