//! The rooms that listed cases are given; specs/Rooms.antt has the same names.
ghost use Rattle.std.specs.Prelude.{◌≡◌, ◌≤◌};
ghost use Rattle.listed_block.specs.Rooms.{ROOM, bounded_of};

/// Most words of a block, a table or an input in a case.
pub const BLOCK: usize = 16384;

/// Words of each buffer that a case may lend.
pub const ROOM: usize = 16384;

/// The count, or the most that there is room for: no line has a longer buffer.
pub fn bounded(count: usize) -> usize
    ensures bounded { result ≡ bounded_of count }
    ensures most { result ≤ ROOM }
{
    count.min(ROOM)
}
