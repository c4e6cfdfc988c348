//! Clearing of lent room.
ghost use Rattle.std.specs.Prelude.{◌≡◌, ◌*◌, ◌≤◌, length};
ghost use Rattle.block.specs.Limits.{ITEM};
ghost use Rattle.pager.specs.Call.{zeroed};

use crate::room::Room;
use block::limits::ITEM;

/// The named parts that hold states are zero.
pub fn clear_room(
    room: Room,
    width: usize,
    items: &mut [u64],
    spans: &mut [u32],
    edges: &mut [u32],
    marks: &mut [u32],
)
    requires { (ITEM * room.items ≤ length items.old) × (2 * room.states ≤ length spans.old) × (room.states * width ≤ length edges.old) × (2 * room.states ≤ length marks.old) }
    ensures items { items.new ≡ zeroed (ITEM * room.items) items.old }
    ensures spans { spans.new ≡ zeroed (2 * room.states) spans.old }
    ensures edges { edges.new ≡ zeroed (room.states * width) edges.old }
    ensures marks { marks.new ≡ zeroed (2 * room.states) marks.old }
{
    items[..ITEM * room.items].fill(0);
    spans[..2 * room.states].fill(0);
    edges[..room.states * width].fill(0);
    marks[..2 * room.states].fill(0);
}
