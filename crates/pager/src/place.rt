//! Placing a kernel: an equal state, else a weakly compatible one, else a new one.
ghost use Rattle.std.specs.Prelude.{true, Ok, List, ◌≡◌, ℕ, suc, ◌+◌, ◌*◌, ◌<◌, ◌≤◌, length, get_or, take, drop, ◌++◌};
ghost use Rattle.block.specs.Limits.{ITEM};
ghost use Rattle.block.specs.Lists.{change};
ghost use Rattle.pager.specs.Lists.{find};
ghost use Rattle.pager.specs.Place.{take_in, is_weak, add_state};
ghost use Rattle.pager.specs.Graph.{nowhere};
ghost use Rattle.pager.specs.Held.{Held, View, Ready, PutBy, PutIn, limits_of, as_option, sought};

use crate::kernels::{Equal, Placing, Weak, merge};
use crate::refusal::GraphRefusal;
use crate::room::{Count, Room};
use block::limits::ITEM;

/// The state that a kernel came to, and the graph's numbers then.
#[derive(Clone, Copy)]
pub struct Put {
    pub to: usize,
    pub count: Count,
}

/// The kernel of state s, its rows of five words: spans has the first of them and their number.
// stays: the C interface hands the spans out as words, two for each state.
pub fn kernel_of<'a>(items: &'a [u64], spans: &[u32], s: usize) -> &'a [u64]
    requires { (2 * s + 1 < length spans.now) × (ITEM * get_or spans.now (2 * s) 0 + ITEM * get_or spans.now (2 * s + 1) 0 ≤ length items.now) }
    ensures { result.now ≡ take (ITEM * get_or spans.now (2 * s + 1) 0) (drop (ITEM * get_or spans.now (2 * s) 0) items.now) }
{
    let a = ITEM * spans[2 * s] as usize;
    let e = a + ITEM * spans[2 * s + 1] as usize;
    &items[a..e]
}

/// Copies rows to those from row `at` on.
fn copy_rows(items: &mut [u64], at: usize, rows: &[u64])
    requires { ITEM * at + length rows.now ≤ length items.old }
    ensures { items.new ≡ take (ITEM * at) items.old ++ (rows.now ++ drop (ITEM * at + length rows.now) items.old) }
{
    let p = ITEM * at;
    items[p..p + rows.len()].copy_from_slice(rows);
}

/// The first state made for the symbol whose kernel takes this one in.
fn find_state<P: Placing>(
    items: &[u64],
    spans: &[u32],
    marks: &[u32],
    count: Count,
    made: u32,
    kernel: &[u64],
) -> Option<usize>
    requires { (room : Room) × (v : View) × Ready room count made kernel.now items.now spans.now marks.now v }
    ensures { (room : Room) (v : View) → Ready room count made kernel.now items.now spans.now marks.now v
        → result ≡ as_option (find (sought P.takes (suc v.symbol) v.kernel) 0 v.states) }
{
    for s in 0..count.states {
        if marks[2 * s] == made && P::takes(kernel_of(items, spans, s), kernel) {
            return Some(s);
        }
    }
    None
}

/// A new state: StateRoom if there is no room for one more, ItemRoom if there is none for its items.
fn add_state(
    items: &mut [u64],
    spans: &mut [u32],
    marks: &mut [u32],
    room: Room,
    count: Count,
    made: u32,
    kernel: &[u64],
) -> Result<Put, GraphRefusal>
    requires { (v : View) × Ready room count made kernel.now items.old spans.old marks.old v }
    ensures { (v : View) → Ready room count made kernel.now items.old spans.old marks.old v
        → PutBy (add_state v.block (limits_of room) v.states (suc v.symbol) v.kernel) room result items.new spans.new marks.new v }
{
    let s = count.states;
    let row = count.items;
    let n = kernel.len() / ITEM;
    if room.states <= s {
        return Err(GraphRefusal::StateRoom);
    }
    if room.items < row + n {
        return Err(GraphRefusal::ItemRoom);
    }
    copy_rows(items, row, kernel);
    spans[2 * s] = row as u32;
    spans[2 * s + 1] = n as u32;
    marks[2 * s] = made;
    marks[2 * s + 1] = 1;
    Ok(Put {
        to: s,
        count: Count {
            states: s + 1,
            items: row + n,
        },
    })
}

/// State s takes the kernel in, and is to be closed again if it grew.
fn join_state(items: &mut [u64], spans: &[u32], marks: &mut [u32], s: usize, kernel: &[u64])
    requires { (room : Room) × (count : Count) × (made : ℕ) × (v : View) × Ready room count made kernel.now items.old spans.now marks.old v
        × (s < length v.states) × (is_weak (suc v.symbol) v.kernel (get_or v.states s nowhere) ≡ true) }
    ensures { (room : Room) (count : Count) (made : ℕ) (v : View) → Ready room count made kernel.now items.old spans.now marks.old v
        → s < length v.states → is_weak (suc v.symbol) v.kernel (get_or v.states s nowhere) ≡ true
        → Held v.block (limits_of room) (change (take_in v.kernel) s v.states) v.behind items.new spans.now v.edges marks.new }
{
    let row = spans[2 * s] as usize;
    if merge(items, row, kernel) {
        marks[2 * s + 1] = 1;
    }
}

/// Places a kernel made for a symbol, of which `made` is one more: an equal state, else a weakly compatible one, which takes it in,
/// else a new one; the refusals are those of a new state.
pub fn place(
    items: &mut [u64],
    spans: &mut [u32],
    marks: &mut [u32],
    room: Room,
    count: Count,
    made: u32,
    kernel: &[u64],
) -> Result<Put, GraphRefusal>
    requires { (v : View) × Ready room count made kernel.now items.old spans.old marks.old v }
    ensures { (v : View) → Ready room count made kernel.now items.old spans.old marks.old v
        → PutIn room result items.new spans.new marks.new v }
{
    if let Some(to) = find_state::<Equal>(items, spans, marks, count, made, kernel) {
        return Ok(Put { to, count });
    }
    if let Some(to) = find_state::<Weak>(items, spans, marks, count, made, kernel) {
        join_state(items, spans, marks, to, kernel);
        return Ok(Put { to, count });
    }
    add_state(items, spans, marks, room, count, made, kernel)
}
