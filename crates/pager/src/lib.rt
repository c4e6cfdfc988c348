//! The state graph: weak compatibility, merge, placing, collection.
#![tactic(auto)]

mod build;
mod call;
mod collect;
mod kernels;
pub mod limits;
mod place;
mod refusal;
mod room;
mod zero;

pub use call::{Kept, graph, room_short};
pub use place::kernel_of;
pub use refusal::GraphRefusal;
pub use room::Room;
