// The desk call on lent words: a packet comes in with code, heap, block table, registers and budget; it is checked,
// erased and run, or refused. It knows nothing of bytes but the packet's. Read specs/Desk.antt first.

#![tactic(auto)]

pub mod numbers;
mod serving;
mod sizing;

pub use serving::{Served, longest_room, serve};
pub use sizing::{right_sizes, sizes, sizes_for};
