// The start check: the numbers of a listing, a heap, a block table and start registers come in; the
// first refusal of 31, 32 and 33 with its place, or that the start passes, comes out. It knows nothing
// of the checker, the eraser or the machine. Read specs/Start.antt first.

#![tactic(auto)]

mod blocks;
mod checking;
mod kinds;
mod rows;
mod spans;
mod starts;

pub use checking::check;
