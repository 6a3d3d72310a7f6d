// The untyped machine: code words, the state, one step, and a run with a budget. It knows nothing
// of listings; crates above use the definitions and laws of specs/ and never this code.
// Read specs/Step.antt first: the step table.

#![tactic(auto)]

mod arithmetic;
mod kinds;
pub mod numbers;
mod registers;
mod runs;
mod table;
mod word;

pub use runs::{Ran, run, within_limits};
pub use table::{State, step};
