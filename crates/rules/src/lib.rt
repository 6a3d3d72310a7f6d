// The current context and the typing rules: for an item in a context, its first refusal. The walk that goes
// from item to item is the checker's. Read specs/Rules.antt first.

#![tactic(auto)]

mod contexts;
mod labels;
mod rules;
mod stacks;

pub use contexts::{Held, Slot, set_slot, slot_at};
pub use labels::Label;
pub use refusals::require;
pub use rules::{bnz, cjmp, compute, compute_immediate, cpush, halt, jump, load, store};
pub use stacks::Stack;
