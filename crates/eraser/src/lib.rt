// The eraser: the numbers of a listing come in; the code words of its kept items, with labels
// turned into addresses, go to a lent buffer. It knows nothing of the checker.
// Read specs/Erase.antt first.

#![tactic(auto)]

mod addresses;
mod erasing;
mod words;

pub use erasing::{erase, needed};
