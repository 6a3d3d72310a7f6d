// The SIF checker: any packet comes in; that it is accepted, or the first fault with its number and
// place, comes out. Each item is judged by crate rules. Read specs/Walk.antt first.

#![tactic(auto)]

mod blocks;
mod fields;
mod items;
mod packets;
mod placed;
mod tables;
mod walk;

pub use packets::check;

// For programs that say why a listing is refused: the fields of a shape.
pub use tables::{field_count, field_kind, field_level};
