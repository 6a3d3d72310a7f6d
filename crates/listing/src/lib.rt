// What a listing is, and the reader of packets: any bytes come in; the listing's numbers in order, or a
// named refusal with its place, come out. Read specs/Grammar.antt first.

#![tactic(auto)]

mod each;
mod grammar;
mod items;
pub mod limits;
mod places;
mod reading;
mod rest;

pub use each::each_item;
pub use grammar::{Wanted, next};
pub use items::{Item, at_most, item_at, item_size, number_at};
pub use places::{
    Items, Labels, Part, Shapes, behind_all, behind_item, behind_label, behind_shape, count_at,
    items_place, labels_place,
};
pub use reading::{ReadError, read};
pub use rest::Rest;
