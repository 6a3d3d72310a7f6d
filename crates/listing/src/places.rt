// Where the parts of a listing stand among its numbers.
ghost use Rattle.std.specs.Prelude.{ℕ, List, ◌≡◌, ◌+◌, ◌*◌, ◌≤◌, ◌<◌, ◌^◌};
ghost use Rattle.listing.specs.Parts.{behind, count_at, behind_shape, behind_label, behind_item, labels_place, items_place};
ghost use Rattle.listing.specs.PlaceLaws.{SHAPE_NUMBERS, LABEL_NUMBERS, ITEM_NUMBERS, TOP_LABELS_PLACE, TOP_ITEMS_PLACE};

use crate::items::{at_most, item_size, number_at};
use crate::limits::{FIELDS, LABELS, REGISTERS, SHAPES, STACK};

// The count at a place, or its limit where that is less.
pub fn count_at(limit: u32, numbers: &[u32], at: u32) -> u32
    ensures value { result ≡ count_at limit numbers.now at }
    ensures bounded { result ≤ limit }
{
    at_most(limit, number_at(numbers, at as usize))
}

// The places behind a shape, a label and an item. The bound on the place stands at each: callers count
// places up, and a type for it would be made anew at every part, which is no plainer.

pub fn behind_shape(numbers: &[u32], at: u32) -> u32
    requires { at < 2 ^ 31 }
    ensures value { result ≡ behind_shape numbers.now at }
    ensures bounded { result ≤ at + SHAPE_NUMBERS }
{
    at + 1 + 2 * count_at(FIELDS, numbers, at)
}

pub fn behind_label(numbers: &[u32], at: u32) -> u32
    requires { at < 2 ^ 31 }
    ensures value { result ≡ behind_label numbers.now at }
    ensures bounded { result ≤ at + LABEL_NUMBERS }
{
    let registers = at + 2 + count_at(STACK, numbers, at + 1);
    registers + 1 + 3 * count_at(REGISTERS, numbers, registers)
}

pub fn behind_item(numbers: &[u32], at: u32) -> u32
    requires { at < 2 ^ 31 }
    ensures value { result ≡ behind_item numbers.now at }
    ensures bounded { result ≤ at + ITEM_NUMBERS }
{
    at + item_size(number_at(numbers, at as usize))
}

// Parts of one sort, which stand one behind the other in a listing: shapes, labels or items.
pub trait Part {
    // The place behind a part, by the place where it stands; and how many numbers a part has at most.
    ghost next: { List ℕ → ℕ → ℕ };

    ghost most: { ℕ };

    fn behind(numbers: &[u32], at: u32) -> u32
        requires { at < 2 ^ 31 }
        ensures value { result ≡ next numbers.now at }
        ensures bounded { result ≤ at + most };
}

pub struct Shapes;

impl Part for Shapes {
    ghost next = { behind_shape };

    ghost most = { SHAPE_NUMBERS };

    fn behind(numbers: &[u32], at: u32) -> u32 {
        behind_shape(numbers, at)
    }
}

pub struct Labels;

impl Part for Labels {
    ghost next = { behind_label };

    ghost most = { LABEL_NUMBERS };

    fn behind(numbers: &[u32], at: u32) -> u32 {
        behind_label(numbers, at)
    }
}

pub struct Items;

impl Part for Items {
    ghost next = { behind_item };

    ghost most = { ITEM_NUMBERS };

    fn behind(numbers: &[u32], at: u32) -> u32 {
        behind_item(numbers, at)
    }
}

// The place behind n parts from a place on.
pub fn behind_all<P: Part>(numbers: &[u32], first: u32, n: u32) -> u32
    requires { first + P.most * n < 2 ^ 31 }
    ensures value { result ≡ behind (P.next numbers.now) first n }
    ensures bounded { result ≤ first + P.most * n }
{
    // The closure of a fold would take any place, and behind requires one below 2^31: the loop's
    // invariant holds it there.
    let mut at = first;
    for _ in 0..n {
        at = P::behind(numbers, at);
    }
    at
}

// Where the count of labels stands: behind the shapes.
#[tactic(auto, unfolding(crate::specs::Parts::labels_place))]
pub fn labels_place(numbers: &[u32]) -> u32
    ensures value { result ≡ labels_place numbers.now }
    ensures bounded { result ≤ TOP_LABELS_PLACE }
{
    behind_all::<Shapes>(numbers, 2, count_at(SHAPES, numbers, 1))
}

// Where the count of items stands: behind the labels.
#[tactic(auto, unfolding(crate::specs::Parts::items_place))]
pub fn items_place(numbers: &[u32]) -> u32
    ensures value { result ≡ items_place numbers.now }
    ensures bounded { result ≤ TOP_ITEMS_PLACE }
{
    let place = labels_place(numbers);
    behind_all::<Labels>(numbers, place + 1, count_at(LABELS, numbers, place))
}
