// Where the fields of a shape, and the registers that the first label lists, stand among the numbers.
ghost use Rattle.std.specs.Prelude.{◌≡◌, ◌+◌, ◌*◌, ◌<◌, ◌^◌};
ghost use Rattle.listing.specs.Parts.{shapes_in, labels_in};
ghost use Rattle.start.specs.Start.{shape_of, listed_by, listed_at, first_listed};
ghost use Rattle.start.specs.PartLaws.{fields_in, registers_in};

use listing::limits::{FIELDS, ITEMS, LABELS, REGISTERS, SHAPES, STACK};
use listing::{Item, Labels, Shapes, behind_all, count_at, item_at, items_place, labels_place};

// So many parts of no more than three numbers each, from a place on. They end before 2^31.
#[derive(Clone, Copy)]
pub struct Span {
    pub at: u32,
    pub count: u32,
    ghost near: { at + 3 * count < 2 ^ 31 },
}

// The fields of a shape, none where it does not exist.
#[tactic(auto, using(crate::specs::PartLaws::shapes))]
pub fn shape(numbers: &[u32], s: u32) -> Span
    ensures { shape_of (shapes_in numbers.now) s ≡ fields_in numbers.now result.at result.count }
{
    if s < count_at(SHAPES, numbers, 1) {
        let at = behind_all::<Shapes>(numbers, 2, s);
        let count = count_at(FIELDS, numbers, at);
        return Span { at: at + 1, count };
    }
    Span { at: 0, count: 0 }
}

// The registers that a label lists, none where the listing does not have it.
#[tactic(auto, using(crate::specs::PartLaws::listeds))]
fn listed_by(numbers: &[u32], l: u32) -> Span
    ensures { listed_by (labels_in numbers.now) l ≡ registers_in numbers.now result.at result.count }
{
    let place = labels_place(numbers);
    if l < count_at(LABELS, numbers, place) {
        let at = behind_all::<Labels>(numbers, place + 1, l);
        let registers = at + 2 + count_at(STACK, numbers, at + 1);
        let count = count_at(REGISTERS, numbers, registers);
        return Span {
            at: registers + 1,
            count,
        };
    }
    Span { at: 0, count: 0 }
}

// The registers that the label lists that an item places, none where it places none.
#[tactic(auto, using(crate::specs::PartLaws::other_lists, crate::specs::PartLaws::label_lists))]
fn listed_at(numbers: &[u32], item: Item) -> Span
    ensures { listed_at (labels_in numbers.now) item ≡ registers_in numbers.now result.at result.count }
{
    match item {
        Item::Label(l) => listed_by(numbers, l),
        _ => Span { at: 0, count: 0 },
    }
}

// The registers that the first label lists: the label that item 0 places.
#[tactic(auto, using(crate::specs::PartLaws::firsts))]
pub fn first_listed(numbers: &[u32]) -> Span
    ensures { first_listed numbers.now ≡ registers_in numbers.now result.at result.count }
{
    let place = items_place(numbers);
    if 0 < count_at(ITEMS, numbers, place) {
        let item = item_at(numbers, place + 1);
        return listed_at(numbers, item);
    }
    Span { at: 0, count: 0 }
}
