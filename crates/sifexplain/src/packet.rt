// A packet, its numbers, and where items, labels and shapes stand among them.
use checker::field_count;
use listing::limits::{ITEMS, LABELS, SHAPES};
use listing::{
    Item, Items, Labels, Rest, Shapes, behind_all, count_at, each_item, items_place, labels_place,
};
use rules::Label;

#[derive(Clone, Copy)]
pub struct Packet<'a> {
    pub bytes: &'a [u8],
    pub numbers: &'a [u32],
}

impl<'a> Packet<'a> {
    pub fn shape_place(&self, s: u32) -> u32 {
        behind_all::<Shapes>(self.numbers, 2, s.min(SHAPES))
    }

    pub fn field_count(&self, s: u32) -> u32 {
        field_count(self.numbers, self.shape_place(s))
    }

    pub fn label(&self, l: u32) -> Label<'a> {
        let first = labels_place(self.numbers) + 1;
        Label {
            numbers: self.numbers,
            place: behind_all::<Labels>(self.numbers, first, l.min(LABELS)),
        }
    }

    pub fn items(&self) -> Rest<'a> {
        each_item(self.numbers)
    }

    pub fn item_count(&self) -> u32 {
        count_at(ITEMS, self.numbers, items_place(self.numbers))
    }

    // An item by its number, which is one of the packet's at each place that asks: of an Option none would say anything
    // at None.
    pub fn item(&self, i: usize) -> Item {
        self.items().nth(i).unwrap_or(Item::Halt)
    }

    // How many numbers stand before an item.
    pub fn item_place(&self, i: usize) -> u32 {
        let first = items_place(self.numbers) + 1;
        behind_all::<Items>(self.numbers, first, i.min(ITEMS as usize) as u32)
    }

    // The item that places a label, of those before item n.
    pub fn placed_by(&self, l: u32, n: usize) -> Option<usize> {
        self.items().take(n).position(|item| item == Item::Label(l))
    }

    // The first label that no item places. The items are gone through once: by `placed_by` each would be made again for
    // each label.
    pub fn first_unplaced(&self) -> Option<u32> {
        let mut placed = [false; LABELS as usize];
        for item in self.items() {
            if let Item::Label(l) = item
                && let Some(here) = placed.get_mut(l as usize)
            {
                *here = true;
            }
        }
        (0..LABELS).find(|l| !placed[*l as usize])
    }
}
