// The items of a listing, one after the other.
ghost use Rattle.std.specs.Prelude.{◌≡◌};
ghost use Rattle.std.specs.Iterator.{YieldsFirst, item_count};
ghost use Rattle.listing.specs.Parts.{items_in};
ghost use Rattle.listing.specs.Rest.{items_left};

use crate::items::{Item, item_at};
use crate::limits::ITEMS;
use crate::places::{behind_item, count_at, items_place};
use crate::rest::Rest;

impl<'a> Iterator for Rest<'a> {
    type Item = Item;

    ghost next_gives = { YieldsFirst items_left };

    ghost remaining = { item_count items_left };

    #[tactic(auto, using(crate::specs::Rest::rests))]
    fn next(&mut self) -> Option<Item> {
        if self.left == 0 {
            return None;
        }
        let item = item_at(self.numbers, self.at);
        *self = Rest {
            numbers: self.numbers,
            at: behind_item(self.numbers, self.at),
            left: self.left - 1,
        };
        Some(item)
    }
}

// The items of a listing, in order.
#[tactic(auto, unfolding(crate::specs::Parts::items_in))]
pub fn each_item(numbers: &[u32]) -> Rest
    ensures { items_left result ≡ items_in numbers.now }
{
    let place = items_place(numbers);
    Rest {
        numbers,
        at: place + 1,
        left: count_at(ITEMS, numbers, place),
    }
}
