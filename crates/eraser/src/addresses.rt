// The addresses of labels: how many kept items stand before each.
ghost use Rattle.std.specs.Prelude.{◌≡◌, ◌+◌, ◌≤◌, ◌<◌, ◌^◌};
ghost use Rattle.listing.specs.Parts.{items_in};
ghost use Rattle.eraser.specs.Erase.{kept_of, needed_of, count_behind, label_of, entered, addresses_from, no_addresses};

use listing::limits::{ITEMS, LABELS};
use listing::{Item, behind_item, count_at, item_at, items_place};

// Whether an item is kept.
pub fn kept(item: Item) -> bool
    ensures { result ≡ kept_of item }
{
    !matches!(item, Item::Cpush(_) | Item::Label(_))
}

// The count of kept items behind an item.
#[tactic(auto, unfolding(crate::specs::Erase::count_behind, choice::specs::Pick::pick))]
pub fn count_behind(item: Item, count: u32) -> u32
    requires { count < 2 ^ 31 }
    ensures value { result ≡ count_behind item count }
    ensures bounded { result ≤ count + 1 }
{
    if kept(item) { count + 1 } else { count }
}

// Enters the address of the label that an item places, if the table has an entry for it.
fn enter(item: Item, count: u32, addresses: &mut [u32; LABELS as usize])
    ensures { addresses.new ≡ entered item count addresses.old }
{
    if let Item::Label(l) = item {
        let i = l as usize;
        // By `get_mut` the proof does not close: what its write leaves in the table is not told.
        if i < addresses.len() {
            addresses[i] = count;
        }
    }
}

// A table with no address in it.
#[tactic(auto, unfolding(crate::specs::Erase::no_addresses))]
pub fn no_addresses() -> [u32; LABELS as usize]
    ensures { result ≡ no_addresses }
{
    [0; LABELS as usize]
}

// Enters the address of each label, and counts the kept items. This pass and that of the words are loops of
// their own: one pass that takes a closure is no plainer, since the closure's contract has to say again what
// it makes of the count and the table that it holds.
pub fn enter_all(numbers: &[u32], addresses: &mut [u32; LABELS as usize]) -> u32
    ensures value { result ≡ needed_of (items_in numbers.now) }
    ensures entered { addresses.new ≡ addresses_from (items_in numbers.now) 0 addresses.old }
{
    let place = items_place(numbers);
    let mut at = place + 1;
    let mut count = 0;
    // Not by the iterator over the items: `erase` takes 15 % longer by it, or 70 % where its `next` writes field
    // by field, and misses what `vans_erase` and `vans_desk` take against the peer (docs/SPEED.md).
    for _ in 0..count_at(ITEMS, numbers, place) {
        let item = item_at(numbers, at);
        enter(item, count, addresses);
        count = count_behind(item, count);
        at = behind_item(numbers, at);
    }
    count
}
