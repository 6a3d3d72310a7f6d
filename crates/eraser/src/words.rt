// The code words of the kept items.
ghost use Rattle.std.specs.Prelude.{◌≡◌, ◌≤◌, ◌<◌, ◌^◌, length};
ghost use Rattle.listing.specs.Parts.{items_in};
ghost use Rattle.eraser.specs.Erase.{needed_of, count_behind, address_at, immediate_of, cut_word};
ghost use Rattle.eraser.specs.PassLaws.{kept_word, put_of, written_from};

use listing::limits::{ITEMS, LABELS};
use listing::{Item, behind_item, count_at, item_at, items_place, number_at};

// A word of an opcode, rd, rs, rt and a low half, each cut to its bits.
fn cut_word(op: u32, rd: u32, rs: u32, rt: u32, low: u32) -> u32
    ensures { result ≡ cut_word op rd rs rt low }
{
    op % 16 * 0x1000_0000
        + rd % 16 * 0x0100_0000
        + rs % 16 * 0x0010_0000
        + rt % 16 * 0x0001_0000
        + low % 0x0001_0000
}

// The word of a jump to a label, by the table of addresses.
fn jump_word(op: u32, rs: u32, l: u32, addresses: &[u32; LABELS as usize]) -> u32
    ensures { result ≡ cut_word op 0 rs 0 (address_at addresses.now l) }
{
    cut_word(op, 0, rs, 0, number_at(addresses, l as usize))
}

// The word of an operation with an immediate.
fn immediate_word(op: u32, rd: u32, rs: u32, i: u32) -> u32
    ensures { result ≡ cut_word op rd rs 0 (immediate_of i) }
{
    cut_word(op, rd, rs, 0, i % 0x0001_0000 + 32768)
}

// The word of an item, if it is kept: its opcode is its item number, and a cjmp's that of a jmp.
#[tactic(auto, unfolding(crate::specs::PassLaws::kept_word, choice::specs::Pick::pick))]
fn word(item: Item, addresses: &[u32; LABELS as usize]) -> Option<u32>
    ensures { result ≡ kept_word addresses.now item }
{
    match item {
        Item::Halt => Some(cut_word(0, 0, 0, 0, 0)),
        Item::Jmp(l) | Item::Cjmp(l) => Some(jump_word(1, 0, l, addresses)),
        Item::Bnz(rs, l) => Some(jump_word(2, rs, l, addresses)),
        Item::Load(rd, rs, c) => Some(cut_word(3, rd, rs, 0, c)),
        Item::Store(rd, c, rs) => Some(cut_word(4, rd, rs, 0, c)),
        Item::Compute(op, rd, rs, rt) => Some(cut_word(op, rd, rs, rt, 0)),
        Item::ComputeImmediate(op, rd, rs, i) => Some(immediate_word(op, rd, rs, i)),
        Item::Cpush(_) | Item::Label(_) => None,
    }
}

// Writes the word of an item, if it is kept, and answers the count of kept items behind it.
fn put(item: Item, addresses: &[u32; LABELS as usize], code: &mut [u32], count: u32) -> u32
    requires room { count_behind item count ≤ length code.old }
    requires small { count < 2 ^ 31 }
    ensures value { result ≡ count_behind item count }
    ensures written { code.new ≡ put_of addresses.now item count code.old }
{
    match word(item, addresses) {
        Some(w) => {
            code[count as usize] = w;
            count + 1
        }
        None => count,
    }
}

// Writes the words of the kept items.
pub fn put_all(numbers: &[u32], addresses: &[u32; LABELS as usize], code: &mut [u32])
    requires { needed_of (items_in numbers.now) ≤ length code.old }
    ensures { code.new ≡ written_from addresses.now (items_in numbers.now) 0 code.old }
{
    let place = items_place(numbers);
    let mut at = place + 1;
    let mut count = 0;
    // Not by the iterator over the items: `erase` takes 15 % longer by it, and misses what `vans_erase` and
    // `vans_desk` take against the peer (docs/SPEED.md).
    for _ in 0..count_at(ITEMS, numbers, place) {
        let item = item_at(numbers, at);
        count = put(item, addresses, code, count);
        at = behind_item(numbers, at);
    }
}
