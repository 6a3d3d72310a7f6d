// The items of a listing, read off its numbers.
ghost use Rattle.std.specs.Prelude.{◌≡◌, ◌≤◌, get_or};
ghost use Rattle.listing.specs.Parts.{item_of, item_at, size_of, count_of};

// An item, its operands in the packet's order.
#[derive(Clone, Copy, Debug, PartialEq, Eq)]
pub enum Item {
    Halt,
    // L
    Jmp(u32),
    // rs, L
    Bnz(u32, u32),
    // rd, rs, c
    Load(u32, u32, u32),
    // rd, c, rs
    Store(u32, u32, u32),
    // the item number, 5 to 9 for add, sub, and, xor, slt; rd, rs, rt. The number itself, since the
    // packet has it, the code word is made of it, and ItemRange holds it to these
    Compute(u32, u32, u32, u32),
    // the item number, 10 to 14 for the same; rd, rs, and the packet's number, 32,768 more than the
    // immediate
    ComputeImmediate(u32, u32, u32, u32),
    // L
    Cpush(u32),
    Cjmp(u32),
    Label(u32),
}

// The number at a place, 0 where there is none, as its clause says: so nobody who reads on owes a bound.
pub fn number_at(numbers: &[u32], at: usize) -> u32
    ensures { result ≡ get_or numbers.now at 0 }
{
    numbers.get(at).copied().unwrap_or(0)
}

// A count, or its limit where that is less.
#[tactic(auto, unfolding(crate::specs::Parts::count_of, choice::specs::Pick::pick))]
pub fn at_most(limit: u32, n: u32) -> u32
    ensures value { result ≡ count_of limit n }
    ensures held { result ≤ limit }
{
    n.min(limit)
}

// The item of a number and of operands. Here the packet's number becomes an Item, so it is matched as a
// number; item_of takes any, also one that no packet has.
#[tactic(auto, unfolding(crate::specs::Parts::item_of, choice::specs::Pick::pick))]
fn item_of(n: u32, a: u32, b: u32, c: u32) -> Item
    ensures { result ≡ item_of n a b c }
{
    match n {
        0 => Item::Halt,
        1 => Item::Jmp(a),
        2 => Item::Bnz(a, b),
        3 => Item::Load(a, b, c),
        4 => Item::Store(a, b, c),
        5..=9 => Item::Compute(n, a, b, c),
        10..=14 => Item::ComputeImmediate(n, a, b, c),
        15 => Item::Cpush(a),
        16 => Item::Cjmp(a),
        _ => Item::Label(a),
    }
}

// The item at a place.
pub fn item_at(numbers: &[u32], at: u32) -> Item
    ensures { result ≡ item_at numbers.now at }
{
    let i = at as usize;
    item_of(
        number_at(numbers, i),
        number_at(numbers, i + 1),
        number_at(numbers, i + 2),
        number_at(numbers, i + 3),
    )
}

// How many numbers an item is, by its number: size_of takes it, so that no Item is made to step over one.
#[tactic(auto, unfolding(crate::specs::Parts::size_of, choice::specs::Pick::pick))]
pub fn item_size(n: u32) -> u32
    ensures { result ≡ size_of n }
{
    match n {
        0 => 1,
        1 => 2,
        2 => 3,
        3..=14 => 4,
        _ => 2,
    }
}
