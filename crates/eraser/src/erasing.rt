// The eraser's calls.
ghost use Rattle.std.specs.Prelude.{◌≡◌};
ghost use Rattle.listing.specs.Parts.{items_in};
ghost use Rattle.eraser.specs.Erase.{needed_of, erased_by, erase_of};

use crate::addresses::{enter_all, no_addresses};
use crate::words::put_all;

// How many words the code of a listing's numbers needs.
pub fn needed(numbers: &[u32]) -> u32
    ensures { result ≡ needed_of (items_in numbers.now) }
{
    let mut addresses = no_addresses();
    // Not by the iterator over the items and with no table: `needed` takes 25 % longer by it, and misses what
    // `vans_erase` and `vans_desk` take against the peer (docs/SPEED.md).
    enter_all(numbers, &mut addresses)
}

// Erases a listing's numbers into the buffer, if the code fits, and answers how many words it needs.
// Where it does not fit, nothing is written; words past the code keep their values. No `Result`: `erase_of`
// and docs/PROMISES.md have the count alone, and a function that could not fail still can't.
#[tactic(auto, using(crate::specs::PassLaws::calls))]
pub fn erase(numbers: &[u32], code: &mut [u32]) -> u32
    ensures { erased_by result code.new ≡ erase_of numbers.now code.old }
{
    let mut addresses = no_addresses();
    let count = enter_all(numbers, &mut addresses);
    if code.len() < count as usize {
        return count;
    }
    put_all(numbers, &addresses, code);
    count
}
