// 30, 34 and 35: what is told by sizes alone.
ghost use Rattle.std.specs.Prelude.{◌≡◌};
ghost use Rattle.refusals.specs.Refusals.{verdict_in};
ghost use Rattle.listing.specs.Parts.{items_in};
ghost use Rattle.eraser.specs.Erase.{needed_of};
ghost use Rattle.service.specs.Desk.{right_sizes, sizes_of};

use crate::numbers::BLOCK_WORDS;
use machine::numbers::{BUDGET, HEAP_WORDS};
use refusals::{Fault, Refusal};

// 30: a heap and a block table of so many words, and whether buffers of bytes are whole words.
#[tactic(auto, using(choice::specs::Pick::cases), unfolding(crate::specs::Desk::right_sizes, machine::specs::Numbers::HEAP_WORDS, crate::specs::Numbers::BLOCK_WORDS))]
pub fn right_sizes(heap: usize, blocks: usize, whole: bool) -> bool
    ensures { result ≡ right_sizes heap blocks whole }
{
    heap <= HEAP_WORDS && blocks <= BLOCK_WORDS && blocks % 2 == 0 && whole
}

// 35, 30 and 34: words needed and words of the code buffer, whether the sizes are right, and the budget.
#[tactic(auto, using(choice::specs::Pick::cases), unfolding(crate::specs::Desk::sizes_of, machine::specs::Numbers::BUDGET))]
pub fn sizes(needed: u32, code: usize, right: bool, budget: u32) -> Result<(), Fault>
    ensures { verdict_in result ≡ sizes_of needed code right budget }
{
    let needed = needed as usize;
    if code < needed {
        return Err(Fault {
            refusal: Refusal::DoesNotFit,
            place: needed,
        });
    }
    if !right {
        return Err(Fault {
            refusal: Refusal::BadSize,
            place: 0,
        });
    }
    if BUDGET < budget {
        return Err(Fault {
            refusal: Refusal::BudgetTooLarge,
            place: 0,
        });
    }
    Ok(())
}

// The same of a listing's numbers: the words of code buffer, heap and block table, and whether buffers of bytes
// are whole words.
pub fn sizes_for(
    numbers: &[u32],
    code: usize,
    heap: usize,
    blocks: usize,
    whole: bool,
    budget: u32,
) -> Result<(), Fault>
    ensures { verdict_in result ≡ sizes_of (needed_of (items_in numbers.now)) code (right_sizes heap blocks whole) budget }
{
    let right = right_sizes(heap, blocks, whole);
    sizes(eraser::needed(numbers), code, right, budget)
}
