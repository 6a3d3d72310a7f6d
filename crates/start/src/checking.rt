// The whole check.
ghost use Rattle.std.specs.Prelude.{◌≡◌};
ghost use Rattle.listing.specs.Parts.{shapes_in};
ghost use Rattle.refusals.specs.Refusals.{verdict_in};
ghost use Rattle.start.specs.KindLaws.{Kinds, Rising};
ghost use Rattle.start.specs.PairLaws.{rows_in};
ghost use Rattle.start.specs.Start.{first_listed, held_fault, start_of};

use crate::blocks::Blocks;
use crate::kinds::kinds_of;
use crate::rows::{check_rows, rows_of};
use crate::starts::Start;
use refusals::Fault;

// So many rows of the block table make a table of kinds worth its room.
const FEW: usize = 16;

// The first refusal behind good rows, with the table of their kinds. Rows and table come one by one, and are made
// `Blocks` here: of a table whose place is stored where it is made the compiler makes a copy.
fn check_by<'a>(
    numbers: &'a [u32],
    heap: &'a [u32],
    rows: &'a [[u32; 2]],
    kinds: &'a [u8],
    regs: &'a [u32],
) -> Result<(), Fault>
    requires { Kinds (rows_in rows.now) kinds.now }
    ensures { verdict_in result ≡ held_fault (shapes_in numbers.now) (first_listed numbers.now) heap.now (rows_in rows.now) regs.now }
{
    let start = Start {
        numbers,
        heap,
        blocks: Blocks { rows, kinds },
        regs,
    };
    start.check()
}

// The same of the rows alone. A few are looked through sooner than a table is cleared.
fn check_held<'a>(
    numbers: &'a [u32],
    heap: &'a [u32],
    rows: &'a [[u32; 2]],
    regs: &'a [u32],
) -> Result<(), Fault>
    requires { Rising (rows_in rows.now) }
    ensures { verdict_in result ≡ held_fault (shapes_in numbers.now) (first_listed numbers.now) heap.now (rows_in rows.now) regs.now }
{
    if rows.len() < FEW {
        return check_by(numbers, heap, rows, &[], regs);
    }
    let kinds = kinds_of(rows);
    check_by(numbers, heap, rows, &kinds, regs)
}

// Whether a start fits a listing's numbers: the first refusal, rows before fields before registers.
#[tactic(auto, using(crate::specs::SearchLaws::orders, crate::specs::KindLaws::good_rise), unfolding(crate::specs::Start::start_in, crate::specs::Start::rows_fault))]
pub fn check(numbers: &[u32], heap: &[u32], blocks: &[u32], regs: &[u32; 16]) -> Result<(), Fault>
    ensures { verdict_in result ≡ start_of numbers.now heap.now blocks.now regs.now }
{
    let rows = rows_of(blocks);
    check_rows(numbers, heap.len(), rows)?;
    check_held(numbers, heap, rows, regs)
}
