// The rows of the block table, one by one: refusal 31.
ghost use Rattle.std.specs.Prelude.{◌≡◌, ◌+◌, ltb};
ghost use Rattle.listing.specs.Parts.{shapes_in};
ghost use Rattle.refusals.specs.Refusals.{verdict_in};
ghost use Rattle.start.specs.Start.{row_at, rows_of, rows_from, good_row, least_after};
ghost use Rattle.start.specs.PairLaws.{rows_in};

use crate::spans::shape;
use listing::count_at;
use listing::limits::SHAPES;
use refusals::{Fault, Refusal, require};

// The rows of a table, a base and a shape each; a last odd word is no row.
#[tactic(auto, using(crate::specs::PairLaws::stands))]
pub fn rows_of(blocks: &[u32]) -> &[[u32; 2]]
    ensures { rows_in result.now ≡ rows_of blocks.now }
{
    let (rows, _) = blocks.as_chunks::<2>();
    rows
}

// Whether a row is good behind good ones that leave it a least base.
#[tactic(auto, using(crate::specs::SearchLaws::goods))]
fn is_good_row(numbers: &[u32], words: usize, least: usize, row: [u32; 2]) -> bool
    ensures { result ≡ good_row (shapes_in numbers.now) words least (row_at row 0) }
{
    let [base, s] = row;
    let size = shape(numbers, s).count;
    least <= base as usize
        && base as usize + size as usize <= words
        && s < count_at(SHAPES, numbers, 1)
}

// The least base that a row leaves to the next.
#[tactic(auto, using(crate::specs::SearchLaws::goods))]
fn least_after(numbers: &[u32], row: [u32; 2]) -> usize
    ensures { result ≡ least_after (shapes_in numbers.now) (row_at row 0) }
{
    let [base, s] = row;
    let size = shape(numbers, s).count;
    base as usize + size.max(1) as usize
}

// The first bad row, for a heap of so many words.
#[tactic(auto, using(crate::specs::SearchLaws::bads, crate::specs::PairLaws::stands))]
pub fn check_rows(numbers: &[u32], words: usize, rows: &[[u32; 2]]) -> Result<(), Fault>
    ensures { verdict_in result ≡ rows_from (shapes_in numbers.now) words 0 0 (rows_in rows.now) }
{
    let mut least = 0;
    for (place, &row) in rows.iter().enumerate() {
        let refusal = Refusal::BadRow;
        require(
            is_good_row(numbers, words, least, row),
            Fault { refusal, place },
        )?;
        least = least_after(numbers, row);
    }
    Ok(())
}
