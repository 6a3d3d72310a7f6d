// The words of the blocks and the start registers: refusals 32 and 33.
ghost use Rattle.std.specs.Prelude.{◌≡◌, ◌<◌, ◌^◌};
ghost use Rattle.listing.specs.Parts.{field_at, register_at, shapes_in};
ghost use Rattle.refusals.specs.Refusals.{verdict_in};
ghost use Rattle.start.specs.PairLaws.{rows_in};
ghost use Rattle.start.specs.Start.{row_at, first_of, first_listed, word_of, word_fault, block_fault, fields_fault, register_fault, registers_fault, held_fault};

use crate::blocks::Blocks;
use crate::spans::{first_listed, shape};
use listing::limits::SHAPES;
use listing::{count_at, number_at};
use refusals::{Fault, Refusal, require};

// A start whose rows are good: the numbers of a listing, a heap, its blocks and the start registers.
#[derive(Clone, Copy)]
pub struct Start<'a> {
    pub numbers: &'a [u32],
    pub heap: &'a [u32],
    pub blocks: Blocks<'a>,
    pub regs: &'a [u32],
}

impl<'a> Start<'a> {
    // Whether the block word at an address, whose field stands at a place, is of its kind.
    #[tactic(auto, using(crate::specs::SearchLaws::required), unfolding(crate::specs::Start::word_fault))]
    fn check_word(&self, address: usize, at: u32) -> Result<(), Fault>
        ensures { verdict_in result ≡ word_fault (rows_in self.now.blocks.rows.now) self.now.heap.now (word_of address (field_at self.now.numbers.now at)) }
    {
        let kind = count_at(SHAPES, self.numbers, at);
        let value = number_at(self.heap, address);
        require(
            self.blocks.is_of_kind(kind, value),
            Fault {
                refusal: Refusal::BadField,
                place: address,
            },
        )
    }

    // The first fault of a block's words.
    #[tactic(auto, using(crate::specs::SearchLaws::faults, crate::specs::PairLaws::stands), unfolding(crate::specs::Start::block_fault))]
    fn check_block(&self, row: [u32; 2]) -> Result<(), Fault>
        ensures { verdict_in result ≡ block_fault (shapes_in self.now.numbers.now) (rows_in self.now.blocks.rows.now) self.now.heap.now (row_at row 0) }
    {
        let [base, s] = row;
        let fields = shape(self.numbers, s);
        // The number of a field, since its word's address and its place both come of it; a span that went
        // by them would need the same number in its contract and the loop's invariant.
        for c in 0..fields.count {
            self.check_word(base as usize + c as usize, fields.at + 2 * c)?;
        }
        Ok(())
    }

    // The first fault of all blocks' words, by rising address.
    #[tactic(auto, using(crate::specs::SearchLaws::faults, crate::specs::PairLaws::stands), unfolding(crate::specs::Start::fields_fault))]
    fn check_fields(&self) -> Result<(), Fault>
        ensures { verdict_in result ≡ fields_fault (shapes_in self.now.numbers.now) (rows_in self.now.blocks.rows.now) self.now.heap.now }
    {
        for &row in self.blocks.rows {
            self.check_block(row)?;
        }
        Ok(())
    }

    // Whether the register that is listed at a place is of its kind. The bound stands here: a span and a
    // number in the place's stead need a bound too, that of the number.
    #[tactic(auto, using(crate::specs::SearchLaws::required), unfolding(crate::specs::Start::register_fault))]
    fn check_register(&self, at: u32) -> Result<(), Fault>
        requires { at < 2 ^ 31 }
        ensures { verdict_in result ≡ register_fault (rows_in self.now.blocks.rows.now) self.now.regs.now (register_at self.now.numbers.now at) }
    {
        let index = number_at(self.numbers, at as usize) as usize;
        let kind = count_at(SHAPES, self.numbers, at + 1);
        let value = number_at(self.regs, index);
        require(
            self.blocks.is_of_kind(kind, value),
            Fault {
                refusal: Refusal::BadRegister,
                place: index,
            },
        )
    }

    // The first fault of the registers: r0 holds 0, then those that the first label lists.
    #[tactic(auto, using(crate::specs::SearchLaws::faults, crate::specs::SearchLaws::zeros, crate::specs::PairLaws::stands))]
    fn check_registers(&self) -> Result<(), Fault>
        ensures { verdict_in result ≡ registers_fault (rows_in self.now.blocks.rows.now) (first_listed self.now.numbers.now) self.now.regs.now }
    {
        let zero = number_at(self.regs, 0);
        let refusal = Refusal::BadRegister;
        require(zero == 0, Fault { refusal, place: 0 })?;
        let listed = first_listed(self.numbers);
        // By their number, as a block's fields.
        for n in 0..listed.count {
            self.check_register(listed.at + 3 * n)?;
        }
        Ok(())
    }

    // The first fault of all: fields before registers.
    #[tactic(auto, using(crate::specs::SearchLaws::orders))]
    pub fn check(&self) -> Result<(), Fault>
        ensures { verdict_in result ≡ held_fault (shapes_in self.now.numbers.now) (first_listed self.now.numbers.now) self.now.heap.now (rows_in self.now.blocks.rows.now) self.now.regs.now }
    {
        self.check_fields()?;
        self.check_registers()
    }
}
