// A label's context, read off the numbers of a listing where it stands.
ghost use Rattle.std.specs.Prelude.{◌≡◌, ◌<◌, ◌≤◌, ◌+◌, length};
ghost use Rattle.listing.specs.Limits;
ghost use Rattle.listing.specs.Parts.{register_at, registers_place};
ghost use Rattle.rules.specs.Context.{slot_of, meets, met_of, same_of, no_registers, with_listed, entered};
ghost use Rattle.rules.specs.Held.{NEAR, label_in, stack_in, context_in};

use crate::contexts::{Held, Slot, no_registers, set_slot, slot_at};
use crate::stacks::Stack;
use listing::limits::{REGISTERS, SHAPES, STACK, TOP_LEVEL};
use listing::{at_most, number_at};

// The context that stands at a place.
#[derive(Clone, Copy)]
pub struct Label<'a> {
    pub numbers: &'a [u32],
    pub place: u32,
}

impl<'a> Label<'a> {
    pub fn level(self) -> u32
        ensures { result ≡ (label_in self.entry).level }
    {
        number_at(self.numbers, self.place as usize)
    }

    // How many labels are on its stack.
    #[tactic(auto, using(crate::specs::HeldLaws::label_depth))]
    pub fn depth(self) -> u32
        ensures { result ≡ length (label_in self.entry).stack }
    {
        at_most(STACK, number_at(self.numbers, self.place as usize + 1))
    }

    // Whether its stack is of these labels, the top one first.
    // No equality of slices: `number_at` reads 0 past the end of the numbers, where no slice of them is.
    #[tactic(auto, using(crate::specs::HeldLaws::same_short))]
    pub(crate) fn has_stack(self, labels: &[u32]) -> bool
        ensures { result ≡ same_of labels.now (label_in self.entry).stack }
    {
        let first = self.place as usize + 2;
        labels.len() == self.depth() as usize
            && labels
                .iter()
                .enumerate()
                .all(|(i, l)| *l == number_at(self.numbers, first + i))
    }

    // Its stack, pushed from its last label up.
    // A `for` with a push in it, here and in `registers`: a `fold` is no plainer, as it carries the same value by hand.
    #[tactic(auto, using(crate::specs::HeldLaws::pushings))]
    fn stack(self) -> Stack
        ensures { stack_in result ≡ (label_in self.entry).stack }
    {
        let first = self.place as usize + 2;
        let mut stack = Stack::empty();
        for i in (0..self.depth() as usize).rev() {
            stack.push(number_at(self.numbers, first + i));
        }
        stack
    }

    // Where its count of registers stands.
    #[tactic(auto, using(crate::specs::HeldLaws::count_within, crate::specs::HeldLaws::stack_length))]
    fn registers_place(self) -> usize
        ensures value { result ≡ registers_place self.entry.numbers.now self.entry.place }
        ensures near { result ≤ self.entry.place + 2 + Limits.STACK }
    {
        self.place as usize + 2 + self.depth() as usize
    }

    // What it says of the register that it lists at a place.
    fn listed_slot(self, at: usize) -> Slot
        requires { at < NEAR }
        ensures { result ≡ slot_of (register_at self.entry.numbers.now at) }
    {
        Slot::typed(
            at_most(SHAPES, number_at(self.numbers, at + 1)) as u8,
            at_most(TOP_LEVEL, number_at(self.numbers, at + 2)) as u8,
        )
    }

    // Whether the register listed at a place is listed now with equal kind and level.
    #[tactic(auto, unfolding(choice::specs::Pick::pick))]
    fn meets(self, registers: &[Slot; 16], at: usize) -> bool
        requires { at < NEAR }
        ensures { result ≡ meets registers.now (register_at self.entry.numbers.now at) }
    {
        slot_at(registers, number_at(self.numbers, at)) == self.listed_slot(at)
    }

    // Whether each register that it lists is listed now with equal kind and level.
    pub(crate) fn is_met(self, registers: &[Slot; 16]) -> bool
        ensures { result ≡ met_of registers.now (label_in self.entry).registers }
    {
        let place = self.registers_place();
        let n = at_most(REGISTERS, number_at(self.numbers, place)) as usize;
        (0..n).all(|i| self.meets(registers, place + 1 + 3 * i))
    }

    // The registers that it lists, and r0.
    #[tactic(auto, using(crate::specs::HeldLaws::listed_none))]
    fn registers(self) -> [Slot; 16]
        ensures { result ≡ with_listed no_registers (label_in self.entry).registers }
    {
        let place = self.registers_place();
        let mut registers = no_registers();
        for i in 0..at_most(REGISTERS, number_at(self.numbers, place)) as usize {
            let at = place + 1 + 3 * i;
            set_slot(
                &mut registers,
                number_at(self.numbers, at),
                self.listed_slot(at),
            );
        }
        registers
    }

    // The context in which its block begins.
    pub fn enter(self) -> Held
        ensures { context_in result ≡ entered (label_in self.entry) }
    {
        Held {
            level: self.level(),
            stack: self.stack(),
            registers: self.registers(),
        }
    }
}
