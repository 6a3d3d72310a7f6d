// The current context: what it says of the registers, the stack of labels, the pc level.
ghost use Rattle.std.specs.Prelude.{◌≡◌, ◌<◌, [], ◌∷◌, length, set};
ghost use Rattle.levels.specs.Sets.{join_of};
ghost use Rattle.listing.specs.Limits;
ghost use Rattle.rules.specs.Context.{typed, context_of, slot_at, exactly, no_registers};
ghost use Rattle.rules.specs.Held.{stack_in, context_in};

use crate::stacks::Stack;
use levels::join;

// What a context says of a register: whether it is listed, and its kind and level.
// The kind is a number, as the packet and each rule's row have it: 0 for an integer, k for a pointer to shape k − 1.
// A flag beside a kind and a level, no Option: `Slot` of specs/Context and of the rows `load_premises` and
// `store_premises` has a kind and a level at a register that is not listed too, which `load` and `store` may be given.
#[derive(Clone, Copy, PartialEq, Eq)]
pub struct Slot {
    pub listed: bool,
    pub kind: u8,
    pub level: u8,
}

// What is said of a register that is not listed.
const UNLISTED: Slot = Slot {
    listed: false,
    kind: 0,
    level: 0,
};

impl Slot {
    // A register that is listed.
    pub(crate) fn typed(kind: u8, level: u8) -> Slot
        ensures { result ≡ typed kind level }
    {
        Slot {
            listed: true,
            kind,
            level,
        }
    }

    // Whether a register is listed with exactly this kind and level, which may be any numbers.
    #[tactic(auto, unfolding(choice::specs::Pick::pick))]
    pub fn is_exactly(self, kind: u32, level: u32) -> bool
        ensures { result ≡ exactly self kind level }
    {
        self.listed && self.kind as u32 == kind && self.level as u32 == level
    }
}

// What is said of a register.
pub fn slot_at(registers: &[Slot; 16], r: u32) -> Slot
    ensures { result ≡ slot_at registers.now r }
{
    registers.get(r as usize).copied().unwrap_or(UNLISTED)
}

// Says something else of a register.
pub fn set_slot(registers: &mut [Slot; 16], r: u32, s: Slot)
    ensures { registers.new ≡ set registers.old r s }
{
    // No `get_mut`: the proof doesn't close, since behind an array's `get_mut` only its length is known.
    let i = r as usize;
    if i < registers.len() {
        registers[i] = s;
    }
}

// r0 alone.
#[tactic(auto, unfolding(crate::specs::Context::no_registers))]
pub(crate) fn no_registers() -> [Slot; 16]
    ensures { result ≡ no_registers }
{
    let mut registers = [UNLISTED; 16];
    registers[0] = Slot::typed(0, 0);
    registers
}

// The context.
#[derive(Clone, Copy)]
pub struct Held {
    pub level: u32,
    pub stack: Stack,
    pub registers: [Slot; 16],
}

impl Held {
    // The context of the walk's start, where nothing is listed yet.
    pub fn nothing() -> Held
        ensures { context_in result ≡ context_of 0 [] no_registers }
    {
        Held {
            level: 0,
            stack: Stack::empty(),
            registers: no_registers(),
        }
    }

    // What is said of a register.
    pub fn slot(&self, r: u32) -> Slot
        ensures { result ≡ slot_at self.now.registers r }
    {
        slot_at(&self.registers, r)
    }

    // Raises the pc level by a register's.
    pub fn raise(&mut self, rs: u32)
        ensures { context_in self.new ≡ context_of (join_of self.old.level (slot_at self.old.registers rs).level) (stack_in self.old.stack) self.old.registers }
    {
        let s = self.slot(rs);
        self.level = join(self.level, s.level as u32);
    }

    // Changes the kind of a register; its level stays.
    pub fn change(&mut self, rd: u32, kind: u8)
        ensures { context_in self.new ≡ context_of self.old.level (stack_in self.old.stack) (set self.old.registers rd (typed kind (slot_at self.old.registers rd).level)) }
    {
        let d = self.slot(rd);
        set_slot(&mut self.registers, rd, Slot::typed(kind, d.level));
    }

    // Puts a label on top of the stack.
    pub fn push(&mut self, l: u32)
        requires { length (stack_in self.old.stack) < Limits.STACK }
        ensures { context_in self.new ≡ context_of self.old.level (l ∷ stack_in self.old.stack) self.old.registers }
    {
        self.stack.push(l);
    }
}
