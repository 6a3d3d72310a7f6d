// The registers of a machine that goes.
ghost use Rattle.std.specs.Prelude.{◌≡◌, ◌+◌, ◌<◌, get_or, set};
ghost use Rattle.machine.specs.Step.{read_of, write_of};

use crate::table::State;

// The sixteen registers with 0 in r0, so that no read has to ask which register it is.
// Its methods ask for an index below 16, which a word's part is: a type for four bits is no plainer, as every use
// of it indexes.
#[derive(Drop)]
pub struct Registers {
    words: [u32; 16],
    ghost zero: { get_or words 0 0 ≡ 0 },
}

impl Registers {
    // The registers of a state, but for what it holds in r0.
    pub fn new(regs: [u32; 16]) -> Registers
        ensures { result.words ≡ set regs 0 0 }
    {
        let mut words = regs;
        words[0] = 0;
        Registers { words }
    }

    // The state with these registers, where r0 holds what was put aside.
    pub fn into_state(self, aside: u32, pc: usize, status: u8) -> State
        ensures { result ≡ record { regs = set self.words 0 aside; pc = pc; status = status } }
    {
        let mut regs = self.words;
        regs[0] = aside;
        State { regs, pc, status }
    }

    // The word of a register.
    #[tactic(auto, using(crate::specs::R0Laws::reads_plain))]
    pub fn read(&self, i: usize) -> u32
        requires { i < 16 }
        ensures { result ≡ read_of self.now.words i }
    {
        self.words[i]
    }

    // Writes a register; a write to r0 has no effect.
    #[tactic(auto, using(crate::specs::TableLaws::registers))]
    pub fn write(&mut self, i: usize, v: u32)
        requires { i < 16 }
        ensures { self.new.words ≡ write_of self.old.words i v }
    {
        if i != 0 {
            self.words[i] = v;
        }
    }

    // The address that a register and an offset name, as a whole number.
    pub fn address(&self, i: usize, offset: u16) -> usize
        requires { i < 16 }
        ensures { result ≡ read_of self.now.words i + offset }
    {
        self.read(i) as usize + offset as usize
    }
}
