// The state, and one step of the machine.
ghost use Rattle.std.specs.Prelude.{◌≡◌};
ghost use Rattle.machine.specs.Step.{machine_of, act_of, step_of};
ghost use Rattle.machine.specs.Stops.{left_at};

use crate::kinds::{bnz, compute_immediate, compute_registers, halt, jmp, load, store};
use crate::numbers::{RUNNING, Stop};
use crate::registers::Registers;
use crate::word::Word;

// The sixteen registers, the pc and a status. The status stays a number: a state is the caller's to
// make, any number may come in it, and any but RUNNING is that of a stopped state.
#[derive(Clone, Copy)]
pub struct State {
    pub regs: [u32; 16],
    pub pc: usize,
    pub status: u8,
}

// One step of a running machine, on registers that are lent. The opcode is matched as the number that
// 01 gives it, with a trap for the rest. A range takes the operations; those that loops are made of
// have arms of their own before it, for one jump finds an arm of a single number, and a range takes
// tests.
#[tactic(auto, using(crate::specs::TableLaws::opcodes))]
pub fn act(code: &[u32], heap: &mut [u32], regs: &mut Registers, pc: usize) -> Result<usize, Stop>
    ensures { left_at result regs.new.words pc heap.new ≡ act_of code.now regs.old.words pc heap.old }
{
    let bits = *code.get(pc).ok_or(Stop::NoWord)?;
    let w = Word { bits, pc };
    let op = w.opcode();
    match op {
        0 => halt(w),
        1 => jmp(w),
        2 => bnz(regs, w),
        3 => load(heap, regs, w),
        4 => store(heap, regs, w),
        5 => compute_registers(regs, 5, w),
        6 => compute_registers(regs, 6, w),
        7 => compute_registers(regs, 7, w),
        8 => compute_registers(regs, 8, w),
        10 => compute_immediate(regs, 5, w),
        11 => compute_immediate(regs, 6, w),
        12 => compute_immediate(regs, 7, w),
        13 => compute_immediate(regs, 8, w),
        5..=9 => compute_registers(regs, op, w),
        10..=14 => compute_immediate(regs, op - 5, w),
        _ => Err(Stop::BadWord),
    }
}

// One step: a running state acts on the word at its pc or traps; a stopped state stays as it is.
// What the state holds in r0 is put aside for the step.
pub fn step(code: &[u32], heap: &mut [u32], s: State) -> State
    ensures { machine_of result heap.new ≡ step_of code.now (machine_of s heap.old) }
{
    if s.status != RUNNING {
        return s;
    }
    let start = s.regs;
    let mut regs = Registers::new(start);
    match act(code, heap, &mut regs, s.pc) {
        Ok(next) => regs.into_state(start[0], next, RUNNING),
        Err(stop) => regs.into_state(start[0], s.pc, stop.status()),
    }
}
