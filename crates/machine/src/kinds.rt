// What a word of each kind does to a running machine.

#![tactic(auto, using(crate::specs::TableLaws::table), unfolding(choice::specs::Pick::pick))]

ghost use Rattle.std.specs.Prelude.{◌≡◌, ◌+◌, ℕ, List, Ok, Err, eqb};
ghost use Rattle.choice.specs.Pick.{pick};
ghost use Rattle.machine.specs.Word.{rd_of, rs_of, halt_in, jmp_in, bnz_in, load_in, store_in, compute_in, compute_immediate_in};
ghost use Rattle.machine.specs.Arithmetic.{compute_of};
ghost use Rattle.machine.specs.Step.{read_of, write_of, does_of};
ghost use Rattle.machine.specs.Stops.{left_at};
ghost use Rattle.machine.specs.declared.numbers.Stop.TheVariants.{BadWord};

use crate::arithmetic::{compute, extended};
use crate::numbers::Stop;
use crate::registers::Registers;
use crate::word::Word;
use refusals::require;

// A word is bad where a part that its kind leaves unused is not 0.
fn unused(part: usize) -> Result<(), Stop>
    ensures { result ≡ pick (eqb part 0) (Ok tt) (Err BadWord) }
{
    require(part == 0, Stop::BadWord)
}

// The functions below each do what a word of one kind does, and answer the pc where the machine goes
// on, or why it stops. Each is lent what its kind reads and writes, and its contract holds beside
// whatever else the machine has.

pub fn halt(w: Word) -> Result<usize, Stop>
    ensures { (regs heap : List ℕ) → left_at result regs w.pc heap ≡ does_of (halt_in w.bits) regs w.pc heap }
{
    unused(w.unused_by_halt())?;
    Err(Stop::Halted)
}

pub fn jmp(w: Word) -> Result<usize, Stop>
    ensures { (regs heap : List ℕ) → left_at result regs w.pc heap ≡ does_of (jmp_in w.bits) regs w.pc heap }
{
    unused(w.unused_by_jmp())?;
    Ok(w.low() as usize)
}

pub fn bnz(regs: &Registers, w: Word) -> Result<usize, Stop>
    ensures { (heap : List ℕ) → left_at result regs.now.words w.pc heap ≡ does_of (bnz_in w.bits) regs.now.words w.pc heap }
{
    unused(w.unused_by_bnz())?;
    if regs.read(w.rs()) == 0 {
        return Ok(w.next());
    }
    Ok(w.low() as usize)
}

pub fn load(heap: &[u32], regs: &mut Registers, w: Word) -> Result<usize, Stop>
    ensures { left_at result regs.new.words w.pc heap.now ≡ does_of (load_in w.bits) regs.old.words w.pc heap.now }
{
    unused(w.rt())?;
    let at = regs.address(w.rs(), w.low());
    let word = *heap.get(at).ok_or(Stop::BadAddress)?;
    regs.write(w.rd(), word);
    Ok(w.next())
}

pub fn store(heap: &mut [u32], regs: &Registers, w: Word) -> Result<usize, Stop>
    ensures { left_at result regs.now.words w.pc heap.new ≡ does_of (store_in w.bits) regs.now.words w.pc heap.old }
{
    unused(w.rt())?;
    let at = regs.address(w.rd(), w.low());
    // Not by get_mut: that what it lends is the heap's word, and all others stay, did not close.
    require(at < heap.len(), Stop::BadAddress)?;
    heap[at] = regs.read(w.rs());
    Ok(w.next())
}

// An operation on the register rs of w and a second word.
fn operate(regs: &mut Registers, op: usize, w: Word, second: u32) -> usize
    ensures written { regs.new.words ≡ write_of regs.old.words (rd_of w.bits) (compute_of op (read_of regs.old.words (rs_of w.bits)) second) }
    ensures next { result ≡ w.pc + 1 }
{
    let v = compute(op, regs.read(w.rs()), second);
    regs.write(w.rd(), v);
    w.next()
}

pub fn compute_registers(regs: &mut Registers, op: usize, w: Word) -> Result<usize, Stop>
    ensures { (heap : List ℕ) → left_at result regs.new.words w.pc heap ≡ does_of (compute_in op w.bits) regs.old.words w.pc heap }
{
    unused(w.low() as usize)?;
    let second = regs.read(w.rt());
    Ok(operate(regs, op, w, second))
}

pub fn compute_immediate(regs: &mut Registers, op: usize, w: Word) -> Result<usize, Stop>
    ensures { (heap : List ℕ) → left_at result regs.new.words w.pc heap ≡ does_of (compute_immediate_in op w.bits) regs.old.words w.pc heap }
{
    unused(w.rt())?;
    Ok(operate(regs, op, w, extended(w.low())))
}
