// The desk call on lent words: packet, items, 35, 30, 34, rows, fields, registers, run.
ghost use Rattle.std.specs.Prelude.{◌≡◌, ◌≤◌, true, length, replicate};
ghost use Rattle.refusals.specs.Refusals.{verdict_in};
ghost use Rattle.machine.specs.Run.{refusal_of};
ghost use Rattle.listing.specs.Limits;
ghost use Rattle.listing.specs.Parts.{items_in};
ghost use Rattle.eraser.specs.Erase.{needed_of};
ghost use Rattle.service.specs.Desk.{later_fault, serve_by, desk_call, code_for, ran_of, ran_call, desk_of};
ghost use Rattle.start.specs.Start.{passed};
ghost use Rattle.service.specs.Served.{service_in, fault_in, desk_fault};

use crate::sizing::sizes_for;
use listing::limits::BYTES;
use refusals::{Fault, Refusal};

// What the desk serves: the status that the run ended with, as `State` has it, the count of words acted on, and
// the registers. It has no pc, so a run's `Ran` is taken apart for it.
#[derive(Clone, Copy, Debug, PartialEq, Eq)]
pub struct Served {
    pub status: u8,
    pub count: u32,
    pub regs: [u32; 16],
}

// The refusals behind the items': sizes, and then the start's.
#[tactic(auto, using(crate::specs::DeskLaws::sizings))]
fn later_fault(
    numbers: &[u32],
    code: usize,
    heap: &[u32],
    blocks: &[u32],
    regs: &[u32; 16],
    budget: u32,
) -> Result<(), Fault>
    ensures { verdict_in result ≡ later_fault numbers.now code true heap.now blocks.now regs.now budget }
{
    sizes_for(numbers, code, heap.len(), blocks.len(), true, budget)?;
    start::check(numbers, heap, blocks, regs)
}

// Erases a listing's numbers into a buffer that the code fits, and runs it. Code, heap, registers and budget are
// arguments, here and around: of a struct each contract would say besides that its `&mut` are those lent, as
// `SameBuffers` says of desk's `Loan`.
fn run_numbers(
    numbers: &[u32],
    code: &mut [u32],
    heap: &mut [u32],
    regs: [u32; 16],
    budget: u32,
) -> Result<Served, Fault>
    requires fits { needed_of (items_in numbers.now) ≤ length code.old }
    requires within { refusal_of (needed_of (items_in numbers.now)) (length heap.old) budget ≡ 0 }
    ensures served { desk_call (service_in result regs) code.new heap.new ≡ ran_call (ran_of numbers.now heap.old regs budget) (code_for numbers.now) code.old }
    ensures unrefused { fault_in result ≡ passed }
{
    let n = eraser::erase(numbers, code) as usize;
    // No `map_err` and `?`: behind them the proof does not close by what closes these two arms.
    match machine::run(&code[..n], heap, regs, budget) {
        Ok(ran) => {
            let state = ran.state;
            let after = state.regs;
            Ok(Served {
                status: state.status,
                count: ran.count,
                regs: after,
            })
        }
        Err(refusal) => Err(Fault { refusal, place: 0 }),
    }
}

// Serves a listing's numbers.
#[tactic(auto, using(crate::specs::DeskLaws::servings))]
fn serve_numbers(
    numbers: &[u32],
    code: &mut [u32],
    heap: &mut [u32],
    blocks: &[u32],
    regs: [u32; 16],
    budget: u32,
) -> Result<Served, Fault>
    ensures served { desk_call (service_in result regs) code.new heap.new ≡ serve_by (later_fault numbers.now (length code.old) true heap.old blocks.now regs budget) numbers.now code.old heap.old regs budget }
    ensures refused { fault_in result ≡ later_fault numbers.now (length code.old) true heap.old blocks.now regs budget }
{
    later_fault(numbers, code.len(), heap, blocks, &regs, budget)?;
    run_numbers(numbers, code, heap, regs, budget)
}

// Room for the numbers of the longest packet. docs/PROMISES.md names it, as it names `lines::numbers_room`, and
// `lines` does not stand on this crate.
pub fn longest_room() -> [u32; BYTES]
    ensures { result ≡ replicate Limits.BYTES 0 }
{
    [0; BYTES]
}

// The desk call. Code and heap are written only after all checks, and a refusal changes neither.
pub fn serve(
    packet: &[u8],
    code: &mut [u32],
    heap: &mut [u32],
    blocks: &[u32],
    regs: [u32; 16],
    budget: u32,
) -> Result<Served, Fault>
    ensures served { desk_call (service_in result regs) code.new heap.new ≡ desk_of packet.now code.old heap.old blocks.now regs budget }
    ensures refused { fault_in result ≡ desk_fault packet.now (length code.old) heap.old blocks.now regs budget }
{
    if BYTES < packet.len() {
        return Err(Fault {
            refusal: Refusal::TooLong,
            place: 0,
        });
    }
    let mut room = longest_room();
    let n = checker::check(packet, &mut room)?;
    serve_numbers(&room[..n], code, heap, blocks, regs, budget)
}
