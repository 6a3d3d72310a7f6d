// vans_run: the bare machine on byte buffers.
ghost use Rattle.std.specs.Prelude.{◌≡◌, length};
ghost use Rattle.refusals.specs.Refusals.{number_in};
ghost use Rattle.machine.specs.Run.{run_of};
ghost use Rattle.desk.specs.Bytes.{words_of, bytes_of};
ghost use Rattle.desk.specs.RunCall.{run_call, border_of, in_bytes, vans_run_of};
ghost use Rattle.desk.specs.RunCall;
ghost use Rattle.desk.specs.Done.{answer_in, Near};
ghost use Rattle.desk.specs.Loans.{left_in, SameBuffers};
ghost use Rattle.desk.specs.Work.{Lent, beside_code};

use crate::answers::{Done, packed, unplaced};
use crate::buffers::{Work, over_room};
use crate::loan::Loan;
use crate::words::{fill, spill};
use machine::numbers::CODE_WORDS;
use refusals::{Fault, Refusal};

// The sixteen registers in bytes.
pub const REGS_BYTES: usize = 64;

// The refusal of buffers of so many bytes: 36 first, then 30 for what is ragged, then the rest of the
// machine's.
#[tactic(auto, using(crate::specs::RunCallLaws::borders))]
fn border(code: usize, heap: usize, regs: usize, budget: u32) -> Result<(), Refusal>
    ensures { number_in result ≡ border_of code heap regs budget }
{
    if CODE_WORDS < code / 4 {
        return Err(Refusal::CodeTooLong);
    }
    if code % 4 + heap % 4 != 0 || regs != REGS_BYTES {
        return Err(Refusal::BadSize);
    }
    machine::within_limits(code / 4, heap / 4, budget)
}

// The sixteen registers of a buffer, copied by a length that the compiler knows.
pub fn registers(regs: &[u8]) -> [u32; 16]
    requires { length regs.now ≡ RunCall.REGS_BYTES }
    ensures { result ≡ words_of regs.now }
{
    let mut words = [0u32; 16];
    fill(&regs[..REGS_BYTES], &mut words);
    words
}

// Copies the words of a heap and of sixteen registers into the buffers.
fn put_back(h: &[u32], r: [u32; 16], loan: &mut Loan)
    requires { Lent (length h.now) (length loan.old.heap.now) (length loan.old.regs.now) }
    ensures heap { loan.new.heap.now ≡ bytes_of h.now }
    ensures regs { loan.new.regs.now ≡ bytes_of r }
    ensures out { loan.new.out.now ≡ loan.old.out.now }
    ensures same { SameBuffers loan.old loan.new }
{
    spill(h, loan.heap);
    spill(&r, loan.regs);
}

// Runs over words, and copies heap and registers into the buffers. Words, registers and loan come one by one,
// here and around: a struct of them is no plainer, since it could not say that the words are the loan's.
pub fn run_over(c: &[u32], h: &mut [u32], r: [u32; 16], loan: &mut Loan) -> Result<Done, Fault>
    requires { Lent (length h.old) (length loan.old.heap.now) (length loan.old.regs.now) }
    ensures ran { left_in (answer_in result) loan.new ≡ beside_code loan.old.out.now (in_bytes (run_of c.now h.old r loan.old.budget)) }
    ensures near { Near result }
    ensures same { SameBuffers loan.old loan.new }
{
    match machine::run(c, h, r, loan.budget) {
        Ok(ran) => {
            let state = ran.state;
            put_back(h, state.regs, loan);
            Ok(Done {
                status: state.status,
                count: ran.count,
            })
        }
        Err(refusal) => {
            put_back(h, r, loan);
            Err(Fault { refusal, place: 0 })
        }
    }
}

// Runs the table over the heap, if the border lets it through.
fn run_within(loan: &mut Loan) -> Result<Done, Fault>
    ensures ran { run_call (answer_in result) loan.new.heap.now loan.new.regs.now ≡ vans_run_of loan.old.table.now loan.old.heap.now loan.old.regs.now loan.old.budget }
    ensures near { Near result }
    ensures same { SameBuffers loan.old loan.new }
{
    border(
        loan.table.len(),
        loan.heap.len(),
        loan.regs.len(),
        loan.budget,
    )
    .map_err(unplaced)?;
    over_room(Work::Run, loan)
}

// Runs a code over a heap with the given registers, each lent as bytes. The answer holds the
// refusal or the status, and the count of words acted on; heap and registers are then the run's, or
// as they came where the run is refused.
#[unsafe(no_mangle)]
pub extern "C" fn vans_run(code: &[u8], heap: &mut [u8], regs: &mut [u8], budget: u32) -> u64
    ensures { run_call result heap.new regs.new ≡ vans_run_of code.now heap.old regs.old budget }
{
    let loan = &mut Loan {
        out: &mut [],
        heap,
        table: code,
        regs,
        budget,
    };
    let done = run_within(loan);
    packed(done)
}
