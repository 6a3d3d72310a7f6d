// vans_desk behind the checker: a listing's numbers served over byte buffers.
ghost use Rattle.std.specs.Prelude.{◌≡◌, ◌/◌, ◌≤◌, length};
ghost use Rattle.refusals.specs.Refusals.{verdict_in};
ghost use Rattle.listing.specs.Parts.{items_in};
ghost use Rattle.eraser.specs.Erase.{needed_of};
ghost use Rattle.start.specs.Start.{first_listed, start_of};
ghost use Rattle.start.specs.ListedLaws.{Indexed};
ghost use Rattle.service.specs.Desk.{code_for, ran_of};
ghost use Rattle.desk.specs.Bytes.{words_of};
ghost use Rattle.desk.specs.VansDesk.{whole_of, ran_bytes, serve_bytes, bytes_size, bytes_fault};
ghost use Rattle.desk.specs.Done.{answer_in, Near};
ghost use Rattle.desk.specs.Loans.{left_in, SameBuffers};
ghost use Rattle.desk.specs.Work.{Lent, Fitting, Ready};

use crate::answers::Done;
use crate::buffers::{Work, over_room};
use crate::loan::Loan;
use crate::run_call::{REGS_BYTES, run_over};
use crate::words::spill;
use machine::numbers::CODE_WORDS;
use refusals::Fault;

// Whether buffers of so many bytes are whole words, and sixteen registers.
#[tactic(auto, using(choice::specs::Pick::cases), unfolding(crate::specs::VansDesk::whole_of))]
fn whole(code: usize, heap: usize, blocks: usize, regs: usize) -> bool
    ensures { result ≡ whole_of code heap blocks regs }
{
    code % 4 + heap % 4 + blocks % 4 == 0 && regs == REGS_BYTES
}

// Erases a listing's numbers in front of a buffer that the code fits, and runs it over words.
fn run_erased(numbers: &[u32], h: &mut [u32], r: [u32; 16], loan: &mut Loan) -> Result<Done, Fault>
    requires numbers_in_bounds { needed_of (items_in numbers.now) ≤ length loan.old.out.now / 4 }
    requires lent { Lent (length h.old) (length loan.old.heap.now) (length loan.old.regs.now) }
    ensures ran { left_in (answer_in result) loan.new ≡ ran_bytes (ran_of numbers.now h.old r loan.old.budget) (code_for numbers.now) loan.old.out.now }
    ensures near { Near result }
    ensures same { SameBuffers loan.old loan.new }
{
    let mut c = [0; CODE_WORDS];
    let n = eraser::erase(numbers, &mut c) as usize;
    spill(&c[..n], loan.out);
    run_over(&c[..n], h, r, loan)
}

// Checks the start over words, and runs. It keeps a frame of its own, for the code and the kinds of the blocks: within
// `over_words` a bare run would make that frame too.
#[inline(never)]
#[tactic(auto, using(crate::specs::VansDeskLaws::starts))]
pub fn start_over(
    numbers: &[u32],
    h: &mut [u32],
    b: &[u32],
    r: [u32; 16],
    loan: &mut Loan,
) -> Result<Done, Fault>
    requires fitting { Fitting (length b.now) (length h.old) (length loan.old.heap.now) (length loan.old.regs.now) }
    requires ready { Ready numbers.now (length loan.old.out.now) }
    ensures served { left_in (answer_in result) loan.new ≡ serve_bytes (start_of numbers.now h.old b.now r) numbers.now h.old r loan.old.out.now loan.old.heap.now loan.old.regs.now loan.old.budget }
    ensures near { Near result }
    ensures same { SameBuffers loan.old loan.new }
{
    start::check(numbers, h, b, &r)?;
    run_erased(numbers, h, r, loan)
}

// 35, 30 and 34, by the buffers' bytes.
#[tactic(auto, using(crate::specs::VansDeskLaws::sizings))]
fn size_fault(numbers: &[u32], loan: &Loan) -> Result<(), Fault>
    ensures { verdict_in result ≡ bytes_size numbers.now (length loan.now.out.now) (length loan.now.heap.now) (length loan.now.table.now) (length loan.now.regs.now) loan.now.budget }
{
    let code = loan.out.len();
    let heap = loan.heap.len();
    let blocks = loan.table.len();
    let are_whole = whole(code, heap, blocks, loan.regs.len());
    service::sizes_for(
        numbers,
        code / 4,
        heap / 4,
        blocks / 4,
        are_whole,
        loan.budget,
    )
}

// Serves a listing's numbers: 35, 30 and 34, then the start and the run.
#[tactic(auto, using(crate::specs::VansDeskLaws::servings))]
pub fn serve_bytes(numbers: &[u32], loan: &mut Loan) -> Result<Done, Fault>
    requires { Indexed (first_listed numbers.now) }
    ensures served { left_in (answer_in result) loan.new ≡ serve_bytes (bytes_fault numbers.now loan.old.out.now loan.old.heap.now loan.old.table.now loan.old.regs.now loan.old.budget) numbers.now (words_of loan.old.heap.now) (words_of loan.old.regs.now) loan.old.out.now loan.old.heap.now loan.old.regs.now loan.old.budget }
    ensures near { Near result }
    ensures same { SameBuffers loan.old loan.new }
{
    size_fault(numbers, loan)?;
    over_room(Work::Start(numbers), loan)
}
