// Rooms for the words of lent buffers: a table, which is a code or the rows of blocks, and a heap. `Work`
// says what is done over them.
ghost use Rattle.std.specs.Prelude.{◌≡◌, ◌*◌, ◌^◌, ◌<◌, ◌≤◌, length};
ghost use Rattle.desk.specs.Bytes.{words_of};
ghost use Rattle.desk.specs.Loans.{left_in, SameBuffers, WholeLoan};
ghost use Rattle.desk.specs.LentCall.{lent_call};
ghost use Rattle.desk.specs.Done.{answer_in, Near};
ghost use Rattle.desk.specs.Work.{Fitting, Whole, rooms_for, work_of};
ghost use Rattle.desk.specs.Works.{MeantWork, numbers_for, work_number, work_on};

use crate::answers::Done;
use crate::desk_bytes::start_over;
use crate::loan::Loan;
use crate::run_call::{registers, run_over};
use crate::words::fill;
use machine::numbers::{CODE_WORDS, HEAP_WORDS};
use refusals::Fault;

// What is done over the words: the code that the table is runs, or the listing with these numbers starts
// over the blocks that it has the rows of. The buffers travel beside it, in a loan, as beside a `Task`.
#[derive(Clone, Copy)]
pub enum Work<'a> {
    Run,
    Start(&'a [u32]),
}

// The most words of a small table, and of a small heap.
const SMALL_WORDS: usize = 64;

// Does the work over the words of a loan's table, heap and registers.
fn over_words(
    work: Work,
    t: &[u32],
    h: &mut [u32],
    r: [u32; 16],
    loan: &mut Loan,
) -> Result<Done, Fault>
    requires table { t.now ≡ words_of loan.old.table.now }
    requires heap { h.old ≡ words_of loan.old.heap.now }
    requires regs { r ≡ words_of loan.old.regs.now }
    requires fitting { Fitting (length t.now) (length h.old) (length loan.old.heap.now) (length loan.old.regs.now) }
    requires meant { MeantWork work (length loan.old.out.now) }
    ensures did { left_in (answer_in result) loan.new ≡ work_on work.entry loan.old }
    ensures near { Near result }
    ensures same { SameBuffers loan.old loan.new }
{
    match work {
        Work::Run => run_over(t, h, r, loan),
        Work::Start(numbers) => start_over(numbers, h, t, r, loan),
    }
}

// In rooms for so many words, to which table and heap are copied. Each size has a stack frame of its own. The
// buffers come one by one, so that the compiler knows the rooms to be apart from them: the loops that fill
// these then become block copies.
#[inline(never)]
fn over_rooms<const TABLE: usize, const HEAP: usize>(
    work: Work,
    out: &mut [u8],
    heap: &mut [u8],
    table: &[u8],
    regs: &mut [u8],
    budget: u32,
) -> Result<Done, Fault>
    requires table_room { TABLE < 2 ^ 61 }
    requires heap_room { HEAP < 2 ^ 61 }
    requires smallest { (TABLE, HEAP) ≡ rooms_for (length table.now) (length heap.old) }
    requires table_in_bounds { length table.now ≤ TABLE * 4 }
    requires heap_in_bounds { length heap.old ≤ HEAP * 4 }
    requires whole { Whole (length table.now) (length heap.old) (length regs.old) }
    requires meant { MeantWork work (length out.old) }
    ensures did { lent_call (answer_in result) out.new heap.new regs.new ≡ work_of (work_number work.entry) (numbers_for work.entry) out.old table.now heap.old regs.old budget }
    ensures near { Near result }
{
    let mut t = [0; TABLE];
    let mut h = [0; HEAP];
    fill(table, &mut t);
    fill(heap, &mut h);
    let n = table.len() / 4;
    let m = heap.len() / 4;
    let r = registers(regs);
    let loan = &mut Loan {
        out,
        heap,
        table,
        regs,
        budget,
    };
    over_words(work, &t[..n], &mut h[..m], r, loan)
}

// In the smallest of three sizes that the buffers fit: clearing room for the largest heap takes longer than
// a short run. Always inlined: called, it takes a loan apart that was just made, a tenth of a short run.
#[inline(always)]
#[tactic(auto, using(choice::specs::Pick::cases), unfolding(crate::specs::Work::rooms_for))]
pub fn over_room(work: Work, loan: &mut Loan) -> Result<Done, Fault>
    requires whole { WholeLoan loan.old }
    requires meant { MeantWork work (length loan.old.out.now) }
    ensures did { left_in (answer_in result) loan.new ≡ work_on work.entry loan.old }
    ensures near { Near result }
    ensures same { SameBuffers loan.old loan.new }
{
    let table = loan.table.len();
    let heap = loan.heap.len();
    if table <= SMALL_WORDS * 4 && heap <= SMALL_WORDS * 4 {
        return over_rooms::<SMALL_WORDS, SMALL_WORDS>(
            work,
            loan.out,
            loan.heap,
            loan.table,
            loan.regs,
            loan.budget,
        );
    }
    if heap <= CODE_WORDS * 4 {
        return over_rooms::<CODE_WORDS, CODE_WORDS>(
            work,
            loan.out,
            loan.heap,
            loan.table,
            loan.regs,
            loan.budget,
        );
    }
    over_rooms::<CODE_WORDS, HEAP_WORDS>(
        work,
        loan.out,
        loan.heap,
        loan.table,
        loan.regs,
        loan.budget,
    )
}
