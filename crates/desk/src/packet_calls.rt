// vans_read, vans_check, vans_erase and vans_desk: the calls on packets, on byte buffers.
ghost use Rattle.std.specs.Prelude.{◌≡◌, ◌≤◌, length};
ghost use Rattle.machine.specs.Numbers;
ghost use Rattle.listing.specs.Limits;
ghost use Rattle.listing.specs.Packet.{numbers_in};
ghost use Rattle.listing.specs.Parts.{items_in};
ghost use Rattle.checker.specs.Check.{check_of};
ghost use Rattle.start.specs.Start.{first_listed};
ghost use Rattle.start.specs.ListedLaws.{Indexed};
ghost use Rattle.desk.specs.PacketCall.{packet_call};
ghost use Rattle.desk.specs.VansDesk.{vans_desk_of};
ghost use Rattle.desk.specs.LentCall.{lent_call};
ghost use Rattle.desk.specs.ReadCall.{handed_of, vans_read_of};
ghost use Rattle.desk.specs.CheckCall.{vans_check_of};
ghost use Rattle.desk.specs.EraseCall.{code_out, erased_out, vans_erase_of};
ghost use Rattle.desk.specs.Done.{answer_in, Near};
ghost use Rattle.desk.specs.Loans.{left_in, SameBuffers};
ghost use Rattle.desk.specs.Calls.{accepted_on, checked_on, task_on};

use crate::answers::{Done, packed};
use crate::desk_bytes::serve_bytes;
use crate::loan::Loan;
use crate::rooms::in_room;
use crate::tasks::Task;
use crate::words::spill;
use listing::limits::BYTES;
use machine::numbers::CODE_WORDS;
use refusals::{Fault, Refusal};

// Hands words over in bytes, where they fit: the numbers of a packet, or a code. That a place fits the answer
// stands in the clause `near`, here and in all that may refuse: of a type with that fact each `?` would have to make one.
#[tactic(auto, using(crate::specs::ReadCallLaws::hands))]
fn hand_over(words: &[u32], out: &mut [u8]) -> Result<Done, Fault>
    requires { length words.now ≤ Limits.BYTES }
    ensures handed { packet_call (answer_in result) out.new ≡ handed_of words.now (length words.now) out.old }
    ensures near { Near result }
{
    let n = words.len();
    if out.len() / 4 < n {
        return Err(Fault {
            refusal: Refusal::DoesNotFit,
            place: n,
        });
    }
    spill(words, out);
    Ok(Done {
        status: 0,
        count: n as u32,
    })
}

// Reads the packet into a room that has a word for each of its bytes.
#[tactic(auto, using(crate::specs::ReadCallLaws::reads))]
fn read_in(room: &mut [u32], packet: &[u8], numbers: &mut [u8]) -> Result<Done, Fault>
    requires packet_in_bounds { length packet.now ≤ length room.old }
    requires packet_len_bound { length packet.now ≤ Limits.BYTES }
    ensures handed { packet_call (answer_in result) numbers.new ≡ vans_read_of packet.now numbers.old }
    ensures near { Near result }
{
    let n = listing::read(packet, room)?;
    hand_over(&room[..n], numbers)
}

// Hands a code over, where it fits a buffer of whole words.
#[tactic(auto, using(crate::specs::EraseCallLaws::handings))]
fn hand_code(code: &[u32], out: &mut [u8]) -> Result<Done, Fault>
    requires { length code.now ≤ Numbers.CODE_WORDS }
    ensures handed { packet_call (answer_in result) out.new ≡ code_out code.now out.old }
    ensures near { Near result }
{
    if code.len() <= out.len() / 4 && out.len() % 4 != 0 {
        return Err(Fault {
            refusal: Refusal::BadSize,
            place: 0,
        });
    }
    hand_over(code, out)
}

// Erases a listing's numbers.
fn erase_numbers(numbers: &[u32], out: &mut [u8]) -> Result<Done, Fault>
    ensures handed { packet_call (answer_in result) out.new ≡ erased_out (items_in numbers.now) out.old }
    ensures near { Near result }
{
    let mut code = [0; CODE_WORDS];
    let n = eraser::erase(numbers, &mut code) as usize;
    hand_code(&code[..n], out)
}

// What a task does with the numbers of a packet that is accepted. A task that reads goes no further than the
// reader, and what it would do here is the definition's: any but the two is the desk call.
#[tactic(auto, using(crate::specs::TaskLaws::accepteds))]
fn accepted_in(task: Task, numbers: &[u32], loan: &mut Loan) -> Result<Done, Fault>
    requires { Indexed (first_listed numbers.now) }
    ensures did { left_in (answer_in result) loan.new ≡ accepted_on task numbers.now loan.old }
    ensures near { Near result }
    ensures same { SameBuffers loan.old loan.new }
{
    match task {
        Task::Check => Ok(Done {
            status: 0,
            count: 0,
        }),
        Task::Erase => erase_numbers(numbers, loan.out),
        Task::Read | Task::Desk => serve_bytes(numbers, loan),
    }
}

// Checks the packet in a room, and goes on by the task where it is accepted. That the packet fits stands in
// `requires`, here and in the calls around: the prover takes no ghost field beside a `&mut`, and a room is one.
#[tactic(auto, using(crate::specs::TaskLaws::checkings))]
fn checked_in(task: Task, room: &mut [u32], packet: &[u8], loan: &mut Loan) -> Result<Done, Fault>
    requires packet_in_bounds { length packet.now ≤ length room.old }
    requires packet_len_bound { length packet.now ≤ Limits.BYTES }
    ensures did { left_in (answer_in result) loan.new ≡ checked_on task (check_of packet.now) (numbers_in packet.now) loan.old }
    ensures near { Near result }
    ensures same { SameBuffers loan.old loan.new }
{
    let n = checker::check(packet, room)?;
    accepted_in(task, &room[..n], loan)
}

// The call that a task is, in a room.
#[tactic(auto, using(crate::specs::TaskLaws::tasks))]
pub fn task_in(task: Task, room: &mut [u32], packet: &[u8], loan: &mut Loan) -> Result<Done, Fault>
    requires packet_in_bounds { length packet.now ≤ length room.old }
    requires packet_len_bound { length packet.now ≤ Limits.BYTES }
    ensures did { left_in (answer_in result) loan.new ≡ task_on task packet.now loan.old }
    ensures near { Near result }
    ensures same { SameBuffers loan.old loan.new }
{
    match task {
        Task::Read => read_in(room, packet, loan.out),
        Task::Check | Task::Erase | Task::Desk => checked_in(task, room, packet, loan),
    }
}

// The call that a task is: 6, or in a room that is large enough.
#[tactic(auto, using(crate::specs::TaskLaws::tasks))]
fn call(task: Task, packet: &[u8], loan: &mut Loan) -> Result<Done, Fault>
    ensures did { left_in (answer_in result) loan.new ≡ task_on task packet.now loan.old }
    ensures near { Near result }
    ensures same { SameBuffers loan.old loan.new }
{
    if BYTES < packet.len() {
        return Err(Fault {
            refusal: Refusal::TooLong,
            place: 0,
        });
    }
    in_room(task, packet, loan)
}

// Reads a packet. The answer holds the refusal and its place, or 0 and the count of the listing's
// numbers; these then stand in front of the buffer, four bytes each. A refusal changes nothing.
#[unsafe(no_mangle)]
pub extern "C" fn vans_read(packet: &[u8], numbers: &mut [u8]) -> u64
    ensures { packet_call result numbers.new ≡ vans_read_of packet.now numbers.old }
{
    let loan = &mut Loan {
        out: numbers,
        heap: &mut [],
        table: &[],
        regs: &mut [],
        budget: 0,
    };
    let done = call(Task::Read, packet, loan);
    packed(done)
}

// Checks a packet. The answer holds the refusal and its place, or 0 where it is accepted.
#[unsafe(no_mangle)]
pub extern "C" fn vans_check(packet: &[u8]) -> u64
    ensures { result ≡ vans_check_of packet.now }
{
    let loan = &mut Loan {
        out: &mut [],
        heap: &mut [],
        table: &[],
        regs: &mut [],
        budget: 0,
    };
    let done = call(Task::Check, packet, loan);
    packed(done)
}

// Erases a packet that is accepted. The answer holds the refusal and its place, or 0 and the count of
// code words; these then stand in front of the buffer, four bytes each. A refusal changes nothing.
#[unsafe(no_mangle)]
pub extern "C" fn vans_erase(packet: &[u8], code: &mut [u8]) -> u64
    ensures { packet_call result code.new ≡ vans_erase_of packet.now code.old }
{
    let loan = &mut Loan {
        out: code,
        heap: &mut [],
        table: &[],
        regs: &mut [],
        budget: 0,
    };
    let done = call(Task::Erase, packet, loan);
    packed(done)
}

// The desk call on byte buffers. The answer holds the refusal and its place, or the status and the count
// of words acted on; then the code stands in front of its buffer, and heap and registers are the run's. A
// refusal changes nothing.
#[unsafe(no_mangle)]
pub extern "C" fn vans_desk(
    packet: &[u8],
    code: &mut [u8],
    heap: &mut [u8],
    blocks: &[u8],
    regs: &mut [u8],
    budget: u32,
) -> u64
    ensures { lent_call result code.new heap.new regs.new ≡ vans_desk_of packet.now code.old heap.old blocks.now regs.old budget }
{
    let loan = &mut Loan {
        out: code,
        heap,
        table: blocks,
        regs,
        budget,
    };
    let done = call(Task::Desk, packet, loan);
    packed(done)
}
