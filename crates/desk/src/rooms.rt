// Rooms for the numbers of a packet. Each call on a packet reads it into a room that it owns.
ghost use Rattle.std.specs.Prelude.{◌≡◌, ◌≤◌, length};
ghost use Rattle.listing.specs.Limits;
ghost use Rattle.desk.specs.Done.{answer_in, Near};
ghost use Rattle.desk.specs.Loans.{left_in, SameBuffers};
ghost use Rattle.desk.specs.Calls.{task_on};
ghost use Rattle.desk.specs.Tasks.{packet_room};

use crate::answers::Done;
use crate::loan::Loan;
use crate::packet_calls::task_in;
use crate::tasks::Task;
use listing::limits::BYTES;
use refusals::Fault;

// The bytes of packets for which there is a room of their own. The longest packet that is taken has
// fewer bytes than a long one here.
const SMALL_PACKET: usize = 128;

const SHORT_PACKET: usize = 1024;

const MIDDLE_PACKET: usize = 4096;

const LONG_PACKET: usize = 20480;

// In a room for so many numbers, a word for each byte of the packet. Each size has a stack frame of its own.
#[inline(never)]
fn in_room_of<const N: usize>(task: Task, packet: &[u8], loan: &mut Loan) -> Result<Done, Fault>
    requires room { N ≤ Limits.BYTES }
    requires smallest { N ≡ packet_room (length packet.now) }
    requires packet_in_bounds { length packet.now ≤ N }
    ensures did { left_in (answer_in result) loan.new ≡ task_on task packet.now loan.old }
    ensures near { Near result }
    ensures same { SameBuffers loan.old loan.new }
{
    let mut room = [0; N];
    task_in(task, &mut room, packet, loan)
}

// In the smallest room that the packet fits: a short one does not pay for clearing the longest one's room.
#[tactic(auto, using(choice::specs::Pick::cases), unfolding(crate::specs::Tasks::packet_room))]
pub fn in_room(task: Task, packet: &[u8], loan: &mut Loan) -> Result<Done, Fault>
    requires { length packet.now ≤ Limits.BYTES }
    ensures did { left_in (answer_in result) loan.new ≡ task_on task packet.now loan.old }
    ensures near { Near result }
    ensures same { SameBuffers loan.old loan.new }
{
    let n = packet.len();
    if n <= SMALL_PACKET {
        in_room_of::<SMALL_PACKET>(task, packet, loan)
    } else if n <= SHORT_PACKET {
        in_room_of::<SHORT_PACKET>(task, packet, loan)
    } else if n <= MIDDLE_PACKET {
        in_room_of::<MIDDLE_PACKET>(task, packet, loan)
    } else if n <= LONG_PACKET {
        in_room_of::<LONG_PACKET>(task, packet, loan)
    } else {
        in_room_of::<BYTES>(task, packet, loan)
    }
}
