// The whole reader: a packet's numbers, one after the other, by the grammar.
ghost use Rattle.std.specs.Prelude.{Err, ◌≡◌, ◌+◌, ◌≤◌, length};
ghost use Rattle.listing.specs.declared.grammar.Wanted.TheVariants.{Edition};
ghost use Rattle.listing.specs.declared.reading.ReadError.TheVariants.{Refused};
ghost use Rattle.number.specs.Found.{found_in};
ghost use Rattle.number.specs.Number.{refusal_of, place_of};
ghost use Rattle.refusals.specs.Refusals.{number_of};
ghost use Rattle.listing.specs.Due.{Next};
ghost use Rattle.listing.specs.Got.{got_in};
ghost use Rattle.listing.specs.Taken.{taken_in, fault_for};
ghost use Rattle.listing.specs.Packet.{got_of, reading_of, packet_from, packet_of};

use crate::grammar::{Wanted, next};
use crate::limits::BYTES;
use number::NumberError;
use refusals::{Fault, Refusal};

// Why a packet is not read: a fault, or there is less room for its numbers than it has bytes.
#[derive(Clone, Copy, Debug, PartialEq, Eq)]
pub enum ReadError {
    Refused(Fault),
    NoRoom,
}

impl From<Fault> for ReadError {
    ghost from_gives = { λ fault e. e ≡ Refused fault };

    fn from(fault: Fault) -> ReadError {
        ReadError::Refused(fault)
    }
}

// The same as a fault alone: no room is a size that does not fit.
impl From<ReadError> for Fault {
    ghost from_gives = { λ error fault. fault ≡ fault_for error };

    fn from(error: ReadError) -> Fault {
        match error {
            ReadError::Refused(fault) => fault,
            ReadError::NoRoom => Fault {
                refusal: Refusal::DoesNotFit,
                place: 0,
            },
        }
    }
}

// A number that was wanted, the place behind it, and what is due there.
#[derive(Clone, Copy)]
struct Step {
    value: u32,
    behind: usize,
    due: Option<Wanted>,
}

// The fault where no number stands: at the packet's end, or where the number begins.
fn no_number(error: NumberError, packet: &[u8]) -> Fault
    ensures refusal { number_of result.refusal ≡ refusal_of packet.now (found_in (Err error)) }
    ensures place { result.place ≡ place_of packet.now (found_in (Err error)) }
{
    match error {
        NumberError::Ended => Fault {
            refusal: Refusal::Ended,
            place: packet.len(),
        },
        NumberError::Malformed(place) => Fault {
            refusal: Refusal::Malformed,
            place,
        },
    }
}

// The number that is wanted at a place of the packet.
#[tactic(auto, using(crate::specs::PacketLaws::gets))]
fn get(packet: &[u8], at: usize, wanted: Wanted) -> Result<Step, Fault>
    ensures { got_in result ≡ got_of packet.now at wanted }
{
    // By map_err and ? a byte takes 5.7 ns and not 2.4, since the number is read back from the stack:
    // docs/SPEED.md holds the reader to 1.0 of the peer.
    let number = match number::read(packet, at) {
        Ok(number) => number,
        Err(error) => return Err(no_number(error, packet)),
    };
    let due = next(wanted, number.value).map_err(|refusal| Fault { refusal, place: at })?;
    Ok(Step {
        value: number.value,
        behind: number.behind,
        due,
    })
}

// Reads number by number until the packet is whole or faulty.
#[tactic(auto, using(crate::specs::PacketLaws::turns))]
fn read_numbers(packet: &[u8], numbers: &mut [u32]) -> Result<usize, ReadError>
    requires { length packet.now ≤ length numbers.old }
    ensures { reading_of (taken_in result) numbers.new ≡ packet_from (length packet.now + 1) packet.now (Next Edition) 0 numbers.old 0 }
{
    // The count is the answer too, and numbers come until none is due: an iterator is no plainer.
    let mut due = Some(Wanted::Edition);
    let mut at = 0;
    let mut count = 0;
    while let Some(wanted) = due {
        let step = get(packet, at, wanted)?;
        numbers[count] = step.value;
        count += 1;
        at = step.behind;
        due = step.due;
    }
    if at < packet.len() {
        return Err(ReadError::Refused(Fault {
            refusal: Refusal::LeftOver,
            place: at,
        }));
    }
    Ok(count)
}

// Reads a packet into numbers, and answers how many they are. Where there is no room or the packet is
// too long, nothing is written; else the numbers taken so far stand in front.
#[tactic(auto, using(crate::specs::PacketLaws::calls))]
pub fn read(packet: &[u8], numbers: &mut [u32]) -> Result<usize, ReadError>
    ensures { reading_of (taken_in result) numbers.new ≡ packet_of packet.now numbers.old }
{
    if BYTES < packet.len() {
        return Err(ReadError::Refused(Fault {
            refusal: Refusal::TooLong,
            place: 0,
        }));
    }
    if numbers.len() < packet.len() {
        return Err(ReadError::NoRoom);
    }
    read_numbers(packet, numbers)
}
