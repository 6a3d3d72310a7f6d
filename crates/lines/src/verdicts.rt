// The line of a verdict, and of a packet.
ghost use Rattle.std.specs.Prelude.{◌≡◌, ◌≤◌, length};
ghost use Rattle.listing.specs.Limits;
ghost use Rattle.refusals.specs.Refusals.{number_of};
ghost use Rattle.checker.specs.Check.{check_of};
ghost use Rattle.checker.specs.Checked.{checked_in};
ghost use Rattle.lines.specs.Line.{refusal_of, line_of, written, line_in, Front};
ghost use Rattle.lines.specs.Line;
ghost use Rattle.lines.specs.Put.{put_of};

use crate::texts::{put_labelled, put_text};
use listing::ReadError;
use listing::limits::BYTES;
use refusals::{Fault, Refusal, require};

// The bytes of the longest line, with a number of three digits and a place of twenty.
pub const LONGEST: usize = 36;

// Room for the numbers of any packet. `service::longest_room` is the like: docs/PROMISES.md names both, and this crate
// does not stand on `service`.
pub fn numbers_room() -> [u32; BYTES]
    ensures { length result ≡ Limits.BYTES }
{
    [0; BYTES]
}

// What a packet is: a listing of so many numbers, or why it is none.
fn verdict(packet: &[u8]) -> Result<usize, ReadError>
    ensures { checked_in result ≡ check_of packet.now }
{
    let too_long = Fault {
        refusal: Refusal::TooLong,
        place: 0,
    };
    require(packet.len() <= BYTES, ReadError::Refused(too_long))?;
    let mut room = numbers_room();
    checker::check(packet, &mut room)
}

fn put_refusal(out: &mut [u8], fault: Fault) -> usize
    ensures out_after { written result out.new ≡ put_of out.old 0 (refusal_of (number_of fault.refusal) fault.place) }
    ensures bounded { result ≤ Line.LONGEST }
{
    let number = fault.refusal.number();
    let number_end = put_labelled(out, 0, b"REFUSED ", number as usize);
    let place_end = put_labelled(out, number_end, b" AT ", fault.place);
    put_text(out, place_end, b"\n")
}

#[tactic(auto, unfolding(crate::specs::Line::line_of, crate::specs::Put::put_of))]
fn put_line(out: &mut [u8], checked: Result<usize, ReadError>) -> usize
    ensures out_after { written result out.new ≡ put_of out.old 0 (line_of (checked_in checked)) }
    ensures bounded { result ≤ Line.LONGEST }
{
    match checked {
        Ok(_) => put_text(out, 0, b"ACCEPTED\n"),
        Err(ReadError::Refused(fault)) => put_refusal(out, fault),
        Err(ReadError::NoRoom) => 0,
    }
}

// Writes the line of a packet in front of a buffer, and answers its length. The buffer has room for every
// line, and its other bytes keep their values.
pub fn line(packet: &[u8], out: &mut [u8; LONGEST]) -> usize
    ensures out_after { written result out.new ≡ line_in packet.now out.old }
    ensures bounded { Front result out.new }
{
    put_line(out, verdict(packet))
}
