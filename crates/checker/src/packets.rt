// The checker on packets: the reader's refusal, or the walk's.
ghost use Rattle.std.specs.Prelude.{◌≡◌};
ghost use Rattle.checker.specs.Check.{checking_of, check_in};
ghost use Rattle.checker.specs.Checked.{checked_in};

use crate::walk::walk;
use listing::ReadError;

// Checks a packet, whose numbers are read into room, as listing::read says: how many numbers an
// accepted listing has, or why it is refused and where.
#[tactic(auto, using(crate::specs::CheckLaws::fronts))]
pub fn check(packet: &[u8], room: &mut [u32]) -> Result<usize, ReadError>
    ensures { checking_of (checked_in result) room.new ≡ check_in packet.now room.old }
{
    let n = listing::read(packet, room)?;
    walk(&room[..n])?;
    Ok(n)
}
