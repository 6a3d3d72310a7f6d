// How far the reader comes in a packet: the bytes at which its numbers begin, and the number that is due there.
use crate::packet::Packet;
use listing::limits::BYTES;
use listing::{Wanted, next};

// Where a number begins, and which one is due there.
#[derive(Clone, Copy)]
pub struct Stand {
    pub at: usize,
    pub wanted: Wanted,
}

impl Stand {
    // Behind a number that is taken; none at the last number, and at one with a fault.
    fn after(&self, bytes: &[u8]) -> Option<Stand> {
        let number = number::read(bytes, self.at).ok()?;
        let wanted = next(self.wanted, number.value).ok()??;
        Some(Stand {
            at: number.behind,
            wanted,
        })
    }
}

// Where the number begins that has so many before it, or the first with a fault. A `try_fold` is no plainer: the stand
// is the answer at either end, in its Ok and its Err.
fn stand_at(bytes: &[u8], before: usize) -> Stand {
    let mut stand = Stand {
        at: 0,
        wanted: Wanted::Edition,
    };
    for _ in 0..before {
        match stand.after(bytes) {
            Some(then) => stand = then,
            None => return stand,
        }
    }
    stand
}

// The first number with a fault: a packet has no more numbers than bytes.
pub fn fault_stand(bytes: &[u8]) -> Stand {
    stand_at(bytes, BYTES)
}

// The byte at which an item begins.
pub fn item_byte(packet: Packet, i: usize) -> usize {
    stand_at(packet.bytes, packet.item_place(i) as usize).at
}
