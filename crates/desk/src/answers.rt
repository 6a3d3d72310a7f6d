// What a call of the C border comes to, and the one number that C is answered.
ghost use Rattle.std.specs.Prelude.{◌≡◌, Result};
ghost use Rattle.desk.specs.Done.{answer_in, unplaced_of, Near};

use refusals::{Fault, Refusal};

// A call that is served: the status of its run, 0 where nothing runs, and a count. The status is a number, as
// `State` has it: an enum is no plainer, since the number is what C is answered.
#[derive(Clone, Copy)]
pub struct Done {
    pub status: u8,
    pub count: u32,
}

// The number that C is answered, since C takes a number and no Result: the refusal or status, the place, and
// the count. Every place in the project is below 2^24.
pub fn packed(done: Result<Done, Fault>) -> u64
    requires { Near done }
    ensures { result ≡ answer_in done }
{
    match done {
        Ok(done) => done.status as u64 * 72057594037927936 + done.count as u64,
        Err(fault) => {
            fault.refusal.number() as u64 * 72057594037927936 + fault.place as u64 * 4294967296
        }
    }
}

// A refusal that names no place. No `From`: it would say so of any refusal, and most have a place.
pub fn unplaced(refusal: Refusal) -> Fault
    ensures { result ≡ unplaced_of refusal }
{
    Fault { refusal, place: 0 }
}
