// The calls on packets.

// What a call does with its packet: it reads it, checks it, and then erases it or serves it. The buffers
// travel beside it, in a loan: the prover does not see where a `&mut` in an enum ends, nor one in a closure.
#[derive(Clone, Copy)]
pub enum Task {
    Read,
    Check,
    Erase,
    Desk,
}
