// The C border: calls on numbers and byte buffers, over the proved crates below. Read specs/RunCall.antt
// first.

#![tactic(auto)]

mod answers;
mod buffers;
mod desk_bytes;
mod loan;
mod packet_calls;
mod rooms;
mod run_call;
mod tasks;
mod words;
