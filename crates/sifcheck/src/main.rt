// The checking program: reads a packet from standard input and prints the line `ACCEPTED` or
// `REFUSED n AT p`. The line is made by the crate `lines`, and read and printed by `intake`.

#![tactic(auto)]

use intake::{answer, packet_room};

fn main(rt: HostRuntime) {
    let mut packet = packet_room();
    // What could not be done is told on standard error.
    let _ = answer(
        &mut rt.stdin(),
        &mut rt.stdout(),
        &mut rt.stderr(),
        &mut packet,
        b"sifcheck",
    );
}
