// The explaining program: reads a packet from standard input, prints the checking program's line, and where
// that is a refusal says below it what was refused and why. The line and the verdict are the proved ones; the
// words below are made from the packet's numbers and decide nothing. Read explanation.rt first.

#![tactic(auto)]

mod blocks;
mod contexts;
mod dues;
mod explanation;
mod fields;
mod findings;
mod flows;
mod found;
mod packet;
mod ranges;
mod rules_in_words;
mod stacks;
mod stands;
mod walked;
mod words;

use crate::explanation::Explanation;
use crate::packet::Packet;
use intake::{answer, packet_room};
use lines::numbers_room;
use listing::ReadError;
use std::fmt::{self, Write};

// Standard output, where of a piece that cannot be written nothing is said, and those behind it are tried.
#[derive(Drop)]
struct Tried<'a, P>(&'a P);

impl<P: Print> fmt::Write for Tried<'_, P> {
    fn write_str(&mut self, s: &str) -> fmt::Result {
        let _ = self.0.write_all(s.as_bytes());
        Ok(())
    }
}

// Where it cannot be written the verdict's line, which comes first, has told so already.
fn explain(out: &impl Print, bytes: &[u8]) {
    let mut room = numbers_room();
    let Err(ReadError::Refused(fault)) = checker::check(bytes, &mut room) else {
        return;
    };
    let explanation = Explanation {
        packet: Packet {
            bytes,
            numbers: &room,
        },
        fault,
    };
    let _ = write!(Tried(out), "{explanation}");
}

fn main(rt: HostRuntime) {
    let mut packet = packet_room();
    let answered = answer(
        &mut rt.stdin(),
        &mut rt.stdout(),
        &mut rt.stderr(),
        &mut packet,
        b"sifexplain",
    );
    if let Ok(n) = answered {
        explain(&rt, &packet[..n]);
    }
}
