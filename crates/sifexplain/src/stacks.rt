// What was wanted of stacks and what was found.
use crate::contexts::{Here, Labels};
use crate::packet::Packet;
use listing::Item;
use rules::Stack;
use std::fmt;

// A label's own stack.
pub fn label_stack(packet: Packet, l: u32) -> Stack {
    packet.label(l).enter().stack
}

// Of a halt, a cjmp, and a jump or a fall to a label.
pub fn say_stack_rule<W: fmt::Write>(f: &mut fmt::Formatter<W>, here: &Here) -> fmt::Result {
    write!(f, "Wanted: ")?;
    match here.item {
        Item::Cjmp(l) => {
            write!(f, "L{l} on top, and below it ")?;
            say_own_stack(f, here.packet, l)?;
        }
        Item::Jmp(l) | Item::Bnz(_, l) | Item::Label(l) => say_own_stack(f, here.packet, l)?,
        _ => write!(f, "stack empty")?,
    }
    write!(f, ".\nFound: {}.\n", Labels(&here.held.stack))
}

fn say_own_stack<W: fmt::Write>(f: &mut fmt::Formatter<W>, packet: Packet, l: u32) -> fmt::Result {
    let stack = label_stack(packet, l);
    let labels = Labels(&stack);
    write!(f, "{labels}, that of L{l}")
}

pub fn say_push_past<W: fmt::Write>(f: &mut fmt::Formatter<W>, here: &Here) -> fmt::Result {
    let labels = here.held.stack.depth();
    write!(
        f,
        "Wanted: at most 15 labels before a cpush.\nFound: {labels}.\n"
    )
}
