// Items in words: the names of 01's item table, an i behind for the immediate forms, registers as r0 to
// r15, labels as L and a number.
use listing::Item;
use std::fmt;

// The packet's number of an immediate is so much more than the immediate.
const ABOVE: i64 = 32768;

// The operation of an item number, in either form: `listing::Item` keeps the packet's number of arithmetic.
fn operation(n: u32) -> &'static str {
    match n {
        5 | 10 => "add",
        6 | 11 => "sub",
        7 | 12 => "and",
        8 | 13 => "xor",
        _ => "slt",
    }
}

// An item's name.
#[derive(Clone, Copy)]
pub struct Name(pub Item);

impl fmt::Display for Name {
    fn fmt<W: fmt::Write>(&self, f: &mut fmt::Formatter<W>) -> fmt::Result {
        match self.0 {
            Item::Halt => write!(f, "halt"),
            Item::Jmp(_) => write!(f, "jmp"),
            Item::Bnz(_, _) => write!(f, "bnz"),
            Item::Load(_, _, _) => write!(f, "load"),
            Item::Store(_, _, _) => write!(f, "store"),
            Item::Compute(n, _, _, _) => write!(f, "{}", operation(n)),
            Item::ComputeImmediate(n, _, _, _) => write!(f, "{}i", operation(n)),
            Item::Cpush(_) => write!(f, "cpush"),
            Item::Cjmp(_) => write!(f, "cjmp"),
            Item::Label(_) => write!(f, "label"),
        }
    }
}

// An item, as its line of text will have it.
#[derive(Clone, Copy)]
pub struct Line(pub Item);

impl fmt::Display for Line {
    fn fmt<W: fmt::Write>(&self, f: &mut fmt::Formatter<W>) -> fmt::Result {
        let name = Name(self.0);
        match self.0 {
            Item::Halt => write!(f, "{name}"),
            Item::Jmp(l) | Item::Cpush(l) | Item::Cjmp(l) | Item::Label(l) => {
                write!(f, "{name} L{l}")
            }
            Item::Bnz(rs, l) => write!(f, "{name} r{rs}, L{l}"),
            Item::Load(rd, rs, c) => write!(f, "{name} r{rd}, r{rs}, {c}"),
            Item::Store(rd, c, rs) => write!(f, "{name} r{rd}, {c}, r{rs}"),
            Item::Compute(_, rd, rs, rt) => write!(f, "{name} r{rd}, r{rs}, r{rt}"),
            Item::ComputeImmediate(_, rd, rs, number) => {
                let immediate = i64::from(number) - ABOVE;
                write!(f, "{name} r{rd}, r{rs}, {immediate}")
            }
        }
    }
}
