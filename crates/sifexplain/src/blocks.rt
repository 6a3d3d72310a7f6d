// What was wanted of labels and of the list's end, and what was found.
use crate::contexts::Labels;
use crate::packet::Packet;
use crate::stacks::label_stack;
use crate::stands::item_byte;
use crate::words::Line;
use listing::Item;
use std::fmt;

// An item by its number, its place and its words.
#[derive(Clone, Copy)]
pub struct Numbered<'a> {
    pub packet: Packet<'a>,
    pub i: usize,
}

impl Numbered<'_> {
    pub fn item(&self) -> Item {
        self.packet.item(self.i)
    }

    pub fn line(&self) -> Line {
        Line(self.item())
    }

    // The label that the item places.
    fn placed(&self) -> Option<u32> {
        match self.item() {
            Item::Label(l) => Some(l),
            _ => None,
        }
    }
}

impl fmt::Display for Numbered<'_> {
    fn fmt<W: fmt::Write>(&self, f: &mut fmt::Formatter<W>) -> fmt::Result {
        let Numbered { packet, i } = *self;
        let byte = item_byte(packet, i);
        let line = self.line();
        write!(f, "{i}, at byte {byte} of the packet: {line}")
    }
}

// A label is due where this item stands.
#[derive(Clone, Copy)]
pub struct LabelDue<'a>(pub Numbered<'a>);

impl fmt::Display for LabelDue<'_> {
    fn fmt<W: fmt::Write>(&self, f: &mut fmt::Formatter<W>) -> fmt::Result {
        let Numbered { packet, i } = self.0;
        match i.checked_sub(1) {
            None => write!(f, "Wanted: a label as the first item")?,
            Some(i) => write!(f, "Wanted: a label behind {}", Line(packet.item(i)))?,
        }
        write!(f, ".\nFound: {}.\n", self.0.line())
    }
}

// The label that this item places is placed before.
#[derive(Clone, Copy)]
pub struct PlacedTwice<'a>(pub Numbered<'a>);

impl fmt::Display for PlacedTwice<'_> {
    fn fmt<W: fmt::Write>(&self, f: &mut fmt::Formatter<W>) -> fmt::Result {
        let Numbered { packet, i } = self.0;
        let Some(l) = self.0.placed() else {
            return Ok(());
        };
        let Some(i) = packet.placed_by(l, i) else {
            return Ok(());
        };
        let before = Numbered { packet, i };
        write!(
            f,
            "Wanted: L{l} placed by no item before.\nFound: item {before}.\n"
        )
    }
}

// The label that this item places is the first, and has a stack.
#[derive(Clone, Copy)]
pub struct FirstStack<'a>(pub Numbered<'a>);

impl fmt::Display for FirstStack<'_> {
    fn fmt<W: fmt::Write>(&self, f: &mut fmt::Formatter<W>) -> fmt::Result {
        let Some(l) = self.0.placed() else {
            return Ok(());
        };
        let stack = label_stack(self.0.packet, l);
        let labels = Labels(&stack);
        write!(
            f,
            "Wanted: stack empty, for L{l} is first.\nFound: {labels}.\n"
        )
    }
}

// This item, the last, goes on.
#[derive(Clone, Copy)]
pub struct OpenEnd<'a>(pub Numbered<'a>);

impl fmt::Display for OpenEnd<'_> {
    fn fmt<W: fmt::Write>(&self, f: &mut fmt::Formatter<W>) -> fmt::Result {
        let line = self.0.line();
        write!(
            f,
            "Wanted: halt, jmp or cjmp as the last item.\nFound: {line}.\n"
        )
    }
}

// A label of this packet is placed by no item.
#[derive(Clone, Copy)]
pub struct NeverPlaced<'a>(pub Packet<'a>);

impl fmt::Display for NeverPlaced<'_> {
    fn fmt<W: fmt::Write>(&self, f: &mut fmt::Formatter<W>) -> fmt::Result {
        match self.0.first_unplaced() {
            Some(l) => write!(f, "Wanted: an item that places L{l}.\nFound: none.\n"),
            None => Ok(()),
        }
    }
}
