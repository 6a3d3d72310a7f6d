// Registers, stacks and contexts in words.
use crate::fields::Field;
use crate::packet::Packet;
use listing::Item;
use rules::{Held, Slot, Stack};
use std::fmt;

// The shape that a pointer of a kind goes to; an integer goes to none.
pub fn pointee(kind: u8) -> Option<u32> {
    u32::from(kind).checked_sub(1)
}

// A register, and what is said of it.
#[derive(Clone, Copy)]
pub struct Register {
    pub index: u32,
    pub slot: Slot,
}

impl Register {
    // Whether it is listed with a kind and level.
    pub fn is(self, wanted: Slot) -> bool {
        self.slot
            .is_exactly(u32::from(wanted.kind), u32::from(wanted.level))
    }
}

impl fmt::Display for Register {
    fn fmt<W: fmt::Write>(&self, f: &mut fmt::Formatter<W>) -> fmt::Result {
        let Register { index, slot } = *self;
        let level = slot.level;
        if !slot.listed {
            return write!(f, "r{index} not listed");
        }
        match pointee(slot.kind) {
            None => write!(f, "r{index} integer at level {level}"),
            Some(shape) => write!(f, "r{index} pointer to shape {shape} at level {level}"),
        }
    }
}

// A stack of labels, top first.
#[derive(Clone, Copy)]
pub struct Labels<'a>(pub &'a Stack);

impl fmt::Display for Labels<'_> {
    fn fmt<W: fmt::Write>(&self, f: &mut fmt::Formatter<W>) -> fmt::Result {
        let labels = self.0.labels();
        if labels.is_empty() {
            return write!(f, "stack empty");
        }
        write!(f, "stack")?;
        for label in labels {
            write!(f, " L{label}")?;
        }
        Ok(())
    }
}

// An item, and the context in which it stands.
#[derive(Clone, Copy)]
pub struct Here<'a> {
    pub packet: Packet<'a>,
    pub item: Item,
    pub held: Held,
}

impl Here<'_> {
    pub fn register(&self, index: u32) -> Register {
        Register {
            index,
            slot: self.held.slot(index),
        }
    }

    pub fn level_of(&self, index: u32) -> u32 {
        u32::from(self.register(index).slot.level)
    }

    // The field at an offset behind a register's pointer; an integer has none.
    pub fn field(&self, pointer: u32, offset: u32) -> Option<Field> {
        let shape = pointee(self.register(pointer).slot.kind)?;
        Some(Field::new(self.packet, shape, offset))
    }
}

// The context, on a line behind the item's.
impl fmt::Display for Here<'_> {
    fn fmt<W: fmt::Write>(&self, f: &mut fmt::Formatter<W>) -> fmt::Result {
        let level = self.held.level;
        let labels = Labels(&self.held.stack);
        write!(f, "\nHere: pc level {level}, {labels}")?;
        for index in 1..16 {
            let register = self.register(index);
            if register.slot.listed {
                write!(f, ", {register}")?;
            }
        }
        write!(f, ".")
    }
}
