// Fields of shapes in words.
use crate::packet::Packet;
use checker::{field_count, field_kind, field_level};
use listing::at_most;
use listing::limits::TOP_LEVEL;
use rules::Slot;
use std::fmt;

// A field by its shape and its offset, what a register would be listed with that holds it, and how many fields
// the shape has.
#[derive(Clone, Copy)]
pub struct Field {
    pub shape: u32,
    pub offset: u32,
    pub slot: Slot,
    pub among: u32,
}

impl Field {
    pub fn new(packet: Packet, shape: u32, offset: u32) -> Field {
        let place = packet.shape_place(shape);
        let level = field_level(packet.numbers, place, offset);
        Field {
            shape,
            offset,
            slot: Slot {
                listed: true,
                kind: field_kind(packet.numbers, place, offset),
                level: at_most(TOP_LEVEL, level) as u8,
            },
            among: field_count(packet.numbers, place),
        }
    }

    pub fn level(&self) -> u32 {
        u32::from(self.slot.level)
    }
}

impl fmt::Display for Field {
    fn fmt<W: fmt::Write>(&self, f: &mut fmt::Formatter<W>) -> fmt::Result {
        let Field { shape, offset, .. } = *self;
        write!(f, "field {offset} of shape {shape}")
    }
}
