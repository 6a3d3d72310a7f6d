// The number that is due at a place of a packet, in words.
use crate::packet::Packet;
use crate::stands::Stand;
use crate::words::Name;
use listing::{Item, Wanted};
use std::fmt;

// Where it begins, and what it is.
#[derive(Clone, Copy)]
pub struct Due<'a> {
    pub packet: Packet<'a>,
    pub stand: Stand,
}

// Which of `count` parts it is, counted from 0, where so many are still to come after it.
fn which(count: u32, more: u32) -> u32 {
    count.saturating_sub(1).saturating_sub(more)
}

impl fmt::Display for Due<'_> {
    fn fmt<W: fmt::Write>(&self, f: &mut fmt::Formatter<W>) -> fmt::Result {
        let at = self.stand.at;
        write!(f, "At byte {at} of the packet")?;
        match self.stand.wanted {
            Wanted::Edition => write!(f, ": the edition"),
            Wanted::ShapeCount => write!(f, ": the count of shapes"),
            Wanted::LabelCount(_) => write!(f, ": the count of labels"),
            Wanted::ItemCount(_) => write!(f, ": the count of items"),
            Wanted::FieldCount(shapes, more)
            | Wanted::FieldKind(shapes, more, _)
            | Wanted::FieldLevel(shapes, more, _) => self.shape_part(f, which(shapes, more)),
            Wanted::LabelLevel(_, labels, more)
            | Wanted::StackLength(_, labels, more)
            | Wanted::StackLabel(_, labels, more, _)
            | Wanted::RegisterCount(_, labels, more)
            | Wanted::RegisterIndex(_, labels, more, _, _)
            | Wanted::RegisterKind(_, labels, more, _, _)
            | Wanted::RegisterLevel(_, labels, more, _, _) => {
                self.label_part(f, which(labels, more))
            }
            Wanted::ItemNumber(_, more)
            | Wanted::OperandLabel(_, more)
            | Wanted::BranchRegister(_, more)
            | Wanted::OperandFirst(_, more, _)
            | Wanted::OperandSecond(_, more, _)
            | Wanted::OperandThird(_, more, _) => {
                self.item_part(f, which(self.packet.item_count(), more))
            }
        }
    }
}

impl Due<'_> {
    fn shape_part<W: fmt::Write>(&self, f: &mut fmt::Formatter<W>, shape: u32) -> fmt::Result {
        let fields = self.packet.field_count(shape);
        write!(f, ", in shape {shape}: ")?;
        match self.stand.wanted {
            Wanted::FieldKind(_, _, more) => write!(f, "the kind of field {}", which(fields, more)),
            Wanted::FieldLevel(_, _, more) => {
                write!(f, "the level of field {}", which(fields, more))
            }
            _ => write!(f, "the count of its fields"),
        }
    }

    fn label_part<W: fmt::Write>(&self, f: &mut fmt::Formatter<W>, l: u32) -> fmt::Result {
        write!(f, ", in L{l}: ")?;
        match self.stand.wanted {
            Wanted::StackLength(_, _, _) => write!(f, "the count of labels on its stack"),
            Wanted::StackLabel(_, _, _, _) => write!(f, "a label on its stack"),
            Wanted::RegisterCount(_, _, _) => write!(f, "the count of registers that it lists"),
            Wanted::RegisterIndex(_, _, _, _, _) => write!(f, "a register that it lists"),
            Wanted::RegisterKind(_, _, _, _, r) => write!(f, "the kind of r{r}"),
            Wanted::RegisterLevel(_, _, _, _, r) => write!(f, "the level of r{r}"),
            _ => write!(f, "its pc level"),
        }
    }

    // An item's operands go by their names in the item table.
    fn item_part<W: fmt::Write>(&self, f: &mut fmt::Formatter<W>, i: u32) -> fmt::Result {
        let item = self.packet.item(i as usize);
        let operand = match self.stand.wanted {
            Wanted::OperandLabel(_, _) => "the label L",
            Wanted::BranchRegister(_, _) => "the register rs",
            Wanted::OperandFirst(_, _, _) => "the register rd",
            Wanted::OperandSecond(_, _, _) => second(item),
            Wanted::OperandThird(_, _, _) => third(item),
            _ => return write!(f, ", in item {i}: its number"),
        };
        write!(f, ", in item {i}: {operand} of {}", Name(item))
    }
}

fn second(item: Item) -> &'static str {
    match item {
        Item::Store(_, _, _) => "the field c",
        _ => "the register rs",
    }
}

fn third(item: Item) -> &'static str {
    match item {
        Item::Load(_, _, _) => "the field c",
        Item::Store(_, _, _) => "the register rs",
        Item::Compute(_, _, _, _) => "the register rt",
        _ => "the immediate plus 32768",
    }
}
