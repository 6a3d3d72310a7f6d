// The range of the number that is due, in words.
use listing::Wanted;
use listing::limits::{
    EDITION, FIELDS, ITEMS, LABELS, REGISTERS, SHAPES, STACK, TOP_ITEM, TOP_LEVEL, TOP_PART,
};
use std::fmt;

#[derive(Clone, Copy)]
pub enum Range {
    // From one number to another.
    Span(u32, u32),
    // The kinds of so many shapes.
    Kinds(u32),
    // So many labels.
    Labels(u32),
    // Registers above another, 0 where a label lists none before: `listing::Wanted` has it so, and none lists r0.
    RegistersAbove(u32),
    ItemNumbers,
}

impl Range {
    fn ends(&self) -> (u32, u32) {
        match *self {
            Range::Span(low, high) => (low, high),
            Range::Kinds(shapes) => (0, shapes),
            Range::Labels(labels) => (0, labels.saturating_sub(1)),
            Range::RegistersAbove(_) => (1, TOP_PART),
            Range::ItemNumbers => (0, TOP_ITEM),
        }
    }
}

impl fmt::Display for Range {
    fn fmt<W: fmt::Write>(&self, f: &mut fmt::Formatter<W>) -> fmt::Result {
        let (low, high) = self.ends();
        write!(f, "{low}")?;
        if low < high {
            write!(f, " to {high}")?;
        }
        match *self {
            Range::Span(_, _) | Range::RegistersAbove(0) => Ok(()),
            Range::Kinds(0) => write!(f, ", for an integer: there is no shape to point to"),
            Range::Kinds(_) => write!(
                f,
                ": 0 for an integer, 1 for a pointer to shape 0, and so on"
            ),
            Range::Labels(_) => write!(f, ", a label of this packet"),
            Range::RegistersAbove(last) => write!(f, ", and above {last}, the register before"),
            Range::ItemNumbers => write!(f, ", from halt to label"),
        }
    }
}

// By the number that is due.
impl From<Wanted> for Range {
    fn from(wanted: Wanted) -> Range {
        match wanted {
            Wanted::Edition => Range::Span(EDITION, EDITION),
            Wanted::ShapeCount => Range::Span(0, SHAPES),
            Wanted::FieldCount(_, _) => Range::Span(1, FIELDS),
            Wanted::FieldKind(shapes, _, _) | Wanted::RegisterKind(shapes, _, _, _, _) => {
                Range::Kinds(shapes)
            }
            Wanted::FieldLevel(_, _, _)
            | Wanted::LabelLevel(_, _, _)
            | Wanted::RegisterLevel(_, _, _, _, _) => Range::Span(0, TOP_LEVEL),
            Wanted::LabelCount(_) => Range::Span(1, LABELS),
            Wanted::StackLength(_, _, _) => Range::Span(0, STACK),
            Wanted::StackLabel(_, labels, _, _) | Wanted::OperandLabel(labels, _) => {
                Range::Labels(labels)
            }
            Wanted::RegisterCount(_, _, _) => Range::Span(0, REGISTERS),
            Wanted::RegisterIndex(_, _, _, _, last) => Range::RegistersAbove(last),
            Wanted::ItemCount(_) => Range::Span(1, ITEMS),
            Wanted::ItemNumber(_, _) => Range::ItemNumbers,
            Wanted::BranchRegister(_, _)
            | Wanted::OperandFirst(_, _, _)
            | Wanted::OperandSecond(_, _, _) => Range::Span(0, TOP_PART),
            Wanted::OperandThird(_, _, high) => Range::Span(0, high),
        }
    }
}
