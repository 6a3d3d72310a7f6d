// Which number is due, and what is due after it. The grammar knows nothing of bytes or buffers, so a
// reader of pieces and a writer can go by it too.
ghost use Rattle.std.specs.Prelude.{◌≡◌};
ghost use Rattle.listing.specs.Due.{Next, due_of, due_in};
ghost use Rattle.listing.specs.Grammar.{next_of, outside_of, not_below_of, shapes_from, fields_from, labels_from, stack_from, registers_from, items_from, operands_from};

use crate::limits::{
    EDITION, FIELDS, ITEMS, LABELS, REGISTERS, SHAPES, STACK, TOP_IMMEDIATE, TOP_ITEM, TOP_LEVEL,
    TOP_PART,
};
use refusals::{Refusal, require};

// The number that is due, and what its range and the numbers behind it go by: the counts of shapes and
// labels, to which kinds and labels are held; `more`, the shapes, labels or items that are still to
// come after this one; and the parts of this one that are still to come after the one due. They go by
// position, in which specs/Grammar.antt and its laws take them: `next_of`.
#[derive(Clone, Copy, Debug, PartialEq, Eq)]
pub enum Wanted {
    Edition,
    ShapeCount,
    // shapes, more
    FieldCount(u32, u32),
    // shapes, more, fields
    FieldKind(u32, u32, u32),
    FieldLevel(u32, u32, u32),
    // shapes
    LabelCount(u32),
    // shapes, labels, more
    LabelLevel(u32, u32, u32),
    StackLength(u32, u32, u32),
    // shapes, labels, more, stack labels
    StackLabel(u32, u32, u32, u32),
    // shapes, labels, more
    RegisterCount(u32, u32, u32),
    // shapes, labels, more, registers, and the index of the register before, 0 for the first: indices
    // ascend
    RegisterIndex(u32, u32, u32, u32, u32),
    // the same with the register's own index
    RegisterKind(u32, u32, u32, u32, u32),
    RegisterLevel(u32, u32, u32, u32, u32),
    // labels
    ItemCount(u32),
    // labels, more
    ItemNumber(u32, u32),
    // labels, more: an item's only or last operand, a label
    OperandLabel(u32, u32),
    // labels, more: bnz's register, before its label
    BranchRegister(u32, u32),
    // labels, more, high: three operands, two registers or offsets and a third up to high
    OperandFirst(u32, u32, u32),
    OperandSecond(u32, u32, u32),
    OperandThird(u32, u32, u32),
}

// A number must be from low to high, or below an end.

#[tactic(auto, unfolding(crate::specs::Grammar::outside_of, choice::specs::Pick::pick))]
fn within(n: u32, low: u32, high: u32) -> Result<(), Refusal>
    ensures { result ≡ outside_of n low high }
{
    require((low..=high).contains(&n), Refusal::OutOfRange)
}

#[tactic(auto, unfolding(crate::specs::Grammar::not_below_of, choice::specs::Pick::pick))]
fn below(n: u32, end: u32) -> Result<(), Refusal>
    ensures { result ≡ not_below_of n end }
{
    require(n < end, Refusal::OutOfRange)
}

// The number that is due where n shapes, fields, labels, stack labels, registers or items are still to
// come; behind the items nothing is. Each asks whether n is 0 as its definition does: checked_sub and a
// match over what is left are no plainer, but where one side is None.

#[tactic(auto, unfolding(crate::specs::Grammar::shapes_from, choice::specs::Pick::pick))]
fn shapes_from(shapes: u32, n: u32) -> Wanted
    ensures { Next result ≡ shapes_from shapes n }
{
    if n == 0 {
        Wanted::LabelCount(shapes)
    } else {
        Wanted::FieldCount(shapes, n - 1)
    }
}

#[tactic(auto, unfolding(crate::specs::Grammar::fields_from, choice::specs::Pick::pick))]
fn fields_from(shapes: u32, more: u32, n: u32) -> Wanted
    ensures { Next result ≡ fields_from shapes more n }
{
    if n == 0 {
        shapes_from(shapes, more)
    } else {
        Wanted::FieldKind(shapes, more, n - 1)
    }
}

#[tactic(auto, unfolding(crate::specs::Grammar::labels_from, choice::specs::Pick::pick))]
fn labels_from(shapes: u32, labels: u32, n: u32) -> Wanted
    ensures { Next result ≡ labels_from shapes labels n }
{
    if n == 0 {
        Wanted::ItemCount(labels)
    } else {
        Wanted::LabelLevel(shapes, labels, n - 1)
    }
}

#[tactic(auto, unfolding(crate::specs::Grammar::stack_from, choice::specs::Pick::pick))]
fn stack_from(shapes: u32, labels: u32, more: u32, n: u32) -> Wanted
    ensures { Next result ≡ stack_from shapes labels more n }
{
    if n == 0 {
        Wanted::RegisterCount(shapes, labels, more)
    } else {
        Wanted::StackLabel(shapes, labels, more, n - 1)
    }
}

#[tactic(auto, unfolding(crate::specs::Grammar::registers_from, choice::specs::Pick::pick))]
fn registers_from(shapes: u32, labels: u32, more: u32, n: u32, last: u32) -> Wanted
    ensures { Next result ≡ registers_from shapes labels more n last }
{
    if n == 0 {
        labels_from(shapes, labels, more)
    } else {
        Wanted::RegisterIndex(shapes, labels, more, n - 1, last)
    }
}

#[tactic(auto, unfolding(crate::specs::Grammar::items_from, choice::specs::Pick::pick))]
fn items_from(labels: u32, n: u32) -> Option<Wanted>
    ensures { due_of result ≡ items_from labels n }
{
    n.checked_sub(1)
        .map(|more| Wanted::ItemNumber(labels, more))
}

// The operands of an item number. It is matched as the packet's number, as operands_from does: an Item
// has its operands, and they are not read yet.
#[tactic(auto, unfolding(crate::specs::Grammar::operands_from, choice::specs::Pick::pick))]
fn operands_from(labels: u32, more: u32, item: u32) -> Option<Wanted>
    ensures { due_of result ≡ operands_from labels more item }
{
    match item {
        0 => items_from(labels, more),
        1 => Some(Wanted::OperandLabel(labels, more)),
        2 => Some(Wanted::BranchRegister(labels, more)),
        3..=9 => Some(Wanted::OperandFirst(labels, more, TOP_PART)),
        10..=14 => Some(Wanted::OperandFirst(labels, more, TOP_IMMEDIATE)),
        _ => Some(Wanted::OperandLabel(labels, more)),
    }
}

// What is due after the number n, nothing more where None; or why n is refused.
#[tactic(auto, using(crate::specs::GrammarLaws::dues))]
pub fn next(wanted: Wanted, n: u32) -> Result<Option<Wanted>, Refusal>
    ensures { due_in result ≡ next_of wanted n }
{
    match wanted {
        Wanted::Edition => {
            if n == EDITION {
                Ok(Some(Wanted::ShapeCount))
            } else {
                Err(Refusal::WrongEdition)
            }
        }
        Wanted::ShapeCount => {
            within(n, 0, SHAPES)?;
            Ok(Some(shapes_from(n, n)))
        }
        Wanted::FieldCount(shapes, more) => {
            within(n, 1, FIELDS)?;
            Ok(Some(fields_from(shapes, more, n)))
        }
        Wanted::FieldKind(shapes, more, fields) => {
            within(n, 0, shapes)?;
            Ok(Some(Wanted::FieldLevel(shapes, more, fields)))
        }
        Wanted::FieldLevel(shapes, more, fields) => {
            within(n, 0, TOP_LEVEL)?;
            Ok(Some(fields_from(shapes, more, fields)))
        }
        Wanted::LabelCount(shapes) => {
            within(n, 1, LABELS)?;
            Ok(Some(labels_from(shapes, n, n)))
        }
        Wanted::LabelLevel(shapes, labels, more) => {
            within(n, 0, TOP_LEVEL)?;
            Ok(Some(Wanted::StackLength(shapes, labels, more)))
        }
        Wanted::StackLength(shapes, labels, more) => {
            within(n, 0, STACK)?;
            Ok(Some(stack_from(shapes, labels, more, n)))
        }
        Wanted::StackLabel(shapes, labels, more, stack) => {
            below(n, labels)?;
            Ok(Some(stack_from(shapes, labels, more, stack)))
        }
        Wanted::RegisterCount(shapes, labels, more) => {
            within(n, 0, REGISTERS)?;
            Ok(Some(registers_from(shapes, labels, more, n, 0)))
        }
        Wanted::RegisterIndex(shapes, labels, more, registers, last) => {
            below(last, n)?;
            within(n, 1, TOP_PART)?;
            Ok(Some(Wanted::RegisterKind(shapes, labels, more, registers, n)))
        }
        Wanted::RegisterKind(shapes, labels, more, registers, last) => {
            within(n, 0, shapes)?;
            Ok(Some(Wanted::RegisterLevel(shapes, labels, more, registers, last)))
        }
        Wanted::RegisterLevel(shapes, labels, more, registers, last) => {
            within(n, 0, TOP_LEVEL)?;
            Ok(Some(registers_from(shapes, labels, more, registers, last)))
        }
        Wanted::ItemCount(labels) => {
            within(n, 1, ITEMS)?;
            Ok(items_from(labels, n))
        }
        Wanted::ItemNumber(labels, more) => {
            within(n, 0, TOP_ITEM)?;
            Ok(operands_from(labels, more, n))
        }
        Wanted::OperandLabel(labels, more) => {
            below(n, labels)?;
            Ok(items_from(labels, more))
        }
        Wanted::BranchRegister(labels, more) => {
            within(n, 0, TOP_PART)?;
            Ok(Some(Wanted::OperandLabel(labels, more)))
        }
        Wanted::OperandFirst(labels, more, high) => {
            within(n, 0, TOP_PART)?;
            Ok(Some(Wanted::OperandSecond(labels, more, high)))
        }
        Wanted::OperandSecond(labels, more, high) => {
            within(n, 0, TOP_PART)?;
            Ok(Some(Wanted::OperandThird(labels, more, high)))
        }
        Wanted::OperandThird(labels, more, high) => {
            within(n, 0, high)?;
            Ok(items_from(labels, more))
        }
    }
}
