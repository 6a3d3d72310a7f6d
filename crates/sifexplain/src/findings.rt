// What was wanted where an item stands, and what was found, by the rule that it breaks.
use crate::contexts::{Here, Register};
use crate::flows::say_level_rule;
use crate::stacks::{say_push_past, say_stack_rule};
use listing::Item;
use refusals::Refusal;
use std::fmt;

// It is the value that prints itself. Each rule has a function of `f` and `here` behind it: a value for each would hold
// the same reference, and be printed in one place.
#[derive(Clone, Copy)]
pub struct Finding<'a> {
    pub here: &'a Here<'a>,
    pub refusal: Refusal,
}

impl fmt::Display for Finding<'_> {
    fn fmt<W: fmt::Write>(&self, f: &mut fmt::Formatter<W>) -> fmt::Result {
        let here = self.here;
        match self.refusal {
            Refusal::NotListed => say_unlisted(f, here),
            Refusal::WrongSort => say_wrong_sort(f, here),
            Refusal::LevelRule => say_level_rule(f, here),
            Refusal::NoField => say_no_field(f, here),
            Refusal::StackRule => say_stack_rule(f, here),
            Refusal::NotMet => say_not_met(f, here),
            Refusal::WritesR0 => write!(
                f,
                "Wanted: r1 to r15 as the register that is written.\nFound: r0.\n"
            ),
            Refusal::PushPast => say_push_past(f, here),
            Refusal::NotTheField => say_not_the_field(f, here),
            _ => Ok(()),
        }
    }
}

// The registers that an item names, in the order in which they are asked for.
fn registers(item: Item) -> [Option<u32>; 3] {
    match item {
        Item::Bnz(rs, _) => [Some(rs), None, None],
        Item::Load(rd, rs, _) | Item::Store(rd, _, rs) | Item::ComputeImmediate(_, rd, rs, _) => {
            [Some(rd), Some(rs), None]
        }
        Item::Compute(_, rd, rs, rt) => [Some(rd), Some(rs), Some(rt)],
        _ => [None, None, None],
    }
}

// The first register that is not listed: there is one.
fn say_unlisted<W: fmt::Write>(f: &mut fmt::Formatter<W>, here: &Here) -> fmt::Result {
    let unlisted = registers(here.item)
        .iter()
        .filter_map(|index| *index)
        .map(|index| here.register(index))
        .find(|register| !register.slot.listed);
    let Some(register) = unlisted else {
        return Ok(());
    };
    let index = register.index;
    write!(f, "Wanted: r{index} listed.\nFound: {register}.\n")
}

// The register of the other sort than is wanted: the pointer's of a load or store, or else the first that should
// be an integer and is none.
fn say_wrong_sort<W: fmt::Write>(f: &mut fmt::Formatter<W>, here: &Here) -> fmt::Result {
    let (sort, index) = match here.item {
        Item::Load(_, rs, _) => ("a pointer", rs),
        Item::Store(rd, _, _) => ("a pointer", rd),
        Item::Compute(_, _, rs, rt) => {
            let kind = here.register(rs).slot.kind;
            ("an integer", if kind == 0 { rt } else { rs })
        }
        Item::Bnz(rs, _) | Item::ComputeImmediate(_, _, rs, _) => ("an integer", rs),
        _ => return Ok(()),
    };
    let register = here.register(index);
    write!(f, "Wanted: {sort} in r{index}.\nFound: {register}.\n")
}

fn say_no_field<W: fmt::Write>(f: &mut fmt::Formatter<W>, here: &Here) -> fmt::Result {
    match here.item {
        Item::Load(_, pointer, c) | Item::Store(pointer, c, _) => {
            let Some(field) = here.field(pointer, c) else {
                return Ok(());
            };
            let among = field.among;
            write!(f, "Wanted: a field below {among}.\nFound: {field}.\n")
        }
        _ => Ok(()),
    }
}

// A register is stored in a field of another kind or level.
fn say_not_the_field<W: fmt::Write>(f: &mut fmt::Formatter<W>, here: &Here) -> fmt::Result {
    let Item::Store(rd, c, rs) = here.item else {
        return Ok(());
    };
    let Some(field) = here.field(rd, c) else {
        return Ok(());
    };
    let wanted = Register {
        index: rs,
        slot: field.slot,
    };
    let register = here.register(rs);
    write!(f, "Wanted: {wanted}, as {field}.\nFound: {register}.\n")
}

// A jump to a label, a return to it or a fall into it: the first register that the label lists and that does not come with its
// kind and level.
fn say_not_met<W: fmt::Write>(f: &mut fmt::Formatter<W>, here: &Here) -> fmt::Result {
    let (Item::Jmp(l) | Item::Bnz(_, l) | Item::Cjmp(l) | Item::Label(l)) = here.item else {
        return Ok(());
    };
    let target = here.packet.label(l).enter();
    let listed = |index: u32| Register {
        index,
        slot: target.slot(index),
    };
    let unmet = (1..16).map(listed).find(|wanted| wanted.slot.listed
        && !here.register(wanted.index).is(wanted.slot));
    let Some(wanted) = unmet else {
        return Ok(());
    };
    let register = here.register(wanted.index);
    write!(
        f,
        "Wanted: {wanted}, as L{l} lists it.\nFound: {register}.\n"
    )
}
