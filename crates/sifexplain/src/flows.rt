// What was wanted of levels and what was found.
use crate::contexts::Here;
use crate::fields::Field;
use levels::{at_or_below, join};
use listing::Item;
use std::fmt;

// Where something shows that an item does: in a register; in the field of a shape, written or reached through a
// pointer; in that a label is reached or pushed.
#[derive(Clone, Copy)]
enum Target {
    Register(u32),
    Written(Field),
    Reached(Field),
    Block(u32),
    Pushed(u32),
}

impl fmt::Display for Target {
    fn fmt<W: fmt::Write>(&self, f: &mut fmt::Formatter<W>) -> fmt::Result {
        match *self {
            Target::Register(r) => write!(f, "r{r}"),
            Target::Written(field) | Target::Reached(field) => write!(f, "{field}"),
            Target::Block(l) | Target::Pushed(l) => write!(f, "L{l}"),
        }
    }
}

impl Target {
    // Where an item shows what it goes by; a halt and a cjmp show nothing, nor does a field that is not there.
    fn new(here: &Here) -> Option<Target> {
        match here.item {
            Item::Compute(_, rd, _, _) | Item::ComputeImmediate(_, rd, _, _) => {
                Some(Target::Register(rd))
            }
            Item::Load(_, rs, c) => Some(Target::Reached(here.field(rs, c)?)),
            Item::Store(rd, c, _) => Some(Target::Written(here.field(rd, c)?)),
            Item::Jmp(l) | Item::Bnz(_, l) | Item::Label(l) => Some(Target::Block(l)),
            Item::Cpush(l) => Some(Target::Pushed(l)),
            Item::Halt | Item::Cjmp(_) => None,
        }
    }

    fn level(self, here: &Here) -> u32 {
        match self {
            Target::Register(r) => here.level_of(r),
            Target::Written(field) | Target::Reached(field) => field.level(),
            Target::Block(l) | Target::Pushed(l) => here.packet.label(l).level(),
        }
    }

    // What its level is called.
    fn level_name(self) -> &'static str {
        match self {
            Target::Block(_) | Target::Pushed(_) => "pc level",
            Target::Register(_) | Target::Written(_) | Target::Reached(_) => "level",
        }
    }

    // What its level lets be done.
    fn seen(self) -> &'static str {
        match self {
            Target::Block(_) | Target::Pushed(_) => "seen to run",
            Target::Register(_) | Target::Written(_) | Target::Reached(_) => "read",
        }
    }

    // How an item would have more show there.
    fn shown(self) -> &'static str {
        match self {
            Target::Register(_) | Target::Written(_) => "writes there",
            Target::Reached(_) => "reaches it by",
            Target::Block(_) => "goes there by",
            Target::Pushed(_) => "has it run later by",
        }
    }
}

// The compartments of `from` that `to` has not, by their weights in a level's number.
#[derive(Clone, Copy)]
struct Lacking {
    from: u32,
    to: u32,
}

impl fmt::Display for Lacking {
    fn fmt<W: fmt::Write>(&self, f: &mut fmt::Formatter<W>) -> fmt::Result {
        for weight in [1, 2, 4, 8, 16, 32, 64, 128] {
            if at_or_below(weight, self.from) && !at_or_below(weight, self.to) {
                write!(f, " {weight}")?;
            }
        }
        Ok(())
    }
}

// The end of a finding: what is known at a level shows at a target's.
#[derive(Clone, Copy)]
struct Flow {
    from: u32,
    to: u32,
    target: Target,
}

impl Flow {
    fn new(here: &Here, from: u32, target: Target) -> Flow {
        Flow {
            from,
            to: target.level(here),
            target,
        }
    }
}

impl fmt::Display for Flow {
    fn fmt<W: fmt::Write>(&self, f: &mut fmt::Formatter<W>) -> fmt::Result {
        let Flow { from, to, target } = *self;
        let lacking = Lacking { from, to };
        let name = target.level_name();
        let seen = target.seen();
        let shown = target.shown();
        write!(f, " at or below {name} {to} of {target}.\n")?;
        write!(f, "Found: level {to} lacks{lacking}.\n")?;
        write!(f, "That is: {target} may be {seen} at level {to} and up; ")?;
        write!(f, "this item {shown} what is known only at level {from}.\n")
    }
}

// A register that what an item does depends on.
#[derive(Clone, Copy)]
struct Source {
    index: u32,
    level: u32,
}

impl fmt::Display for Source {
    fn fmt<W: fmt::Write>(&self, f: &mut fmt::Formatter<W>) -> fmt::Result {
        let Source { index, level } = *self;
        write!(f, "r{index} at level {level}")
    }
}

// What the level of an item's doing is joined from.
#[derive(Clone, Copy)]
struct Sources {
    pc: u32,
    first: Option<Source>,
    second: Option<Source>,
}

fn level_of(source: Option<Source>) -> u32 {
    source.map_or(0, |s| s.level)
}

impl Sources {
    fn new(here: &Here) -> Sources {
        let source = |index: u32| Source {
            index,
            level: here.level_of(index),
        };
        let (first, second) = match here.item {
            Item::Compute(_, _, rs, rt) => (Some(source(rs)), Some(source(rt))),
            Item::ComputeImmediate(_, _, r, _)
            | Item::Load(_, r, _)
            | Item::Store(r, _, _)
            | Item::Bnz(r, _) => (Some(source(r)), None),
            _ => (None, None),
        };
        Sources {
            pc: here.held.level,
            first,
            second,
        }
    }

    fn level(&self) -> u32 {
        join(join(self.pc, level_of(self.first)), level_of(self.second))
    }
}

impl fmt::Display for Sources {
    fn fmt<W: fmt::Write>(&self, f: &mut fmt::Formatter<W>) -> fmt::Result {
        let pc = self.pc;
        let Some(first) = self.first else {
            return write!(f, "pc level {pc}");
        };
        let level = self.level();
        write!(f, "level {level}, joined from pc level {pc} and {first},")?;
        match self.second {
            Some(second) => write!(f, " and {second},"),
            None => Ok(()),
        }
    }
}

// A load shows by which pointer a field is reached, and then the field in the register.
pub fn say_level_rule<W: fmt::Write>(f: &mut fmt::Formatter<W>, here: &Here) -> fmt::Result {
    let sources = Sources::new(here);
    let Some(target) = Target::new(here) else {
        return Ok(());
    };
    let flow = Flow::new(here, sources.level(), target);
    if let (Item::Load(rd, _, _), Target::Reached(field)) = (here.item, target) {
        let level = field.level();
        if at_or_below(flow.from, level) {
            let flow = Flow::new(here, level, Target::Register(rd));
            return write!(f, "Wanted: level {level} of {field}{flow}");
        }
    }
    write!(f, "Wanted: {sources}{flow}")
}
