// The typing rules: for each kind of item a function that gives its first refusal, if it has one. Each is the
// row of premises of specs/Rules.antt, in its order.
#![tactic(auto, unfolding(crate::specs::Rules::first_failing, choice::specs::Pick::pick))]

ghost use Rattle.std.specs.Prelude.{◌≡◌};
ghost use Rattle.refusals.specs.Refusals.{number_in};
ghost use Rattle.levels.specs.Sets.{below_of, join_of};
ghost use Rattle.rules.specs.Rules.{first_failing, jump_row, halt_row, bnz_row, load_premises, store_premises, compute_row, compute_immediate_row, cpush_row, cjmp_row};
ghost use Rattle.rules.specs.Held.{context_in, label_in};

use crate::contexts::{Held, Slot};
use crate::labels::Label;
use levels::{at_or_below, join};
use listing::limits::STACK;
use refusals::{Refusal, require};

// A jump, or a fall, to a label, at pc level l.
pub fn jump(l: u32, c: &Held, target: Label) -> Result<(), Refusal>
    ensures { number_in result ≡ first_failing (jump_row below_of join_of l (context_in c.now) (label_in target.entry)) }
{
    require(c.stack.is(target), Refusal::StackRule)?;
    require(target.is_met(&c.registers), Refusal::NotMet)?;
    require(at_or_below(l, target.level()), Refusal::LevelRule)
}

pub fn halt(c: &Held) -> Result<(), Refusal>
    ensures { number_in result ≡ first_failing (halt_row (context_in c.now)) }
{
    require(c.stack.depth() == 0, Refusal::StackRule)
}

pub fn bnz(c: &Held, rs: u32, target: Label) -> Result<(), Refusal>
    ensures { number_in result ≡ first_failing (bnz_row below_of join_of (context_in c.now) rs (label_in target.entry)) }
{
    let s = c.slot(rs);
    require(s.listed, Refusal::NotListed)?;
    require(s.kind == 0, Refusal::WrongSort)?;
    jump(join(c.level, s.level as u32), c, target)
}

// A load by what is said of rd and rs, whether there is such a field, and the field's level.
// A flag beside the level, no Option: docs/PROMISES.md names `load` and `store`, and their rows, `load_premises` and
// `store_premises`, speak of the level where there is no such field too, so each may be given any.
pub fn load(l: u32, rd: u32, d: Slot, s: Slot, has: bool, lc: u32) -> Result<(), Refusal>
    ensures { number_in result ≡ first_failing (load_premises below_of join_of l rd d s has lc) }
{
    require(0 < rd, Refusal::WritesR0)?;
    require(d.listed, Refusal::NotListed)?;
    require(s.listed, Refusal::NotListed)?;
    require(0 < s.kind, Refusal::WrongSort)?;
    require(has, Refusal::NoField)?;
    require(at_or_below(join(l, s.level as u32), lc), Refusal::LevelRule)?;
    require(at_or_below(lc, d.level as u32), Refusal::LevelRule)
}

// A store by the same, and the field's kind.
pub fn store(l: u32, d: Slot, s: Slot, has: bool, kind: u32, lc: u32) -> Result<(), Refusal>
    ensures { number_in result ≡ first_failing (store_premises below_of join_of l d s has kind lc) }
{
    require(d.listed, Refusal::NotListed)?;
    require(s.listed, Refusal::NotListed)?;
    require(0 < d.kind, Refusal::WrongSort)?;
    require(has, Refusal::NoField)?;
    require(s.is_exactly(kind, lc), Refusal::NotTheField)?;
    require(at_or_below(join(l, d.level as u32), lc), Refusal::LevelRule)
}

pub fn compute(c: &Held, rd: u32, rs: u32, rt: u32) -> Result<(), Refusal>
    ensures { number_in result ≡ first_failing (compute_row below_of join_of (context_in c.now) rd rs rt) }
{
    let d = c.slot(rd);
    let s = c.slot(rs);
    let t = c.slot(rt);
    let l = join(join(c.level, s.level as u32), t.level as u32);
    require(0 < rd, Refusal::WritesR0)?;
    require(d.listed, Refusal::NotListed)?;
    require(s.listed, Refusal::NotListed)?;
    require(t.listed, Refusal::NotListed)?;
    require(s.kind == 0, Refusal::WrongSort)?;
    require(t.kind == 0, Refusal::WrongSort)?;
    require(at_or_below(l, d.level as u32), Refusal::LevelRule)
}

pub fn compute_immediate(c: &Held, rd: u32, rs: u32) -> Result<(), Refusal>
    ensures { number_in result ≡ first_failing (compute_immediate_row below_of join_of (context_in c.now) rd rs) }
{
    let d = c.slot(rd);
    let s = c.slot(rs);
    require(0 < rd, Refusal::WritesR0)?;
    require(d.listed, Refusal::NotListed)?;
    require(s.listed, Refusal::NotListed)?;
    require(s.kind == 0, Refusal::WrongSort)?;
    require(
        at_or_below(join(c.level, s.level as u32), d.level as u32),
        Refusal::LevelRule,
    )
}

pub fn cpush(c: &Held, target: Label) -> Result<(), Refusal>
    ensures { number_in result ≡ first_failing (cpush_row below_of join_of (context_in c.now) (label_in target.entry)) }
{
    require(c.stack.depth() < STACK as usize, Refusal::PushPast)?;
    require(at_or_below(c.level, target.level()), Refusal::LevelRule)
}

pub fn cjmp(c: &Held, l: u32, target: Label) -> Result<(), Refusal>
    ensures { number_in result ≡ first_failing (cjmp_row (context_in c.now) l (label_in target.entry)) }
{
    require(c.stack.is_on(l, target), Refusal::StackRule)?;
    require(target.is_met(&c.registers), Refusal::NotMet)
}
