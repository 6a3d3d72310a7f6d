// One item in an open block: its first refusal, and the context behind it.
ghost use Rattle.std.specs.Prelude.{◌≡◌};
ghost use Rattle.refusals.specs.Refusals.{number_in};
ghost use Rattle.levels.specs.Sets.{below_of, join_of};
ghost use Rattle.listing.specs.Parts.{shapes_in, labels_in};
ghost use Rattle.rules.specs.Rules.{first_failing, row_of, after_of};
ghost use Rattle.rules.specs.Held.{context_in};

use crate::tables::Tabled;
use listing::Item;
use refusals::Refusal;
use rules::{Held, bnz, cjmp, compute, compute_immediate, cpush, halt, jump};

impl Tabled<'_> {
    // What refuses an item, first; a label is fallen into.
    #[tactic(auto, unfolding(rules::specs::Rules::row_of))]
    pub fn rule(&self, c: &Held, item: Item) -> Result<(), Refusal>
        ensures { number_in result ≡ first_failing (row_of below_of join_of (shapes_in self.now.numbers.now) (labels_in self.now.numbers.now) (context_in c.now) item) }
    {
        match item {
            Item::Halt => halt(c),
            Item::Jmp(l) => jump(c.level, c, self.label(l)),
            Item::Bnz(rs, l) => bnz(c, rs, self.label(l)),
            Item::Load(rd, rs, field) => self.load(c, rd, rs, field),
            Item::Store(rd, field, rs) => self.store(c, rd, field, rs),
            Item::Compute(_, rd, rs, rt) => compute(c, rd, rs, rt),
            Item::ComputeImmediate(_, rd, rs, _) => compute_immediate(c, rd, rs),
            Item::Cpush(l) => cpush(c, self.label(l)),
            Item::Cjmp(l) => cjmp(c, l, self.label(l)),
            Item::Label(l) => jump(c.level, c, self.label(l)),
        }
    }

    // Takes a context past an item that is not refused there.
    #[tactic(auto, unfolding(rules::specs::Rules::after_of))]
    pub fn go_past(&self, c: &mut Held, item: Item)
        requires { first_failing (row_of below_of join_of (shapes_in self.now.numbers.now) (labels_in self.now.numbers.now) (context_in c.old) item) ≡ 0 }
        ensures { context_in c.new ≡ after_of below_of join_of (shapes_in self.now.numbers.now) (labels_in self.now.numbers.now) (context_in c.old) item }
    {
        match item {
            Item::Halt | Item::Jmp(_) | Item::Store(_, _, _) | Item::Cjmp(_) => {}
            Item::Bnz(rs, _) => c.raise(rs),
            Item::Load(rd, rs, field) => c.change(rd, self.loaded_kind(c, rs, field)),
            Item::Compute(_, rd, _, _) => c.change(rd, 0),
            Item::ComputeImmediate(_, rd, _, _) => c.change(rd, 0),
            Item::Cpush(l) => c.push(l),
            Item::Label(l) => *c = self.label(l).enter(),
        }
    }
}
