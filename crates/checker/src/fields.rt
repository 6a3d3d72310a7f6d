// Loads and stores: the field that a pointer goes to is looked up through the tables.
ghost use Rattle.std.specs.Prelude.{◌≡◌};
ghost use Rattle.refusals.specs.Refusals.{number_in};
ghost use Rattle.levels.specs.Sets.{below_of, join_of};
ghost use Rattle.listing.specs.Parts.{shapes_in};
ghost use Rattle.rules.specs.Context.{slot_at, field_of};
ghost use Rattle.rules.specs.Rules.{first_failing, load_row, store_row};
ghost use Rattle.rules.specs.Held.{context_in};

use crate::tables::{Tabled, field_count, field_kind, field_level};
use refusals::Refusal;
use rules::Held;

// A load and a store are apart: they go through the other register, `store` asks for the field's kind too, and each
// promises a row of its own, `load_row` and `store_row`.
impl Tabled<'_> {
    // What refuses a load, first.
    pub fn load(&self, c: &Held, rd: u32, rs: u32, field: u32) -> Result<(), Refusal>
        ensures { number_in result ≡ first_failing (load_row below_of join_of (context_in c.now) rd rs field (shapes_in self.now.numbers.now)) }
    {
        let s = c.slot(rs);
        let place = self.shape_place(s.kind);
        rules::load(
            c.level,
            rd,
            c.slot(rd),
            s,
            field < field_count(self.numbers, place),
            field_level(self.numbers, place, field),
        )
    }

    // What refuses a store, first.
    pub fn store(&self, c: &Held, rd: u32, field: u32, rs: u32) -> Result<(), Refusal>
        ensures { number_in result ≡ first_failing (store_row below_of join_of (context_in c.now) rd field rs (shapes_in self.now.numbers.now)) }
    {
        let d = c.slot(rd);
        let place = self.shape_place(d.kind);
        rules::store(
            c.level,
            d,
            c.slot(rs),
            field < field_count(self.numbers, place),
            field_kind(self.numbers, place, field) as u32,
            field_level(self.numbers, place, field),
        )
    }

    // The kind of the field that rs points to.
    pub fn loaded_kind(&self, c: &Held, rs: u32, field: u32) -> u8
        ensures { result ≡ (field_of (shapes_in self.now.numbers.now) (slot_at c.now.registers rs).kind field).kind }
    {
        let place = self.shape_place(c.slot(rs).kind);
        field_kind(self.numbers, place, field)
    }
}
