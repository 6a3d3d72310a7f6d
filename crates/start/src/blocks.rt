// The blocks of a heap whose rows are good: whether a value is an integer, or the base of a block of its shape.
ghost use Rattle.std.specs.Prelude.{◌≡◌, eqb};
ghost use Rattle.start.specs.Start.{is_block, is_of_kind};
ghost use Rattle.start.specs.KindLaws.{Kinds};
ghost use Rattle.start.specs.PairLaws.{rows_in};

// The rows of the block table, a base and a shape each, and the kinds of the blocks by address, as far as the
// table of kinds goes.
#[derive(Clone, Copy)]
pub struct Blocks<'a> {
    pub rows: &'a [[u32; 2]],
    pub kinds: &'a [u8],
    pub ghost known: { Kinds (rows_in rows.now) kinds.now },
}

impl<'a> Blocks<'a> {
    // Whether an address is the base of a block of a shape, by each row.
    fn begins(&self, a: u32, s: u32) -> bool
        ensures { result ≡ is_block (rows_in self.now.rows.now) a s }
    {
        self.rows
            .iter()
            .any(|&[base, shape]| base == a && shape == s)
    }

    // Whether a value is one of a kind. The table tells it of its addresses, and the rows of all others.
    #[tactic(auto, using(crate::specs::KindLaws::kinds), unfolding(crate::specs::Start::is_of_kind, choice::specs::Pick::pick))]
    pub fn is_of_kind(&self, kind: u32, value: u32) -> bool
        ensures { result ≡ is_of_kind (rows_in self.now.rows.now) kind value }
    {
        if kind == 0 {
            return true;
        }
        match self.kinds.get(value as usize) {
            Some(&entry) => entry as u32 == kind,
            None => self.begins(value, kind - 1),
        }
    }
}
