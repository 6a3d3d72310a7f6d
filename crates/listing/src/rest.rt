// The items of a listing that are still to come.
ghost use Rattle.std.specs.Prelude.{◌+◌, ◌*◌, ◌<◌, ◌^◌};
ghost use Rattle.listing.specs.PlaceLaws.{ITEM_NUMBERS};

// So many items, one behind the other, from a place among the numbers on. They end before 2^31.
#[derive(Clone, Copy)]
pub struct Rest<'a> {
    pub numbers: &'a [u32],
    pub at: u32,
    pub left: u32,
    ghost near: { at + ITEM_NUMBERS * left < 2 ^ 31 },
}
