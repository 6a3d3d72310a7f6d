// Tables of places: where each shape and each label of a listing begins, and the reading of fields.
ghost use Rattle.std.specs.Prelude.{◌≡◌, ◌≤◌, ◌<◌, ◌+◌, ◌*◌, ◌^◌, length, get_or, MatchOption};
ghost use Rattle.listing.specs.Limits;
ghost use Rattle.listing.specs.Limits.{BYTES};
ghost use Rattle.listing.specs.Parts.{shape_at, labels_in, shapes_in};
ghost use Rattle.rules.specs.Context.{target_of, no_field, fields_of};
ghost use Rattle.rules.specs.Held.{label_in};
ghost use Rattle.checker.specs.Tables.{table_of, shape_table, label_table};

use listing::limits::{FIELDS, LABELS, SHAPES, TOP_LEVEL};
use listing::{Labels, Part, Shapes, at_most, count_at, labels_place, number_at};
use rules::Label;

// The places of n parts of one sort, the first at a place; past them the end of the numbers: no Option, since there a
// part reads as one with nothing in it, which is what `label` and `shape_place` promise for one that there is not.
fn places<P: Part, const N: usize>(numbers: &[u32], first: u32, n: u32) -> [u32; N]
    requires short { length numbers.now ≤ BYTES }
    requires room { n ≤ N }
    requires near { first + P.most * n < 2 ^ 31 }
    ensures { result ≡ table_of N (length numbers.now) (P.next numbers.now) first n }
{
    let mut table = [numbers.len() as u32; N];
    let mut at = first;
    // By index: the proof doesn't close over `iter_mut`, behind which only the table's length is known.
    for k in 0..n as usize {
        table[k] = at;
        at = P::behind(numbers, at);
    }
    table
}

// A listing by its numbers, with the places of its shapes and of its labels: arrays for as many as there
// may be, since there is no heap. That the numbers are short is asked of what makes one alone: `new`, `places`
// and `walk` around them.
#[derive(Drop)]
pub struct Tabled<'a> {
    pub numbers: &'a [u32],
    shapes: [u32; 64],
    labels: [u32; 128],
    ghost short: { length numbers.now ≤ BYTES },
    ghost shapes_are: { shapes ≡ shape_table numbers.now },
    ghost labels_are: { labels ≡ label_table numbers.now },
}

impl<'a> Tabled<'a> {
    #[tactic(auto, unfolding(crate::specs::Tables::shape_table, crate::specs::Tables::label_table))]
    pub fn new(numbers: &'a [u32]) -> Tabled<'a>
        requires { length numbers.now ≤ BYTES }
        ensures { result.numbers.now ≡ numbers.now }
    {
        let place = labels_place(numbers);
        let shapes = places::<Shapes, 64>(numbers, 2, count_at(SHAPES, numbers, 1));
        let labels = places::<Labels, 128>(numbers, place + 1, count_at(LABELS, numbers, place));
        Tabled {
            numbers,
            shapes,
            labels,
        }
    }

    // How many labels there are.
    #[tactic(auto, using(crate::specs::WalkLaws::labels_counted))]
    pub(crate) fn label_count(&self) -> u32
        ensures value { result ≡ length (labels_in self.now.numbers.now) }
        ensures few { result ≤ Limits.LABELS }
    {
        count_at(LABELS, self.numbers, labels_place(self.numbers))
    }

    // The place that a table has at i; past its end that of the end of the numbers.
    fn place_in(&self, table: &[u32], i: usize) -> u32
        ensures { result ≡ get_or table.now i (length self.now.numbers.now) }
    {
        table.get(i).copied().unwrap_or(self.numbers.len() as u32)
    }

    // A label.
    #[tactic(auto, using(crate::specs::Tables::label_stands))]
    pub fn label(&self, l: u32) -> Label<'a>
        ensures { label_in result ≡ target_of (labels_in self.now.numbers.now) l }
    {
        Label {
            numbers: self.numbers,
            place: self.place_in(&self.labels, l as usize),
        }
    }

    // Where the shape stands that a pointer of a kind goes to.
    #[tactic(auto, using(crate::specs::Tables::shape_stands))]
    pub fn shape_place(&self, kind: u8) -> u32
        ensures { shape_at self.now.numbers.now result ≡ fields_of (shapes_in self.now.numbers.now) kind }
    {
        self.place_in(&self.shapes, (kind as usize).saturating_sub(1))
    }
}

// How many fields the shape at a place has. The numbers and the place come apart, as docs/PROMISES.md has these three.
#[tactic(auto, using(crate::specs::Tables::count_is))]
pub fn field_count(numbers: &[u32], place: u32) -> u32
    ensures { result ≡ length (shape_at numbers.now place) }
{
    count_at(FIELDS, numbers, place)
}

// Where a field of the shape at a place stands, if the shape has it.
fn field_place(numbers: &[u32], place: u32, c: u32) -> Option<usize>
    ensures { MatchOption result (length (shape_at numbers.now place) ≤ c) (λ at. (c < length (shape_at numbers.now place)) × (at ≡ place + 1 + 2 * c)) }
{
    if c < field_count(numbers, place) {
        Some(place as usize + 1 + 2 * c as usize)
    } else {
        None
    }
}

// A field of the shape at a place: its kind and its level, 0 where it has no such field. No Option, since their clauses
// have `get_or .. no_field`.

#[tactic(auto, using(crate::specs::Tables::fields))]
pub fn field_kind(numbers: &[u32], place: u32, c: u32) -> u8
    ensures { result ≡ (get_or (shape_at numbers.now place) c no_field).kind }
{
    match field_place(numbers, place, c) {
        Some(at) => at_most(SHAPES, number_at(numbers, at)) as u8,
        None => 0,
    }
}

#[tactic(auto, using(crate::specs::Tables::fields))]
pub fn field_level(numbers: &[u32], place: u32, c: u32) -> u32
    ensures { result ≡ (get_or (shape_at numbers.now place) c no_field).level }
{
    match field_place(numbers, place, c) {
        Some(at) => at_most(TOP_LEVEL, number_at(numbers, at + 1)),
        None => 0,
    }
}
