// The walk down the items, with the current context and the labels placed so far.
ghost use Rattle.std.specs.Prelude.{◌≡◌, ◌≤◌, ◌<◌, ◌+◌, OnOk, false, length};
ghost use Rattle.refusals.specs.Refusals.{number_in, verdict_in};
ghost use Rattle.levels.specs.Sets.{below_of, join_of};
ghost use Rattle.listing.specs.declared.items.Item.TheVariants.{Label};
ghost use Rattle.listing.specs.Limits.{BYTES, ITEMS};
ghost use Rattle.listing.specs.Parts.{labels_in, listing_in};
ghost use Rattle.rules.specs.Rules.{first_failing};
ghost use Rattle.checker.specs.Walk.{accepted, or_else, end_row, is_label, walk_of};
ghost use Rattle.checker.specs.Refusal.{start};
ghost use Rattle.checker.specs.States.{state_in, number_due, state_behind};

use crate::blocks::Block;
use crate::placed::{all_placed, free, with_placed};
use crate::tables::Tabled;
use listing::{Item, each_item};
use refusals::{Fault, Refusal};
use rules::{Held, require};

// Where the walk stands: before which item, in or out of a block, with a context, and with some labels
// placed. The walk counts its place, without `enumerate`, which is no plainer: the end has a place too, behind the last
// item, and `enumerate` gives a place to items alone.
#[derive(Clone, Copy)]
pub struct Standing {
    pub place: usize,
    pub block: Block,
    pub held: Held,
    pub placed: [bool; 128],
}

impl Standing {
    // Before the first item.
    #[tactic(auto, unfolding(crate::specs::Refusal::start))]
    fn start() -> Standing
        ensures state { state_in result ≡ start }
        ensures place { result.place ≡ 0 }
    {
        Standing {
            place: 0,
            block: Block::Start,
            held: Held::nothing(),
            placed: [false; 128],
        }
    }

    // Goes past a label, if nothing refuses it.
    #[tactic(auto, unfolding(crate::specs::Walk::premises_of, crate::specs::Walk::is_label, crate::specs::Walk::label_in, crate::specs::Walk::block_after, rules::specs::Rules::after_of, choice::specs::Pick::pick))]
    fn pass_label(&mut self, listing: &Tabled, l: u32) -> Result<(), Refusal>
        ensures number { number_in result ≡ number_due listing.now.numbers.now self.old (Label l) }
        ensures behind { OnOk result (state_in self.new ≡ state_behind listing.now.numbers.now self.old (Label l)) }
        ensures place { self.new.place ≡ self.old.place }
    {
        let target = listing.label(l);
        self.block
            .label_rule(&self.held, free(self.placed, l), target)?;
        self.block = Block::Open;
        self.held = target.enter();
        self.placed = with_placed(self.placed, l);
        Ok(())
    }

    // Goes past an item that is no label, if nothing refuses it.
    #[tactic(auto, using(crate::specs::BlockLaws::others))]
    fn pass_other(&mut self, listing: &Tabled, item: Item) -> Result<(), Refusal>
        requires { is_label item ≡ false }
        ensures number { number_in result ≡ number_due listing.now.numbers.now self.old item }
        ensures behind { OnOk result (state_in self.new ≡ state_behind listing.now.numbers.now self.old item) }
        ensures place { self.new.place ≡ self.old.place }
    {
        self.block.item_rule(&self.held, item, listing)?;
        self.block = Block::after(item);
        listing.go_past(&mut self.held, item);
        Ok(())
    }

    // Goes past an item, if nothing refuses it.
    #[tactic(auto, using(crate::specs::BlockLaws::other))]
    fn pass(&mut self, listing: &Tabled, item: Item) -> Result<(), Refusal>
        ensures number { number_in result ≡ number_due listing.now.numbers.now self.old item }
        ensures behind { OnOk result (state_in self.new ≡ state_behind listing.now.numbers.now self.old item) }
        ensures place { self.new.place ≡ self.old.place }
    {
        match item {
            Item::Label(l) => self.pass_label(listing, l),
            _ => self.pass_other(listing, item),
        }
    }

    // Goes on to the next item, if nothing refuses this one.
    #[tactic(auto, using(crate::specs::WalkLaws::faults))]
    fn step(&mut self, listing: &Tabled, item: Item) -> Result<(), Fault>
        requires { self.old.place < ITEMS }
        ensures verdict { verdict_in result ≡ or_else (number_due listing.now.numbers.now self.old item) self.old.place accepted }
        ensures behind { OnOk result (state_in self.new ≡ state_behind listing.now.numbers.now self.old item) }
        ensures place { OnOk result (self.new.place ≡ self.old.place + 1) }
    {
        self.pass(listing, item)
            .map_err(|refusal| self.fault(refusal))?;
        self.place += 1;
        Ok(())
    }

    // A refusal of what stands here.
    fn fault(&self, refusal: Refusal) -> Fault
        ensures refusal { result.refusal ≡ refusal }
        ensures place { result.place ≡ self.now.place }
    {
        Fault {
            refusal,
            place: self.place,
        }
    }

    // What refuses the end of a listing's items here, first.
    #[tactic(auto, unfolding(rules::specs::Rules::first_failing, choice::specs::Pick::pick))]
    fn end_rule(&self, listing: &Tabled) -> Result<(), Refusal>
        ensures { number_in result ≡ first_failing (end_row (length (labels_in listing.now.numbers.now)) self.now.block self.now.placed) }
    {
        require(self.block.is_closed(), Refusal::OpenEnd)?;
        require(
            all_placed(self.placed, listing.label_count()),
            Refusal::NeverPlaced,
        )
    }

    // The verdict at the end of the items.
    #[tactic(auto, using(crate::specs::WalkLaws::faults))]
    fn end(&self, listing: &Tabled) -> Result<(), Fault>
        ensures { verdict_in result ≡ or_else (first_failing (end_row (length (labels_in listing.now.numbers.now)) self.now.block self.now.placed)) self.now.place accepted }
    {
        self.end_rule(listing)
            .map_err(|refusal| self.fault(refusal))
    }
}

// The walk over the items of a listing.
fn walk_items(listing: &Tabled) -> Result<(), Fault>
    ensures { verdict_in result ≡ walk_of below_of join_of (listing_in listing.now.numbers.now) }
{
    let mut standing = Standing::start();
    for item in each_item(listing.numbers) {
        standing.step(listing, item)?;
    }
    standing.end(listing)
}

// The walk of a listing, given by its numbers.
pub fn walk(numbers: &[u32]) -> Result<(), Fault>
    requires { length numbers.now ≤ BYTES }
    ensures { verdict_in result ≡ walk_of below_of join_of (listing_in numbers.now) }
{
    walk_items(&Tabled::new(numbers))
}
