// Blocks: where the walk is, and the first refusal of a label or of another item there.
ghost use Rattle.std.specs.Prelude.{◌≡◌, false, true};
ghost use Rattle.choice.specs.Pick.{pick};
ghost use Rattle.refusals.specs.Refusals.{number_in};
ghost use Rattle.levels.specs.Sets.{below_of, join_of};
ghost use Rattle.listing.specs.Parts.{shapes_in, labels_in};
ghost use Rattle.rules.specs.Rules.{first_failing, row_of};
ghost use Rattle.rules.specs.Held.{context_in, label_in};
ghost use Rattle.checker.specs.Walk.{block_after, due_row, label_row, is_open};

use crate::tables::Tabled;
use listing::Item;
use refusals::Refusal;
use rules::{Held, Label, jump, require};

// Where the walk is: before the first item, behind an item that closed its block, or in a block.
#[derive(Clone, Copy, Debug, PartialEq, Eq)]
pub enum Block {
    Start,
    Closed,
    Open,
}

impl Block {
    // How an item leaves the block.
    pub fn after(item: Item) -> Block
        ensures { result ≡ block_after item }
    {
        match item {
            Item::Halt | Item::Jmp(_) | Item::Cjmp(_) => Block::Closed,
            _ => Block::Open,
        }
    }

    // Whether no block is open.
    #[tactic(auto, unfolding(crate::specs::Walk::is_open, choice::specs::Pick::pick))]
    pub fn is_closed(self) -> bool
        ensures { result ≡ pick (is_open self) false true }
    {
        self != Block::Open
    }

    // What refuses a label here, first.
    #[tactic(auto, unfolding(crate::specs::Walk::enter_row, rules::specs::Rules::first_failing, choice::specs::Pick::pick))]
    pub fn label_rule(self, c: &Held, unplaced: bool, target: Label) -> Result<(), Refusal>
        ensures { number_in result ≡ first_failing (label_row below_of join_of self (context_in c.now) unplaced (label_in target.entry)) }
    {
        require(unplaced, Refusal::PlacedTwice)?;
        match self {
            Block::Start => require(target.depth() == 0, Refusal::FirstStack),
            Block::Closed => Ok(()),
            Block::Open => jump(c.level, c, target),
        }
    }

    // What refuses an item here that is no label, first.
    #[tactic(auto, unfolding(crate::specs::Walk::due_row, rules::specs::Rules::first_failing, choice::specs::Pick::pick))]
    pub fn item_rule(self, c: &Held, item: Item, listing: &Tabled) -> Result<(), Refusal>
        ensures { number_in result ≡ first_failing (due_row self (row_of below_of join_of (shapes_in listing.now.numbers.now) (labels_in listing.now.numbers.now) (context_in c.now) item)) }
    {
        match self {
            Block::Open => listing.rule(c, item),
            Block::Start | Block::Closed => Err(Refusal::NoLabel),
        }
    }
}
