// 01's table of refusals: why something is turned away, each reason named once, and where it shows. Read
// specs/Refusals.antt first.

#![tactic(auto)]

ghost use Rattle.std.specs.Prelude.{◌≡◌, Ok, Err};
ghost use Rattle.choice.specs.Pick.{pick};
ghost use Rattle.refusals.specs.Refusals.{number_of};

// Why something is refused, in the table's order.
#[derive(Clone, Copy, Debug, PartialEq, Eq)]
pub enum Refusal {
    // Packets.
    Ended = 1,
    Malformed = 2,
    WrongEdition = 3,
    OutOfRange = 4,
    LeftOver = 5,
    TooLong = 6,
    // Items, and the list's end.
    NoLabel = 10,
    PlacedTwice = 11,
    FirstStack = 12,
    NotListed = 13,
    WrongSort = 14,
    LevelRule = 15,
    NoField = 16,
    StackRule = 17,
    NotMet = 18,
    WritesR0 = 19,
    PushPast = 20,
    OpenEnd = 21,
    NeverPlaced = 22,
    NotTheField = 23,
    // Buffers, starts and budgets.
    BadSize = 30,
    BadRow = 31,
    BadField = 32,
    BadRegister = 33,
    BudgetTooLarge = 34,
    DoesNotFit = 35,
    CodeTooLong = 36,
}

impl Refusal {
    // Its number in the table. A method says which number it is, and a u8 by From would not.
    pub fn number(self) -> u8
        ensures { result ≡ number_of self }
    {
        self as u8
    }
}

// A refusal, and the place that it names: a byte, an item, a row, a word, a register, or a size that is needed.
#[derive(Clone, Copy, Debug, PartialEq, Eq)]
pub struct Fault {
    pub refusal: Refusal,
    pub place: usize,
}

// What has to hold: the error where it does not.
#[tactic(auto, unfolding(choice::specs::Pick::pick))]
pub fn require<E: Copy>(holds: bool, error: E) -> Result<(), E>
    ensures { result ≡ pick holds (Ok tt) (Err error) }
{
    if holds { Ok(()) } else { Err(error) }
}
