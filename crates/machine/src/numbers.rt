// 01's numbers that the machine answers with, and its limits, each named once; specs/Numbers.antt
// has the same for the definitions.
ghost use Rattle.std.specs.Prelude.{◌≡◌};
ghost use Rattle.machine.specs.Stops.{status_of, counted_of};

// The status of a state that runs: 01's "budget used", since a run that its budget ends leaves one.
pub const RUNNING: u8 = 43;

// Why a machine stops where it stands.
#[derive(Clone, Copy, Debug, PartialEq, Eq)]
pub enum Stop {
    Halted = 0,
    NoWord = 40,
    BadWord = 41,
    BadAddress = 42,
}

impl Stop {
    // The status of a state that stopped so. A method says which number it is, and a u8 by From would not.
    pub fn status(self) -> u8
        ensures { result ≡ status_of self }
    {
        self as u8
    }

    // How many words the machine acted on where it stops: a halt, and no word that traps.
    pub fn counted(self) -> u32
        ensures { result ≡ counted_of self }
    {
        u32::from(self == Stop::Halted)
    }
}

// The largest code and heap, in words, and the largest budget.
pub const CODE_WORDS: usize = 1024;

pub const HEAP_WORDS: usize = 16384;

pub const BUDGET: u32 = 1000000;
