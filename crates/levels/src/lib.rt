// Security levels as sets of eight compartments: the order by mask, the join by or.
// Read specs/Order.antt first: what an order of levels is.

#![tactic(auto)]

ghost use Rattle.std.specs.Prelude.{◌≡◌};
ghost use Rattle.levels.specs.Sets.{below_of, join_of};

// Whether each compartment of a is one of b's.
pub fn at_or_below(a: u32, b: u32) -> bool
    ensures { result ≡ below_of a b }
{
    a & b == a
}

// The compartments of both.
pub fn join(a: u32, b: u32) -> u32
    ensures { result ≡ join_of a b }
{
    a | b
}
