// The labels placed so far, each that may occur: whether one is free, and whether none is missing. The
// array goes through the walk by value, as 01 has it.
ghost use Rattle.std.specs.Prelude.{◌≡◌, ◌≤◌, set, true};
ghost use Rattle.listing.specs.Limits.{LABELS};
ghost use Rattle.checker.specs.Walk.{free_of, all_from};

// Whether a label is not placed yet.
#[tactic(auto, using(crate::specs::WalkLaws::is_placed))]
pub fn free(placed: [bool; 128], l: u32) -> bool
    ensures { result ≡ free_of placed l }
{
    !placed.get(l as usize).copied().unwrap_or(false)
}

// The same with a label placed.
pub fn with_placed(placed: [bool; 128], l: u32) -> [bool; 128]
    ensures { result ≡ set placed l true }
{
    // No `get_mut`: the proof doesn't close, since behind an array's `get_mut` only its length is known.
    let i = l as usize;
    let mut after = placed;
    if i < 128 {
        after[i] = true;
    }
    after
}

// Whether each of the first n labels is placed.
pub fn all_placed(placed: [bool; 128], n: u32) -> bool
    requires { n ≤ LABELS }
    ensures { result ≡ all_from placed 0 n }
{
    placed[..n as usize].iter().all(|&p| p)
}
