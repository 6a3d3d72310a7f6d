// What the desk call adds to the limits of the crates below; specs/Numbers.antt has the same for the
// definitions.

// The largest block table, in words.
pub const BLOCK_WORDS: usize = 1024;
