// What a call of the C border is lent.

// A buffer that numbers or a code are written in front of, a heap, a table that is only read (the code that
// is run, or the rows of blocks), sixteen registers, each in bytes, and a budget. It has no invariant: the
// prover takes no ghost field beside a `&mut`, so what a loan has passed stands in `requires`.
#[derive(Drop)]
pub struct Loan<'a> {
    pub out: &'a mut [u8],
    pub heap: &'a mut [u8],
    pub table: &'a [u8],
    pub regs: &'a mut [u8],
    pub budget: u32,
}
