// Words of 32 bits as 01's operations take them.
ghost use Rattle.std.specs.Prelude.{◌≡◌};
ghost use Rattle.machine.specs.Arithmetic.{slt_of, extend_of, compute_of};

// 1 where a is less than b as signed numbers, else 0.
fn slt(a: u32, b: u32) -> u32
    ensures { result ≡ slt_of a b }
{
    u32::from(a.cast_signed() < b.cast_signed())
}

// The word of an immediate of 16 bits, sign-extended.
pub fn extended(i: u16) -> u32
    ensures { result ≡ extend_of i }
{
    i32::from(i.cast_signed()).cast_unsigned()
}

// The operation with the item number op, 5 to 9. It stays a number, since a step goes by the opcode's.
#[tactic(auto, using(choice::specs::Pick::cases), unfolding(crate::specs::Arithmetic::compute_of))]
pub fn compute(op: usize, a: u32, b: u32) -> u32
    ensures { result ≡ compute_of op a b }
{
    match op {
        5 => a.wrapping_add(b),
        6 => a.wrapping_sub(b),
        7 => a & b,
        8 => a ^ b,
        _ => slt(a, b),
    }
}
