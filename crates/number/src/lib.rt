// One number of a packet: groups of seven bits, lowest group first, shortest form, at most five
// bytes, below 2^32. Read specs/Number.antt first.

#![tactic(auto)]

ghost use Rattle.std.specs.Prelude.{Err, ◌≡◌, ◌+◌, ◌*◌, ◌%◌, ◌≤◌, ◌<◌, ◌^◌};
ghost use Rattle.number.specs.Found.{found_in};
ghost use Rattle.number.specs.Number.{read_of, last_of, malformed_of};
ghost use Rattle.number.specs.Number as definitions;

// The most bytes of a number, and the least byte that is not a number's last.
const GROUPS: u32 = 5;

const CONTINUES: u8 = 128;

// A number that stands at a place of a packet, and the place behind it.
#[derive(Clone, Copy, Debug, PartialEq, Eq)]
pub struct Number {
    pub value: u32,
    pub behind: usize,
}

// Why no number stands at a place.
#[derive(Clone, Copy, Debug, PartialEq, Eq)]
pub enum NumberError {
    // The bytes end before the number's last or fifth byte.
    Ended,
    // No number in shortest form below 2^32; the place that the refusal names.
    Malformed(usize),
}

// The refusal of a number that begins at first and whose rule breaks at the byte at: it names the
// first byte.
fn malformed(first: usize, at: usize) -> NumberError
    ensures { found_in (Err result) ≡ malformed_of first at }
{
    NumberError::Malformed(first)
}

// A number by its last byte: the groups before it make value, and it counts scale.
#[tactic(auto, unfolding(crate::specs::Number::last_of, choice::specs::Pick::pick))]
fn last(value: u64, scale: u64, b: u8, first: usize, at: usize) -> Result<Number, NumberError>
    requires value_lt_scale { value < scale }
    requires scale_bound { scale ≤ 2 ^ 28 }
    requires b_bound { b < definitions.CONTINUES }
    requires at_bound { at + 1 < 2 ^ 64 }
    ensures { found_in result ≡ last_of value scale b first at }
{
    if b == 0 {
        if at == first {
            return Ok(Number {
                value: 0,
                behind: at + 1,
            });
        }
        return Err(malformed(first, at));
    }
    let whole = value + b as u64 * scale;
    if whole < 4294967296 {
        return Ok(Number {
            value: whole as u32,
            behind: at + 1,
        });
    }
    Err(malformed(first, at))
}

// The groups so far with one more, the low seven bits of a byte.
fn with_group(value: u64, scale: u64, b: u8) -> u64
    requires value_lt_scale { value < scale }
    requires scale_bound { scale ≤ 2 ^ 28 }
    ensures { result ≡ value + b % 128 * scale }
{
    value + (b % 128) as u64 * scale
}

// Reads the number that begins at a place, group by group.
fn read_groups(bytes: &[u8], first: usize) -> Result<Number, NumberError>
    ensures { found_in result ≡ read_of bytes.now first }
{
    // The place is counted beside the groups, since the answer is made of it: first plus their number wraps
    // where no byte stands, and an iterator gives no place.
    let mut at = first;
    let mut value: u64 = 0;
    let mut scale: u64 = 1;
    for _ in 0..GROUPS {
        let Some(&b) = bytes.get(at) else {
            return Err(NumberError::Ended);
        };
        if b < CONTINUES {
            return last(value, scale, b, first, at);
        }
        value = with_group(value, scale, b);
        scale *= 128;
        at += 1;
    }
    Err(malformed(first, at - 1))
}

// Reads the number that begins at a place. Most numbers of a packet are one byte.
#[tactic(auto, using(crate::specs::NumberLaws::single))]
pub fn read(bytes: &[u8], first: usize) -> Result<Number, NumberError>
    ensures { found_in result ≡ read_of bytes.now first }
{
    match bytes.get(first) {
        Some(&b) if b < CONTINUES => Ok(Number {
            value: b as u32,
            behind: first + 1,
        }),
        _ => read_groups(bytes, first),
    }
}
