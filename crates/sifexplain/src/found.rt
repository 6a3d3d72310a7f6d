// What was found where a number is due.
use number::NumberError;
use std::fmt;

#[derive(Clone, Copy)]
pub struct Found<'a> {
    pub bytes: &'a [u8],
    pub at: usize,
}

// The last byte of the number at a place, none where it has none among five.
fn last_byte(bytes: &[u8], at: usize) -> Option<u8> {
    bytes.iter().skip(at).take(5).copied().find(|b| *b < 128)
}

impl fmt::Display for Found<'_> {
    fn fmt<W: fmt::Write>(&self, f: &mut fmt::Formatter<W>) -> fmt::Result {
        let Found { bytes, at } = *self;
        let end = bytes.len();
        match number::read(bytes, at) {
            Ok(number) => write!(f, "{}", number.value),
            Err(NumberError::Ended) => {
                let within = if at < end { " within this number" } else { "" };
                write!(f, "the packet's end{within}, at byte {end}")
            }
            Err(NumberError::Malformed(_)) => f.write_str(match last_byte(bytes, at) {
                Some(0) => "a last byte of 0, which adds nothing",
                Some(_) => "a number of 4294967296 or more",
                None => "no last byte among its first five",
            }),
        }
    }
}
