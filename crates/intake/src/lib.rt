// The packet on standard input and its line on standard output, for every program that judges one: what meets the
// outside. What is read no contract can say; that it stands in the front of the buffer is promised. The line is
// made by the crate `lines`.

#![tactic(auto)]

ghost use Rattle.std.specs.Prelude.{◌≡◌, ◌+◌, length};
ghost use Rattle.intake.specs.Input.{count_in};
ghost use Rattle.listing.specs.Limits;
ghost use Rattle.lines.specs.Line.{Front};

use lines::LONGEST;
use listing::limits::BYTES;
use std::fmt;
use std::io::{self, Cursor, Read, Write};

// One byte more than a packet may have: enough to tell that one is too long.
const MOST: usize = BYTES + 1;

// What a program could not do, and how many bytes it had read then.
#[derive(Clone, Copy, Debug, PartialEq, Eq)]
pub enum Failure {
    Reading(usize),
    Printing(usize),
}

impl fmt::Display for Failure {
    fn fmt<W: fmt::Write>(&self, f: &mut fmt::Formatter<W>) -> fmt::Result {
        f.write_str(match self {
            Failure::Reading(_) => "standard input cannot be read",
            Failure::Printing(_) => "standard output cannot be written",
        })
    }
}

// Room for a packet, and with it a count: there is no heap for a `Vec`.
pub fn packet_room() -> [u8; MOST]
    ensures { length result ≡ Limits.BYTES + 1 }
{
    [0; MOST]
}

// Reads until the input ends, the buffer is full or a read fails. No `for` is plainer: how many bytes a turn brings
// is what `read` answers.
fn read_packet(stdin: &mut impl Read, buf: &mut [u8]) -> Result<usize, Failure>
    ensures { Front (count_in result) buf.new }
{
    let mut count = 0;
    while count < buf.len() {
        match stdin.read(&mut buf[count..]) {
            Ok(0) => return Ok(count),
            Ok(more) => count += more,
            Err(_) => return Err(Failure::Reading(count)),
        }
    }
    Ok(count)
}

// Prints a packet's line.
fn print_line(stdout: &mut impl Write, packet: &[u8]) -> io::Result<()> {
    let mut out = [0u8; LONGEST];
    let n = lines::line(packet, &mut out);
    stdout.write_all(&out[..n])
}

fn read_and_print(
    stdin: &mut impl Read,
    stdout: &mut impl Write,
    buf: &mut [u8],
) -> Result<usize, Failure>
    ensures { Front (count_in result) buf.new }
{
    let count = read_packet(stdin, buf)?;
    print_line(stdout, &buf[..count]).map_err(|_| Failure::Printing(count))?;
    Ok(count)
}

// Says on standard error what a program could not do, in two pieces: where one cannot be written the other is tried.
fn complain(stderr: &mut impl Write, program: &[u8], failure: Failure) {
    let mut text = Cursor::new([0u8; 64]);
    let _ = writeln!(text, ": {failure}");
    let end = text.position() as usize;
    let _ = stderr.write_all(program);
    let _ = stderr.write_all(text.get_ref().get(..end).unwrap_or(&[]));
}

// Reads a packet, prints its line, and answers how many bytes were read. What could not be done it says on standard
// error. A program's name may be any bytes, as ever.
pub fn answer(
    stdin: &mut impl Read,
    stdout: &mut impl Write,
    stderr: &mut impl Write,
    buf: &mut [u8],
    program: &[u8],
) -> Result<usize, Failure>
    ensures { Front (count_in result) buf.new }
{
    let answered = read_and_print(stdin, stdout, buf);
    if let Err(failure) = answered {
        complain(stderr, program, failure);
    }
    answered
}
