// Text put into a buffer from a place on. A byte past the buffer's end is dropped, so that no function here
// owes that a text fits; `line` owes it once. Digits are put here and not by `Display`: the contract of `line` names
// every byte of a fixed buffer, and there is no heap for a text of its own.
ghost use Rattle.std.specs.Prelude.{◌≡◌, ◌+◌, ◌≤◌, ◌<◌, ◌++◌, length, set};
ghost use Rattle.lines.specs.Decimal.{decimal_of};
ghost use Rattle.lines.specs.Line.{written};
ghost use Rattle.lines.specs.Put.{put_of, FAR};

// Tested and indexed: of `out.get_mut(at)` the proof does not learn what is then written through it.
fn put(out: &mut [u8], at: usize, byte: u8)
    ensures { out.new ≡ set out.old at byte }
{
    if at < out.len() {
        out[at] = byte;
    }
}

// Puts a text, and answers the place behind it.
#[tactic(auto, using(crate::specs::PutLaws::puts))]
pub fn put_text(out: &mut [u8], at: usize, text: &[u8]) -> usize
    requires { at + length text.now < FAR }
    ensures out_after { written result out.new ≡ put_of out.old at text.now }
    ensures near { result ≡ at + length text.now }
{
    for (i, byte) in text.iter().enumerate() {
        put(out, at + i, *byte);
    }
    at + text.len()
}

// Puts a number in decimal, and answers the place behind it.
fn put_decimal(out: &mut [u8], at: usize, n: usize) -> usize
    requires { at < FAR }
    ensures out_after { written result out.new ≡ put_of out.old at (decimal_of n) }
    ensures near { result ≤ at + 20 }
{
    if n < 10 {
        put(out, at, b'0' + n as u8);
        return at + 1;
    }
    let end = put_decimal(out, at, n / 10);
    put(out, end, b'0' + (n % 10) as u8);
    end + 1
}

// Puts a text and a number behind it, and answers the place behind both.
pub fn put_labelled(out: &mut [u8], at: usize, text: &[u8], n: usize) -> usize
    requires { at + length text.now < FAR }
    ensures out_after { written result out.new ≡ put_of out.old at (text.now ++ decimal_of n) }
    ensures near { result ≤ at + length text.now + 20 }
{
    let end = put_text(out, at, text);
    put_decimal(out, end, n)
}
