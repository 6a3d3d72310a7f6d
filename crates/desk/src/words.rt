// Words as bytes, lowest first: buffers of bytes copied to buffers of words and back. The loops name the
// bytes of a word by index: after a zip with `iter_mut` or `chunks_exact_mut` the prover knows a slice's
// length alone.
ghost use Rattle.std.specs.Prelude.{◌≡◌, ◌*◌, ◌/◌, ◌%◌, ◌≤◌, ◌++◌, length, drop};
ghost use Rattle.desk.specs.Bytes.{words_of, bytes_of};

// Copies the bytes into the front of a room that has as many words.
pub fn fill(from: &[u8], to: &mut [u32])
    requires from_len { length from.now % 4 ≡ 0 }
    requires from_in_bounds { length from.now ≤ length to.old * 4 }
    ensures { to.new ≡ words_of from.now ++ drop (length from.now / 4) to.old }
{
    let n = from.len() / 4;
    for (i, word) in to[..n].iter_mut().enumerate() {
        let k = i * 4;
        *word = u32::from_le_bytes([from[k], from[k + 1], from[k + 2], from[k + 3]]);
    }
}

// Copies the words into the front of a buffer that they fit.
pub fn spill(from: &[u32], to: &mut [u8])
    requires { length from.now * 4 ≤ length to.old }
    ensures { to.new ≡ bytes_of from.now ++ drop (length from.now * 4) to.old }
{
    let front = &mut to[..from.len() * 4];
    for (i, word) in from.iter().enumerate() {
        let k = i * 4;
        front[k..k + 4].copy_from_slice(&word.to_le_bytes());
    }
}
