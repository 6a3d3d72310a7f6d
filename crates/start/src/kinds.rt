// The kinds of the blocks by address, so that a pointer is looked up by one read.
ghost use Rattle.std.specs.Prelude.{◌≡◌, replicate};
ghost use Rattle.start.specs.KindLaws.{Rising, Kinds};
ghost use Rattle.start.specs.PairLaws.{rows_in};
ghost use Rattle.start.specs.KindLaws;

// The addresses that the table has: those of the largest heap that the desk takes. For others the rows
// are looked through.
const ADDRESSES: usize = 16384;

#[tactic(auto, unfolding(crate::specs::KindLaws::ADDRESSES))]
fn no_kinds() -> [u8; ADDRESSES]
    ensures { result ≡ replicate KindLaws.ADDRESSES 0 }
{
    [0; ADDRESSES]
}

// The kind of the pointers to each block, at its base; 0 where none begins. Bytes and no `Option`s:
// `Kinds` speaks of numbers, and an `Option` doubles the room that is cleared.
pub fn kinds_of(rows: &[[u32; 2]]) -> [u8; ADDRESSES]
    requires { Rising (rows_in rows.now) }
    ensures { Kinds (rows_in rows.now) result }
{
    let mut kinds = no_kinds();
    for &[base, s] in rows {
        let a = base as usize;
        // By `get_mut` the proof does not close: what its write leaves in the table is not told.
        if a < ADDRESSES {
            kinds[a] = (s + 1) as u8;
        }
    }
    kinds
}
