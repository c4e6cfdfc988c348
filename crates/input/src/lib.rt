//! The bytes of a text, out of a reader, and rooms to read into.
#![tactic(auto)]

ghost use Rattle.std.specs.Prelude.{IfOk, OnErr, ℕ, ◌≡◌, ◌+◌, ◌/◌, ◌≤◌, ◌<◌, length, replicate, take};
ghost use Rattle.std.specs.Io.KnownBytes.{Consumes, IsAtEnd};

use std::io;
use std::io::Read;

/// A room of N slots, all alike. Its length is told since lending an array needs it.
pub fn room<T: Copy, const N: usize>(fill: T) -> [T; N]
    ensures long { N ≡ length result }
    ensures filled { result ≡ replicate N fill }
{
    [fill; N]
}

/// Reads up to the end or until the room is full. Answers how many bytes. An error is the reader's; what was read before it
/// stands in front in the room.
pub fn read_full<R: Read>(reader: &mut R, room: &mut [u8]) -> io::Result<usize>
    ensures within { IfOk result (λ n. n ≤ length room.new) }
    ensures bytes { IfOk result (λ n. Consumes (R.remaining reader.old) (R.remaining reader.new) (take n room.new)) }
    ensures err { OnErr result ((n : ℕ) × (n ≤ length room.new) × Consumes (R.remaining reader.old) (R.remaining reader.new) (take n room.new)) }
    ensures end { IfOk result (λ n. n < length room.new → IsAtEnd (R.remaining reader.new)) }
{
    let mut n = 0;
    // stays: how far a read goes is the reader's to say, so that no range or chain counts n.
    while n < room.len() {
        let more = reader.read(&mut room[n..])?;
        if more == 0 {
            break;
        }
        n += more;
    }
    Ok(n)
}
