// Input, read into lent room.
ghost use Rattle.std.specs.Prelude.{◌≤◌, ◌<◌, length, take, IsOk, IfOk};
ghost use Rattle.std.specs.Io.KnownBytes.{Consumes, IsAtEnd};

use std::io;
use std::io::Read;

// How many of the reader's first bytes were read, as many as there is room for, and how the reading ended: what was read before a failure
// counts. Each turn but the last brings a byte at least.
pub fn read_first<R: Read>(reader: &mut R, room: &mut [u8]) -> (usize, io::Result<()>)
    ensures within { result.0 ≤ length room.new }
    ensures bytes { Consumes (R.remaining reader.old) (R.remaining reader.new) (take result.0 room.new) }
    ensures end { IsOk result.1 → result.0 < length room.new → IsAtEnd (R.remaining reader.new) }
{
    let mut done = 0;
    for turn in 0..room.len() {
        let got = match reader.read(&mut room[done..]) {
            Ok(got) => got,
            Err(e) => return (done, Err(e)),
        };
        if got == 0 {
            return (done, Ok(()));
        }
        done += got;
    }
    (done, Ok(()))
}

// The reader's first bytes, where no reading fails.
pub fn read_full<R: Read>(reader: &mut R, room: &mut [u8]) -> io::Result<usize>
    ensures within { IfOk result (λ k. k ≤ length room.new) }
    ensures bytes { IfOk result (λ k. Consumes (R.remaining reader.old) (R.remaining reader.new) (take k room.new)) }
    ensures end { IfOk result (λ k. k < length room.new → IsAtEnd (R.remaining reader.new)) }
{
    let (k, ended) = read_first(reader, room);
    ended?;
    Ok(k)
}
