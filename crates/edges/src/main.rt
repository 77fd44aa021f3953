// Both calls at the edges of what they take. Each line of the input is a case, or a comment after `#`; each line of the output is a
// case's name and the answer.
#![tactic(auto)]

ghost use Rattle.std.specs.Prelude.{◌≤◌, length};

mod case;
mod report;
mod runs;
mod tables;
mod text;

use std::io::Read;

// The input's first bytes, as many as there is room for. A read that fails ends the text: the cases that came before it are still run.
fn read_into<R: Read>(reader: &mut R, room: &mut [u8]) -> usize
    ensures { result ≤ length room.new }
{
    let mut done = 0;
    for _ in 0..room.len() {
        let got = reader.read(&mut room[done..]).unwrap_or(0);
        if got == 0 {
            return done;
        }
        done += got;
    }
    done
}

// At most 400 lines. A case is handed all the text from its line on: its name goes on to the first colon, even past the line's end.
fn main(rt: HostRuntime) {
    let mut room = [0; 65_536];
    let count = read_into(&mut rt.reader(), &mut room);
    let mut left = &room[..count];
    for _ in 0..400 {
        if !left.is_empty() && !left.starts_with(b"#") {
            // A write that fails is passed over: the output alone tells what the cases showed, and the next one may still be printed.
            let _ = case::run(&rt, left);
        }
        left = text::after(left, b'\n').unwrap_or(&[]);
    }
}
