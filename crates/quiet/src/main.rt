// The program: a problem's text from standard input, the answer to standard output.
#![tactic(auto)]

use answer_text::reply::MOST_OUTPUT;
use quiet_text::answer::reply;
use quiet_text::input::read_first;
use std::io;
use std::io::Write;

// One byte more than a text may have: a longer input is refused, and is not read to its end.
fn main(rt: HostRuntime) {
    let mut text = [0u8; 4097];
    // A read that fails ends the text, as the end of the input does.
    let (k, _) = read_first(&mut rt.reader(), &mut text);
    let mut out = [0u8; MOST_OUTPUT];
    let count = reply(&text[..k], &mut out);
    // Of a write that fails nobody is told: the status is 0 all the same.
    let _ = io::writer(&rt).write_all(&out[..count]);
}
