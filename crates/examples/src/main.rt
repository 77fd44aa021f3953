// Every example: the text that one argument names is answered, and the output is compared with the file that the next one names.
#![tactic(auto)]

ghost use Rattle.std.specs.Prelude.{◌≤◌, length, IfOk};

use answer_text::reply::MOST_OUTPUT;
use quiet_text::answer::reply;
use quiet_text::input::read_full;
use std::env::{Env, FillError};
use std::fs::{File, Files};
use std::io::Write;
use std::{io, str};

// The file that a name stands for. One that is not there would read as an empty one, so it is told.
fn named_into<R: Files + Print>(rt: &R, name: &str, buf: &mut [u8]) -> io::Result<usize>
    ensures { IfOk result (λ k. k ≤ length buf.new) }
{
    print!(rt; "{name} ")?;
    let Ok(mut file) = File::open(rt, name) else {
        print!(rt; "is missing, ")?;
        return Ok(0);
    };
    read_full(&mut file, buf)
}

// The file that argument i names; its name is printed.
fn file_into<R: Env + Files + Print>(rt: &R, i: usize, buf: &mut [u8]) -> io::Result<usize>
    ensures { IfOk result (λ k. k ≤ length buf.new) }
{
    let mut name = [0u8; 4096];
    let n = rt.arg(i, &mut name).unwrap_or(0);
    named_into(rt, str::from_utf8(&name[..n]).unwrap_or(""), buf)
}

fn judge<R: Print>(rt: &R, output: &[u8], expected: &[u8]) -> io::Result<()> {
    if output == expected {
        println!(rt; "as expected")
    } else {
        print!(rt; "not as expected: ")?;
        io::writer(rt).write_all(output)
    }
}

// The example whose text and output two arguments name.
fn example<R: Env + Files + Print>(rt: &R, i: usize, j: usize) -> io::Result<()> {
    let mut text = [0u8; 65536];
    let k = file_into(rt, i, &mut text)?;
    let mut expected = [0u8; 65536];
    let e = file_into(rt, j, &mut expected)?;
    let mut out = [0u8; MOST_OUTPUT];
    let count = reply(&text[..k], &mut out);
    judge(rt, &out[0..count], &expected[..e])
}

// Argument i is there, though it may be too long for a name.
fn is_given<R: Env>(rt: &R, i: usize) -> bool {
    !matches!(rt.arg(i, &mut [0u8; 4096]), Err(FillError::NotPresent))
}

// Room for 200 examples; an argument that is not there is no example.
fn main(rt: HostRuntime) -> io::Result<()> {
    for i in 0..200 {
        if is_given(&rt, 2 * i + 1) {
            example(&rt, 2 * i + 1, 2 * i + 2)?;
        }
    }
    Ok(())
}
