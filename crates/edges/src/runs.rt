// Numbers as runs, a space between two: `7`, `1*1024` of equal ones, `0>3` of a transition, `0>1023*64` of equal transitions.
ghost use Rattle.std.specs.Prelude.{◌≤◌, length};

use crate::text::{number, number_after, skip};
use hazard::limits::MOST_PRODUCTS;

// So many numbers, the two in turn.
#[derive(Clone, Copy)]
struct Run {
    first: u16,
    second: u16,
    count: usize,
}

// A number's last 16 bits: every text has a meaning.
fn short(x: u64) -> u16 {
    (x % 65_536) as u16
}

// How often, after a star; once where there is none.
fn times(text: &[u8]) -> (u16, &[u8]) {
    let (x, rest) = number_after(text, b'*').unwrap_or((1, text));
    (short(x), rest)
}

// The run that a text begins with; none where the first byte is no digit.
fn next_run(text: &[u8]) -> Option<(Run, &[u8])> {
    if !text.first()?.is_ascii_digit() {
        return None;
    }
    let (first, rest) = number(text);
    let (second, width, rest) = match number_after(rest, b'>') {
        Some((second, rest)) => (second, 2u8, rest),
        None => (first, 1, rest),
    };
    let (times, rest) = times(rest);
    let run = Run {
        first: short(first),
        second: short(second),
        count: usize::from(width) * usize::from(times),
    };
    Some((run, rest))
}

// A run at the head of a list, and how many numbers it has there: none where it is longer than the list.
fn put(run: Run, list: &mut [u16]) -> usize
    ensures { result ≤ length list.new }
{
    let Some(places) = list.get_mut(..run.count) else {
        return 0;
    };
    for (i, place) in places.iter_mut().enumerate() {
        *place = if i % 2 == 0 { run.first } else { run.second };
    }
    run.count
}

// The runs that a text begins with, at most 16, and how many numbers they are in the list. A run for which the list has no room is left out.
pub(crate) fn numbers_into<'a>(text: &'a [u8], list: &mut [u16]) -> (usize, &'a [u8])
    ensures { result.0 ≤ length list.new }
{
    let mut count = 0;
    let mut left = text;
    for _ in 0..16 {
        let Some((run, rest)) = next_run(left) else {
            break;
        };
        count += put(run, &mut list[count..]);
        left = skip(rest, b' ');
    }
    (count, left)
}

// As many bytes are read: one product of ten inputs more than a network may have.
pub(crate) const LONGEST: usize = 10 * (MOST_PRODUCTS + 1);

// The runs as bytes, and how many they are: maybe more than there are places.
pub(crate) fn bytes_into<'a>(text: &'a [u8], bytes: &mut [u8]) -> (usize, &'a [u8]) {
    let mut list = [0; LONGEST];
    let (count, rest) = numbers_into(text, &mut list);
    for (byte, x) in bytes.iter_mut().zip(list.iter()) {
        *byte = (*x % 256) as u8;
    }
    (count, rest)
}
