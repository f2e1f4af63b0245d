// Tries digits::put_digits on every power of ten and its neighbours, and on the largest number, in rooms that end before the number, at each of its
// digits and after it. A line has the room as it is then, in a row of dots, and the next place. tools/digits_tried.py says what must come.
#![tactic(auto)]

ghost use Rattle.std.specs.Prelude.{◌≤◌, length};

use std::io;
use std::io::Write;
use streams::Failure;

// One byte before the number, 20 for its digits, and one after them.
const LONGEST: usize = 22;

const COUNT: usize = 61;

const NUMBERS: [u64; COUNT] = [
    0,
    1,
    2,
    9,
    10,
    11,
    99,
    100,
    101,
    999,
    1_000,
    1_001,
    9_999,
    10_000,
    10_001,
    99_999,
    100_000,
    100_001,
    999_999,
    1_000_000,
    1_000_001,
    9_999_999,
    10_000_000,
    10_000_001,
    99_999_999,
    100_000_000,
    100_000_001,
    999_999_999,
    1_000_000_000,
    1_000_000_001,
    9_999_999_999,
    10_000_000_000,
    10_000_000_001,
    99_999_999_999,
    100_000_000_000,
    100_000_000_001,
    999_999_999_999,
    1_000_000_000_000,
    1_000_000_000_001,
    9_999_999_999_999,
    10_000_000_000_000,
    10_000_000_000_001,
    99_999_999_999_999,
    100_000_000_000_000,
    100_000_000_000_001,
    999_999_999_999_999,
    1_000_000_000_000_000,
    1_000_000_000_000_001,
    9_999_999_999_999_999,
    10_000_000_000_000_000,
    10_000_000_000_000_001,
    99_999_999_999_999_999,
    100_000_000_000_000_000,
    100_000_000_000_000_001,
    999_999_999_999_999_999,
    1_000_000_000_000_000_000,
    1_000_000_000_000_000_001,
    9_999_999_999_999_999_999,
    10_000_000_000_000_000_000,
    10_000_000_000_000_000_001,
    18_446_744_073_709_551_615,
];

fn put_within(room: &mut [u8], size: usize, n: u64) -> usize
    requires { size ≤ length room.old }
{
    digits::put_digits(&mut room[..size], 1, n)
}

fn try_room<W: Write>(output: &mut W, n: u64, size: usize) -> Result<(), Failure>
    requires { size ≤ 22 }
{
    let mut room = [b'.'; LONGEST];
    let next = put_within(&mut room, size, n);
    streams::write(output, &room)?;
    streams::write_number(output, next, b"\n")
}

fn try_number<W: Write>(output: &mut W, n: u64) -> Result<(), Failure> {
    for size in 0..=LONGEST {
        try_room(output, n, size)?;
    }
    Ok(())
}

fn main(rt: HostRuntime) -> anyhow::Result<()> {
    let mut output = io::writer(&rt);
    for n in &NUMBERS {
        try_number(&mut output, *n)?;
    }
    Ok(())
}
