// Standard input and output for the programs. A read gives a short count only where the input ends: a read that fails is an error, so that no program
// takes the first part of a text for all of it. What a reader or a writer over memory gives or takes is said byte by byte; of standard input and output
// no contract can say it.
#![tactic(auto)]

ghost use Rattle.std.specs.Prelude.{◌<◌, ◌++◌, IfOk, OnOk, decimal, length, take};
ghost use Rattle.std.specs.Io.{ReadsAtMost};
ghost use Rattle.std.specs.Io.KnownBytes.{Appends, Consumes, IsAtEnd};

use std::io;
use std::io::{Read, Write};
use thiserror::Error;

// Why a program stops.
#[derive(Debug, Drop, Error)]
pub enum Failure {
    #[error("standard input could not be read: {0}")]
    Unread(io::Error),
    #[error("standard output could not be written: {0}")]
    Unwritten(io::Error),
}

// Reads until the buffer is full or the input ends, and gives how many bytes were read.
pub fn read<R: Read>(input: &mut R, buffer: &mut [u8]) -> Result<usize, Failure>
    ensures within { ReadsAtMost result buffer.new }
    ensures bytes { IfOk result (λ n. Consumes (R.remaining input.old) (R.remaining input.new) (take n buffer.new)) }
    ensures end { IfOk result (λ n. n < length buffer.new → IsAtEnd (R.remaining input.new)) }
{
    let mut done: usize = 0;
    while done < buffer.len() {
        let more = input.read(&mut buffer[done..]).map_err(Failure::Unread)?;
        if more == 0 {
            break;
        }
        done += more;
    }
    Ok(done)
}

// Writes all bytes.
pub fn write<W: Write>(output: &mut W, bytes: &[u8]) -> Result<(), Failure>
    ensures { OnOk result (Appends (W.contents output.old) (W.contents output.new) bytes.now) }
{
    output.write_all(bytes).map_err(Failure::Unwritten)
}

// Writes a number in shortest decimals, and what follows it.
pub fn write_number<W: Write>(output: &mut W, n: usize, after: &[u8]) -> Result<(), Failure>
    ensures { OnOk result (Appends (W.contents output.old) (W.contents output.new) (decimal n ++ after.now)) }
{
    write!(output, "{n}").map_err(Failure::Unwritten)?;
    write(output, after)
}
