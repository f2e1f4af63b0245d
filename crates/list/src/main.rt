// The list program (RULES 13): of the text on standard input, at most 32,768 bytes, a line for each shape, the total and the window; or the refusal. Where a read
// fails nothing is printed of the text.
#![tactic(auto)]

ghost use Rattle.std.specs.Prelude.{◌≡◌, length};
ghost use Rattle.printout.specs.Prints.{listing_length};

use std::io;
use std::io::{Read, Write};
use streams::Failure;

// One byte more than is taken, to see whether the text goes on. The contracts of these two spare callers the zeros.
fn text_room() -> [u8; printout::MOST + 1]
    ensures { 32769 ≡ length result }
{
    [0; printout::MOST + 1]
}

fn listing_room() -> [u8; printout::LONGEST_LISTING]
    ensures { listing_length ≡ length result }
{
    [0; printout::LONGEST_LISTING]
}

fn list<W: Write>(output: &mut W, text: &[u8]) -> Result<(), Failure> {
    let mut out = listing_room();
    let length = printout::print_text(text, &mut out);
    streams::write(output, &out[..length])
}

// Lists the text that is read.
fn list_read<R: Read, W: Write>(input: &mut R, output: &mut W) -> Result<(), Failure> {
    let mut text = text_room();
    let n = streams::read(input, &mut text)?;
    list(output, &text[..n])
}

fn main(rt: HostRuntime) -> anyhow::Result<()> {
    list_read(&mut rt.reader(), &mut io::writer(&rt))?;
    Ok(())
}
