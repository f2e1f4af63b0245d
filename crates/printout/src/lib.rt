// What the list program (RULES 13) prints of a text: the reader flattens it, and its flat file is listed, with its warnings. The programs only read and write.
#![tactic(auto)]

ghost use Rattle.std.specs.Prelude.{◌≡◌, [], ◌≤◌, length};
ghost use Rattle.definition.specs.declared.Rule.TheVariants.{TextTooLong};
ghost use Rattle.definition.specs.Rules.{refuse};
ghost use Rattle.definition.specs.Answer.{rejected};
ghost use Rattle.definition.specs.Listing.{listing};
ghost use Rattle.printout.specs.Prints.{Lays, Prints, words_lent, room_length, listing_length};

use definition::{Refusal, Rule};

// The longest text that is taken, the room for its flat file, and the words lent.
pub const MOST: usize = 32_768;
// No listing is longer: four bytes for each of a flat file's, fifteen for each of the text's, which are its warnings, and 1,024 (`Listed` of crates/listing).
pub const LONGEST_LISTING: usize = 623_616;

// The contracts of these two spare the caller the zeros.
fn flat_room() -> [u8; MOST]
    ensures { room_length ≡ length result }
{
    [0; MOST]
}

// As many words as the longest text has bytes, which is always enough.
fn body_words() -> [i32; MOST]
    ensures { words_lent ≡ length result }
{
    [0; MOST]
}

// A text that is longer than the list program takes.
fn print_refusal(text: &[u8], out: &mut [u8]) -> usize
    requires { length out.old ≡ listing_length }
    ensures { Lays out.old out.new result (listing text.now (rejected (refuse TextTooLong 0) [])) }
{
    let over = Refusal {
        rule: Rule::TextTooLong,
        place: 0,
    };
    let nothing: [u8; 0] = [];
    let mut none: [i32; 0] = [];
    let answer = answer::refused_outside_by(text, over, counts::no_counts());
    listing::list(text, &mut none, &nothing, answer, out)
}

fn print_flat(text: &[u8], words: &mut [i32], room: &mut [u8], out: &mut [u8]) -> usize
    requires { (length text.now ≤ 32768) × (length words.old ≡ words_lent) × (length room.old ≡ room_length) × (length out.old ≡ listing_length) }
    ensures { Prints text.now out.old out.new result }
{
    let answer = reader::flatten(text, words, room);
    let length = answer.length;
    listing::list(text, words, &room[..length], answer, out)
}

// What is printed of a text comes to stand at the start of `out`, the rest of which is unchanged; its length is given back. Two outcomes that this
// contract allows are equal: `one_printout` of proofs/Printing.antt.
pub fn print_text(text: &[u8], out: &mut [u8]) -> usize
    requires { length out.old ≡ listing_length }
    ensures { Prints text.now out.old out.new result }
{
    if text.len() > MOST {
        return print_refusal(text, out);
    }
    let mut words = body_words();
    let mut room = flat_room();
    print_flat(text, &mut words, &mut room, out)
}
