// The reader (RULES 1): `flatten` answers of any text, any words lent and any room. Refusals 1 and 18 stand here, 2 to 9 in
// reading, 10 to 17, 20 and 25 in passing and the crates below it; crate answer makes the answer of each.
#![tactic(auto)]

ghost use Rattle.std.specs.Prelude.{◌≡◌, ◌∷◌, [], ◌^◌, ◌≤◌, length};
ghost use Rattle.std.proofs.lemmas.List.Edits.{sets};
ghost use Rattle.definition.specs.declared.Rule.TheVariants.{FlatFileTooLong};
ghost use Rattle.definition.specs.Rules.{refuse};
ghost use Rattle.definition.specs.Answer.{failure, Promised};
ghost use Rattle.chain.specs.Chain.{run_length};
ghost use Rattle.passing.specs.Passed.{Passed};
ghost use Rattle.reader.specs.Screened.{Screened, Rounds, Comes, held_lines};

use counts::Counts;
use definition::{Answer, Refusal, Rule};

// How long the flat file's last line is: `E` and byte 10.
const LAST_LINE: usize = 2;

// The lines of the shapes, and at their end the last one. How the drawing ends is known by then: it ended so on the scrap.
fn write_file(text: &[u8], words: &mut [i32], drawing: &mut [usize], room: &mut [u8], end: usize)
    requires { Passed text.now × (length drawing.old ≡ run_length) × (end ≤ 2 ^ 60) }
    ensures { (p : Passed text.now) → room.new ≡ sets (sets room.old 0 (held_lines (length words.old) p)) end (69 ∷ 10 ∷ []) }
{
    let _ = passing::draw(text, words, drawing, room);
    pen::put_end(room, end);
}

// Refusal 18: the flat file is too long, whatever was counted in drawing it.
fn too_long(text: &[u8], counted: Counts) -> Answer
    ensures { result ≡ failure text.now (refuse FlatFileTooLong 0) [] }
{
    let over = Refusal {
        rule: Rule::FlatFileTooLong,
        place: 0,
    };
    answer::refused_outside_by(text, over, counted)
}

// A text that refusals 1 to 9 let pass, with so many rounded distances. It is drawn twice, since no byte of the room may change before all is known: onto `scrap`, which tells how the
// drawing ends and how long the flat file is, whatever its length, and then onto the room. Both times with the same words: what stands in them does not matter.
fn flatten_passed(
    text: &[u8],
    words: &mut [i32],
    scrap: &mut [u8],
    room: &mut [u8],
    rounded: usize,
) -> Answer
    requires { Rounds text.now rounded }
    ensures { Comes text.now (length words.old) room.old result room.new }
{
    let mut drawing = [0usize; chain::RUN];
    match passing::draw(text, words, &mut drawing, scrap) {
        Err(refusal) => answer::refused_by(text, refusal, &drawing, counts::no_counts()),
        Ok(ink) => {
            let counted = ink.counts;
            let end = ink.pen.at;
            let length = end + LAST_LINE;
            if room.len() < length {
                return too_long(text, counted);
            }
            if definition::MOST_BYTES < length {
                return too_long(text, counted);
            }
            write_file(text, words, &mut drawing, room, end);
            answer::accepted(length, counted, rounded)
        }
    }
}

// The first of refusals 1 to 9, or how many distances of the text are rounded.
pub fn first_fault(text: &[u8]) -> Result<usize, Refusal>
    ensures { Screened text.now result }
{
    if definition::MOST_BYTES < text.len() {
        return Err(Refusal {
            rule: Rule::TextTooLong,
            place: 0,
        });
    }
    reading::refusal(text)
}

// How a text comes out. The words are left as the drawing left them.
fn read_text(text: &[u8], words: &mut [i32], room: &mut [u8]) -> Answer
    ensures { Comes text.now (length words.old) room.old result room.new }
{
    match first_fault(text) {
        Err(refusal) => answer::refused_outside_by(text, refusal, counts::no_counts()),
        Ok(rounded) => {
            let mut nothing: [u8; 0] = [];
            flatten_passed(text, words, &mut nothing, room, rounded)
        }
    }
}

// Two outcomes that this contract allows are equal, the room's bytes and the words included: `one_answer` of definition's proofs/Right.antt. What it means in
// the user's words stands in proofs/Demands.antt.
pub fn flatten(text: &[u8], words: &mut [i32], room: &mut [u8]) -> Answer
    ensures { Promised text.now words.old room.old result words.new room.new }
{
    let answer = read_text(text, words, room);
    library::clear(words);
    answer
}
