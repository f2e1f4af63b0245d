// Why is this shape here? (RULES 20, request 11). Two runs, and no walk of its own: the reader refuses the text or lets it pass; then the machine of open calls draws it with so many shapes
// counted before that refusal 17 comes at the shape with the count, and keeps the net transformation that stands there.
#![tactic(auto)]

ghost use Rattle.std.specs.Prelude.{◌≡◌, length};
ghost use Rattle.definition.specs.Why.{PromisedWhy};
ghost use Rattle.why.specs.Telling.{why_of, found_by, missing_in, told_of, Drawable, Zeroed};

use definition::{Answer, Refusal, Rule, Why};
use machine::State;

// A refusal, told with its calls.
fn refused(answer: Answer) -> Why
    ensures { result ≡ why_of answer }
{
    // An array is read by a `let`: the checker does not take one straight into a literal yet.
    let chain = answer.chain;
    Why {
        number: answer.number,
        place: answer.place,
        line: answer.line,
        column: answer.column,
        opened: answer.opened,
        chain,
        shape: 0,
        a: 0,
        b: 0,
        c: 0,
        d: 0,
        tx: 0,
        ty: 0,
    }
}

// The shape at which 17 came: where the directions along x and along y go, and the step.
fn found(answer: Answer, net: turns::Net) -> Why
    ensures { result ≡ found_by answer net }
{
    let east = turns::aim_direction(net, 1, 0);
    let north = turns::aim_direction(net, 0, 1);
    let chain = answer.chain;
    Why {
        number: 0,
        place: 0,
        line: 0,
        column: 0,
        opened: answer.opened,
        chain,
        shape: answer.place,
        a: east.x,
        b: north.x,
        c: east.y,
        d: north.y,
        tx: net.tx,
        ty: net.ty,
    }
}

fn missing(text: &[u8]) -> Why
    ensures { result ≡ missing_in text.now }
{
    let refusal = Refusal {
        rule: Rule::NoSuchShape,
        place: 0,
    };
    let answer = answer::refused_outside_by(text, refusal, counts::no_counts());
    refused(answer)
}

fn told(text: &[u8], over: State) -> Why
    ensures { result ≡ told_of text.now over.answer over.here.net }
{
    let answer = over.answer;
    if answer.number == definition::number_of(Rule::TooManyShapes) {
        found(answer, over.here.net)
    } else {
        missing(text)
    }
}

// Of a text that is drawn through: the shape with this count, by the machine, before whose drawing so many shapes count as drawn that there is room for those before it and no more.
// Out of line, so that its rows and records stand on the machine's stack after the reading, and not beneath it.
#[inline(never)]
fn among(text: &[u8], words: &mut [i32], room: &mut [u8], count: usize) -> Why
    requires { Drawable text.now (length words.old) × Zeroed words.old }
    ensures { PromisedWhy text.now words.old count result words.new }
{
    if count == 0 || definition::MOST_SHAPES < count {
        return missing(text);
    }
    let mut rows = [0usize; library::ROW_NUMBERS];
    let before = count - 1;
    let earlier = definition::MOST_SHAPES - before;
    let s = machine::begin_at(text, &mut rows, words, room, local::MOST_RECORDS, earlier);
    let over = local::run(text, &mut rows, words, room, s, local::MOST_RECORDS);
    told(text, over)
}

// The shape with this count, from 1. The room is a byte, so that nothing is written: 18 comes for every text that is drawn through.
pub fn why(text: &[u8], words: &mut [i32], count: usize) -> Why
    ensures { PromisedWhy text.now words.old count result words.new }
{
    let mut room = [0u8; 1];
    let answer = reader::flatten(text, words, &mut room);
    let too_long = definition::number_of(Rule::FlatFileTooLong);
    if answer.number == 0 || answer.number == too_long {
        among(text, words, &mut room, count)
    } else {
        refused(answer)
    }
}
