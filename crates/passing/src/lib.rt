// The pass over a text: definitions are decoded once, into the words lent, by crate keeping, and all else outside them is drawn (RULES 8), by crate
// engine, from these words.
#![tactic(auto)]

ghost use Rattle.std.specs.Prelude.{◌+◌, ◌≤◌, ◌^◌, ◌<◌, ◌≡◌, length};
ghost use Rattle.moves.specs.Moves.{most_values};
ghost use Rattle.library.specs.Memory.{row_numbers, needed_in};
ghost use Rattle.library.specs.Rows.{Sorted};
ghost use Rattle.keeping.specs.Keeping.{most_words};
ghost use Rattle.chain.specs.Chain.{run_length};
ghost use Rattle.passing.specs.Passed.{Passed, TextDraws, outputs, start_in, Deletes, RefusedOutside, lent_of};

use commands::Decoded;
use definition::{Refusal, Rule};
use keeping::{Start, Stock};
use shapes::Ink;

// A command has at most 2,049 numbers (RULES 12, refusal 9: 1,024 points, and a width), and two words in front.
const COMMAND_WORDS: usize = 2051;
// The most words that bodies can need: a text has no more bytes, and no command has more words than bytes.
const MOST_WORDS: usize = 16777216;

// Whether a command draws that stands outside of definitions: a call or a shape.
fn draws(kind: u8) -> bool
    ensures { result ≡ outputs kind }
{
    kind == b'C' || rules::is_shape(kind)
}

// What a DS says.
pub fn start_in(words: &[i32], place: usize) -> Start
    requires { most_values + 2 ≤ length words.now }
    ensures { result ≡ start_in words.now place }
{
    let symbol = shapes::size_at(words, 2);
    let a = shapes::size_at(words, 3);
    let b = shapes::size_at(words, 4);
    Start {
        symbol,
        place,
        a,
        b,
    }
}

// DD: every entry of this number or more is removed, and its words are needed no more. Their room is used again when the run is full.
pub fn delete(rows: &[usize; library::ROW_NUMBERS], stock: Stock, symbol: usize) -> Stock
    requires { Sorted rows.now stock.live × (stock.needed ≡ needed_in rows.now stock.live) × (stock.needed < 2 ^ 64) }
    ensures { Deletes rows.now stock symbol result }
{
    let left = library::forget(rows, stock.live, symbol);
    let freed = library::needed_between(rows, left, stock.live);
    Stock {
        live: left,
        used: stock.used,
        needed: stock.needed - freed,
    }
}

// A definition is refused, where no call is open (refusals 10 and 25).
fn refuse_definition(drawing: &mut [usize], rule: Rule, place: usize) -> Result<Ink, Refusal>
    requires { length drawing.old ≡ run_length }
    ensures { RefusedOutside rule place result drawing.new }
{
    chain::stop(drawing, 0);
    Err(Refusal { rule, place })
}

// The commands of a text from its start on: layers, definitions and deletions change what stands, all else is drawn.
fn draw_text(
    text: &[u8],
    recogniser: &grammar::Recogniser,
    rows: &mut [usize; library::ROW_NUMBERS],
    bodies: &mut [i32],
    words: &mut [i32],
    numbers: &mut [i64],
    drawing: &mut [usize],
    room: &mut [u8],
) -> Result<Ink, Refusal>
    requires passed { Passed text.now × (length rows.old ≡ row_numbers) × (length bodies.old ≤ most_words) }
    requires most_values_in_bounds { (most_values + 2 ≤ length words.old) × (most_values + 2 ≤ length numbers.old) × (length drawing.old ≡ run_length) }
    ensures { TextDraws text.now (length bodies.old) room.old drawing.new result room.new }
{
    let mut spot = pieces::Spot { at: 0, state: 0 };
    let mut layer: u32 = 0;
    let mut stock = Stock {
        live: 0,
        used: 0,
        needed: 0,
    };
    let counts = counts::no_counts();
    let pen = shapes::Pen { at: 0, layer: 0 };
    let mut ink = Ink { counts, pen };
    while let Some(
        Decoded {
            kind,
            place,
            end,
            to,
        },
    ) = commands::read_command(text, recogniser, words, spot, 1, 1)
    {
        spot = to;
        if kind == b'L' {
            layer = words[2] as u32;
        } else if kind == b'D' {
            let symbol = shapes::size_at(words, 2);
            stock = delete(rows, stock, symbol);
        } else if kind == b'S' {
            let start = start_in(words, place);
            match keeping::define(text, recogniser, rows, bodies, stock, start, to, ink.counts) {
                Ok(taken) => {
                    spot = taken.to;
                    stock = taken.stock;
                    ink.counts = taken.counts;
                }
                Err(rule) => {
                    return refuse_definition(drawing, rule, place);
                }
            }
        } else if draws(kind) {
            ink = engine::draw_outer(
                bodies, rows, stock.live, words, numbers, drawing, room, kind, place, end, layer,
                ink,
            )?;
        }
    }
    Ok(ink)
}

// Of the words lent, as many as bodies can need.
pub fn at_most(n: usize) -> usize
    ensures { result ≡ lent_of n }
{
    if n < MOST_WORDS {
        return n;
    }
    MOST_WORDS
}

// All that a text draws, counted, and its lines in the room up to the first refusal. Lines past the room's end are counted and dropped. The run of the open
// calls is lent, since it tells the calls that are open at a refusal (RULES 12, request 4).
pub fn draw(
    text: &[u8],
    bodies: &mut [i32],
    drawing: &mut [usize],
    room: &mut [u8],
) -> Result<Ink, Refusal>
    requires { Passed text.now × (length drawing.old ≡ run_length) }
    ensures { TextDraws text.now (length bodies.old) room.old drawing.new result room.new }
{
    let recogniser = grammar::Recogniser::new();
    let mut rows = [0usize; library::ROW_NUMBERS];
    let mut words = [0i32; COMMAND_WORDS];
    let mut numbers = [0i64; COMMAND_WORDS];
    let lent = at_most(bodies.len());
    draw_text(
        text,
        &recogniser,
        &mut rows,
        &mut bodies[0..lent],
        &mut words,
        &mut numbers,
        drawing,
        room,
    )
}
