// What a text draws between two executable calls, for an engine that keeps its open calls itself: from where it stands up to the next call that is opened, to its
// end, or to a refusal (RULES 8). Definitions are decoded on the way, by crate keeping, into the words lent.
#![tactic(auto)]

ghost use Rattle.std.specs.Prelude.{◌≡◌, List, ℕ, ◌+◌, ◌≤◌, length};
ghost use Rattle.definition.specs.Table.{Step};
ghost use Rattle.names.specs.Names.{name_of};
ghost use Rattle.moves.specs.Moves.{most_values};
ghost use Rattle.shapes.specs.Painting.{Reached};
ghost use Rattle.library.specs.Rows.{Sorted};
ghost use Rattle.chain.specs.Chain.{run_length};
ghost use Rattle.engine.specs.Outer.{Says};
ghost use Rattle.passing.specs.Passed.{outputs};
ghost use Rattle.between.specs.Texts.{OuterComes, OuterGrows, Pausing, TextComes, TextGrows};

use commands::Decoded;
use definition::Refusal;
use keeping::Stock;
use opening::Call;
use shapes::Ink;

// Where a text goes on, outside of definitions: its next command, the layer that is set there, and what the memory holds.
#[derive(Clone, Copy)]
pub struct Stand {
    pub spot: pieces::Spot,
    pub layer: u32,
    pub stock: Stock,
}

// What a stretch of a text comes to, if it is not refused: its end; or a call that is opened, with where the text goes on after it and the row of its symbol.
#[derive(Clone, Copy)]
pub enum Text {
    Over(Ink),
    Calls(Stand, Call, usize, Ink),
}

// A command has at most 2,049 numbers (RULES 12, refusal 9: 1,024 points, and a width), and two words in front.
const COMMAND_WORDS: usize = 2051;

// What a command outside of definitions that draws comes to, if it is not refused: a shape is drawn, or a call is opened.
#[derive(Clone, Copy)]
enum Outer {
    Shown(Ink),
    Opens(Call, usize, Ink),
}

fn draw_outer(
    rows: &[usize; library::ROW_NUMBERS],
    live: usize,
    drawing: &[usize],
    words: &[i32],
    room: &mut [u8],
    records: usize,
    kind: u8,
    place: usize,
    end: usize,
    layer: u32,
    ink: Ink,
) -> Result<Outer, Refusal>
    requires sorted { Sorted rows.now live × (length drawing.now ≡ run_length) × Reached ink }
    requires says { (s : Step) × Says words.now kind end (name_of layer) s }
    ensures outer_comes { OuterComes records rows.now live words.now kind place end layer ink room.old result room.new }
    ensures outer_grows { OuterGrows ink result }
{
    let still = turns::still();
    if kind == b'C' {
        let call = opening::read_call(words, end, still, place);
        let entered = stretch::open_call(
            rows,
            live,
            drawing,
            definition::DEEPEST,
            records,
            call,
            ink.counts,
        )?;
        let counted = Ink {
            counts: entered.counts,
            ..ink
        };
        return Ok(Outer::Opens(call, entered.row, counted));
    }
    let shown = stretch::draw_shape(words, room, kind, end, still, layer, place, ink)?;
    Ok(Outer::Shown(shown))
}

// Whether a command draws that stands outside of definitions: a call or a shape.
fn draws(kind: u8) -> bool
    ensures { result ≡ outputs kind }
{
    kind == b'C' || rules::is_shape(kind)
}

// A text from where it stands: layers, definitions and deletions change what stands, all else is drawn.
fn draw_commands(
    text: &[u8],
    recogniser: &grammar::Recogniser,
    rows: &mut [usize; library::ROW_NUMBERS],
    bodies: &mut [i32],
    words: &mut [i32],
    drawing: &[usize],
    room: &mut [u8],
    records: usize,
    stand: Stand,
    before: Ink,
) -> Result<Text, Refusal>
    requires most_values_in_bounds { (most_values + 2 ≤ length words.old) × (length drawing.now ≡ run_length) }
    requires pausing { Pausing text.now records rows.old bodies.old stand before room.old }
    ensures text_comes { TextComes text.now records rows.old bodies.old stand before room.old result rows.new bodies.new room.new }
    ensures text_grows { TextGrows before result }
{
    let mut spot = stand.spot;
    let mut layer = stand.layer;
    let mut stock = stand.stock;
    let mut ink = before;
    while let Some(command) = commands::read_command(text, recogniser, words, spot, 1, 1) {
        let Decoded {
            kind,
            place,
            end,
            to,
        } = command;
        spot = to;
        if kind == b'L' {
            layer = words[2] as u32;
        } else if kind == b'D' {
            let symbol = shapes::size_at(words, 2);
            stock = passing::delete(rows, stock, symbol);
        } else if kind == b'S' {
            let start = passing::start_in(words, place);
            let taken = keeping::define(
                text, recogniser, rows, bodies, stock, start, to, ink.counts,
            ).map_err(|rule| Refusal { rule, place })?;
            spot = taken.to;
            stock = taken.stock;
            ink = Ink {
                counts: taken.counts,
                ..ink
            };
        } else if draws(kind) {
            match draw_outer(
                rows, stock.live, drawing, words, room, records, kind, place, end, layer, ink,
            )? {
                Outer::Shown(shown) => {
                    ink = shown;
                }
                Outer::Opens(call, row, counted) => {
                    let on = Stand { spot, layer, stock };
                    return Ok(Text::Calls(on, call, row, counted));
                }
            }
        }
    }
    Ok(Text::Over(ink))
}

// The same, with the tables and the words of one command.
pub fn draw_text(
    text: &[u8],
    rows: &mut [usize; library::ROW_NUMBERS],
    bodies: &mut [i32],
    drawing: &[usize],
    room: &mut [u8],
    records: usize,
    stand: Stand,
    ink: Ink,
) -> Result<Text, Refusal>
    requires { (length drawing.now ≡ run_length) × Pausing text.now records rows.old bodies.old stand ink room.old }
    ensures text_comes { TextComes text.now records rows.old bodies.old stand ink room.old result rows.new bodies.new room.new }
    ensures text_grows { TextGrows ink result }
{
    let recogniser = grammar::Recogniser::new();
    let mut words = [0i32; COMMAND_WORDS];
    draw_commands(
        text,
        &recogniser,
        rows,
        bodies,
        &mut words,
        drawing,
        room,
        records,
        stand,
        ink,
    )
}
