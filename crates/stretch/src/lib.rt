// What a body draws between two calls, for an engine that keeps its open calls itself: from where it stands up to the next call that is opened, to its end, or to
// a refusal (RULES 8). Nothing here calls itself. Refusal 21 (RULES 8, request 7) stands here, after 11 to 14 and before 15.
#![tactic(auto)]

ghost use Rattle.std.specs.Prelude.{◌≡◌, ℕ, ◌-◌, ◌*◌, ◌^◌, ◌<◌, ◌≤◌, pos, nat_abs, length, get_or};
ghost use Rattle.definition.specs.Limits.{deepest};
ghost use Rattle.turns.specs.Nets.{Near};
ghost use Rattle.moves.specs.Moves.{ShapedAt};
ghost use Rattle.shapes.specs.Painting.{Reached, ShapeDraws};
ghost use Rattle.library.specs.Rows.{Sorted};
ghost use Rattle.chain.specs.Chain.{run_length, open_calls};
ghost use Rattle.stretch.specs.Opening.{OpensWith};
ghost use Rattle.stretch.specs.Bodies.{Rests, Poised, BodyComes, Grows};

use definition::{Refusal, Rule};
use opening::{Call, Entered};
use shapes::Ink;

// Where an open body goes on: its words from `at` to `end`, the layer that is set in it, and what the open calls do together.
#[derive(Clone, Copy)]
pub struct Here {
    pub at: usize,
    pub end: usize,
    pub layer: u32,
    pub net: turns::Net,
}

// What a stretch of a body comes to, if it is not refused: its end; or a call that is opened, with where the body goes on after it and the row of its symbol.
#[derive(Clone, Copy)]
pub enum Body {
    Ends(Ink),
    Calls(Here, Call, usize, Ink),
}

// A command has at most 2,049 numbers (RULES 12, refusal 9: 1,024 points, and a width), and two words in front.
const COMMAND_WORDS: usize = 2051;
// Most shapes have few numbers: a box has six.
const FEW_WORDS: usize = 32;

// One shape (refusals 16, 20 and 17), with numbers of its own to work in.
pub fn draw_shape(
    words: &[i32],
    room: &mut [u8],
    letter: u8,
    end: usize,
    net: turns::Net,
    layer: u32,
    place: usize,
    ink: Ink,
) -> Result<Ink, Refusal>
    requires { ShapedAt words.now letter end × Near (2 ^ 61) net × Reached ink }
    ensures { ShapeDraws words.now letter end net layer place ink room.old result room.new }
{
    if end <= FEW_WORDS {
        let mut few = [0i64; FEW_WORDS];
        return shapes::draw_shape(words, &mut few, room, letter, end, net, layer, place, ink);
    }
    let mut numbers = [0i64; COMMAND_WORDS];
    shapes::draw_shape(
        words,
        &mut numbers,
        room,
        letter,
        end,
        net,
        layer,
        place,
        ink,
    )
}

// Refusals 11 to 14, 21 and 15 of one call where so many records are lent: a call with so many levels left needs one more than are open. Where there is none,
// 21 comes before 15, so that the other refusals are asked of a call that is the first to be counted.
pub fn open_call(
    rows: &[usize; library::ROW_NUMBERS],
    live: usize,
    drawing: &[usize],
    left: usize,
    records: usize,
    call: Call,
    counts: counts::Counts,
) -> Result<Entered, Refusal>
    requires { Sorted rows.now live × (left ≤ deepest) × (length drawing.now ≡ run_length) }
    ensures { OpensWith records rows.now live (open_calls drawing.now (deepest - left)) left call counts result }
{
    if definition::DEEPEST - left < records {
        return opening::open_call(rows, live, drawing, left, call, counts);
    }
    let place = call.place;
    let nothing = counts::no_counts();
    opening::open_call(rows, live, drawing, left, call, nothing)?;
    Err(Refusal {
        rule: Rule::TooFewRecords,
        place,
    })
}

// A layer's packed name.
fn name_at(bodies: &[i32], i: usize) -> u32
    requires { (i < length bodies.now) × ((v : ℕ) × (get_or bodies.now i (pos 0) ≡ pos v)) }
    ensures { result ≡ nat_abs (get_or bodies.now i (pos 0)) }
{
    bodies[i] as u32
}

// A body from where it stands.
pub fn draw_body(
    bodies: &[i32],
    rows: &[usize; library::ROW_NUMBERS],
    live: usize,
    drawing: &[usize],
    room: &mut [u8],
    left: usize,
    records: usize,
    here: Here,
    before: Ink,
) -> Result<Body, Refusal>
    requires { Poised rows.now bodies.now live drawing.now left before × Near ((deepest - left) * 2 ^ 36) here.net × Rests bodies.now here }
    ensures body_comes { BodyComes records rows.now bodies.now live (open_calls drawing.now (deepest - left)) left here before room.old result room.new }
    ensures grows { Grows before result }
{
    let net = here.net;
    let end = here.end;
    let mut at = here.at;
    let mut layer = here.layer;
    let mut ink = before;
    // No `for`: each command says where the next one begins.
    while at < end {
        let head = engine::head_at(bodies, at);
        let from = at;
        let next = head.next;
        let kind = head.kind;
        let place = head.place;
        at = next;
        if kind == b'L' {
            layer = name_at(bodies, from + 2);
        } else if kind == b'C' {
            let call = opening::read_call(&bodies[from..next], next - from, net, place);
            let entered = open_call(rows, live, drawing, left, records, call, ink.counts)?;
            let on = Here { at, layer, ..here };
            let counted = Ink {
                counts: entered.counts,
                ..ink
            };
            return Ok(Body::Calls(on, call, entered.row, counted));
        } else {
            ink = draw_shape(
                &bodies[from..next],
                room,
                kind,
                next - from,
                net,
                layer,
                place,
                ink,
            )?;
        }
    }
    Ok(Body::Ends(ink))
}
