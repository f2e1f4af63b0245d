// A drawing engine without deep calls (RULES 8, request 7). It never sees the stack of open calls: it answers a state that says which record goes to which slot, and is
// handed what stood there. So one machine serves records that a host lends (crate frames) and a local array of records.
#![tactic(auto)]

ghost use Rattle.std.specs.Prelude.{◌≡◌, List, [], ◌∷◌, true, false, ℕ, ◌+◌, ◌-◌, ◌*◌, ◌%◌, ◌^◌, ◌<◌, ◌≤◌, eqb, pos, length, replicate};
ghost use Rattle.std.proofs.lemmas.List.Edits.{sets};
ghost use Rattle.definition.specs.Limits.{deepest, most_shapes};
ghost use Rattle.definition.specs.declared.Rule.TheVariants.{FlatFileTooLong};
ghost use Rattle.definition.specs.Rules.{refuse};
ghost use Rattle.definition.specs.Answer.{failure, success};
ghost use Rattle.turns.specs.Nets.{Near};
ghost use Rattle.counts.specs.Counting.{tally};
ghost use Rattle.library.specs.Memory.{row_numbers, most, start_at, length_at};
ghost use Rattle.chain.specs.Chain.{run_length};
ghost use Rattle.stretch.specs.Bodies.{Rests, Poised, BodyComes, Grows};
ghost use Rattle.between.specs.Texts.{Pausing, TextComes, TextGrows};
ghost use Rattle.machine.specs.States.{at_level, bit_of, turn_of, frame_of, here_of, fresh_course, zero_at, zero_to, over_at, over_state, popping, Unwinds, Pushes, open_in, cut, seen_of, onto, StandsIn, Stretches, Passes, no_here, Writes};
ghost use Rattle.machine.specs.Underway.{Host, InBody, BodyOn, AtText, TextOn, Measured, MeasuredOn, Back, BackOn, Beginning, Blank, Cleared, StartOn, ClearOn, BeginsAt, Begins, Turnable, Turns};
ghost use Rattle.machine.specs.declared.Frame.{Frame};

use between::{Stand, Text};
use definition::{Answer, Refusal, Rule};
use opening::Call;
use shapes::Ink;
use stretch::{Body, Here};

// An open call, one record per level: its place and symbol, and where its caller's body goes on: its words from `at` to `end`, the layer that is set in it,
// and what the calls around it do together, one of eight turns and a step. The caller of the outermost is the text, which goes on by the state.
#[repr(C)]
#[derive(Clone, Copy)]
pub struct Frame {
    pub place: usize,
    pub symbol: usize,
    pub at: usize,
    pub end: usize,
    pub layer: usize,
    pub turn: usize,
    pub tx: i64,
    pub ty: i64,
}

// A record that keeps no call.
pub const NO_FRAME: Frame = Frame {
    place: 0,
    symbol: 0,
    at: 0,
    end: 0,
    layer: 0,
    turn: 0,
    tx: 0,
    ty: 0,
};

// Why a record goes to a slot.
#[derive(Clone, Copy)]
pub enum Kind {
    Clear,
    Push,
    Pop,
    Unwind,
}

// How far a drawing is, whatever record goes where: how many records there are, whether it writes or measures yet, how many distances of the text were rounded,
// how many shapes count as drawn before it, how many calls are open and which, where the text goes on, and what was counted and written.
#[derive(Clone, Copy)]
pub struct Course {
    pub records: usize,
    pub writing: bool,
    pub rounded: usize,
    pub earlier: usize,
    pub level: usize,
    pub stand: Stand,
    pub ink: Ink,
    pub run: [usize; chain::RUN],
}

// Where it goes on: while `going`, put the record `put` at the slot, and call `turn` with what stood there. Else `answer` is the answer. After a refusal `here` is where it was: so the net
// transformation of a shape that 17 refuses is known.
#[derive(Clone, Copy)]
pub struct State {
    pub going: bool,
    pub slot: usize,
    pub put: Frame,
    pub answer: Answer,
    pub kind: Kind,
    pub here: Here,
    pub course: Course,
}

// How long the flat file's last line is: `E` and byte 10.
const LAST_LINE: usize = 2;

// ---- records

fn bit(b: bool, worth: usize) -> usize
    ensures { result ≡ bit_of b worth }
{
    if b { worth } else { 0 }
}

fn odd(n: usize) -> bool
    ensures { result ≡ eqb (n % 2) 1 }
{
    n % 2 == 1
}

// One of eight turns and mirrors.
fn turn_of(net: turns::Net) -> usize
    ensures { result ≡ turn_of net }
{
    bit(net.swap, 1) + bit(net.negx, 2) + bit(net.negy, 4)
}

fn frame_of(call: Call, on: Here) -> Frame
    ensures { (result ≡ frame_of call on) × (on.layer < 2 ^ 32) }
{
    let net = on.net;
    let turn = turn_of(net);
    Frame {
        place: call.place,
        symbol: call.symbol,
        at: on.at,
        end: on.end,
        layer: on.layer as usize,
        turn,
        tx: net.tx,
        ty: net.ty,
    }
}

fn here_of(f: Frame) -> Here
    requires { f.layer < 2 ^ 32 }
    ensures { result ≡ here_of f }
{
    let turn = f.turn;
    let net = turns::Net {
        swap: odd(turn),
        negx: odd(turn / 2),
        negy: odd(turn / 4),
        tx: f.tx,
        ty: f.ty,
    };
    Here {
        at: f.at,
        end: f.end,
        layer: f.layer as u32,
        net,
    }
}

// ---- states

// A drawing that begins.
fn fresh(records: usize, writing: bool, rounded: usize, earlier: usize) -> Course
    ensures { result ≡ fresh_course records writing rounded earlier }
{
    let spot = pieces::Spot { at: 0, state: 0 };
    let stock = keeping::Stock {
        live: 0,
        used: 0,
        needed: 0,
    };
    let stand = Stand {
        spot,
        layer: 0,
        stock,
    };
    let counts = counts::Counts {
        calls: 0,
        shapes: earlier,
        redefinitions: 0,
    };
    let pen = shapes::Pen { at: 0, layer: 0 };
    let ink = Ink { counts, pen };
    Course {
        records,
        writing,
        rounded,
        earlier,
        level: 0,
        stand,
        ink,
        run: [0; chain::RUN],
    }
}

// A state in which a zero record goes to a slot.
fn zero_at(
    going: bool,
    slot: usize,
    answer: Answer,
    kind: Kind,
    here: Here,
    course: Course,
) -> State
    ensures { result ≡ zero_at going slot answer kind here course }
{
    State {
        going,
        slot,
        put: NO_FRAME,
        answer,
        kind,
        here,
        course,
    }
}

// No body is open, or none goes on by the state: the text's record, and that of every state that is no refusal in a body.
const NOWHERE: Here = Here {
    at: 0,
    end: 0,
    layer: 0,
    net: turns::Net {
        swap: false,
        negx: false,
        negy: false,
        tx: 0,
        ty: 0,
    },
};

fn zero_to(going: bool, slot: usize, answer: Answer, kind: Kind, course: Course) -> State
    ensures { result ≡ zero_to going slot answer kind course }
{
    zero_at(going, slot, answer, kind, NOWHERE, course)
}

// Nothing more is put anywhere: the words are cleared, and the answer stands.
fn over(bodies: &mut [i32], answer: Answer, records: usize) -> State
    ensures { (result ≡ over_state answer records) × (bodies.new ≡ replicate (length bodies.old) (pos 0)) }
{
    library::clear(bodies);
    zero_to(false, 0, answer, Kind::Clear, fresh(records, false, 0, 0))
}

// The same where it was refused.
fn over_at(bodies: &mut [i32], answer: Answer, here: Here, records: usize) -> State
    ensures { (result ≡ over_at answer here records) × (bodies.new ≡ replicate (length bodies.old) (pos 0)) }
{
    library::clear(bodies);
    zero_at(
        false,
        0,
        answer,
        Kind::Clear,
        here,
        fresh(records, false, 0, 0),
    )
}

// The same drawing at another level, with other ink.
fn at_level(c: Course, level: usize, ink: Ink) -> Course
    ensures { result ≡ at_level c level ink }
{
    Course { level, ink, ..c }
}

// After a refusal the records go to zero one by one, the innermost first.
fn unwind(bodies: &mut [i32], answer: Answer, c: Course, here: Here) -> State
    ensures { Unwinds answer c here bodies.old result bodies.new }
{
    let level = c.level;
    if level == 0 {
        return over_at(bodies, answer, here, c.records);
    }
    zero_at(
        true,
        level - 1,
        answer,
        Kind::Unwind,
        here,
        at_level(c, level - 1, c.ink),
    )
}

// A refusal where these calls are open, in the body that stands there.
fn stopped(text: &[u8], bodies: &mut [i32], c: Course, refusal: Refusal, here: Here) -> State
    requires { (length c.run ≡ run_length) × (c.level ≤ deepest) }
    ensures { Unwinds (failure text.now refusal (open_in c)) c here bodies.old result bodies.new }
{
    let mut run = c.run;
    chain::stop(&mut run, c.level);
    let answer = answer::refused_by(text, refusal, &run, counts::no_counts());
    unwind(bodies, answer, c, here)
}

// The same in the text, outside of every body.
fn stopped_outside(text: &[u8], bodies: &mut [i32], c: Course, refusal: Refusal) -> State
    requires { (length c.run ≡ run_length) × (c.level ≤ deepest) }
    ensures { Unwinds (failure text.now refusal (open_in c)) c no_here bodies.old result bodies.new }
{
    stopped(text, bodies, c, refusal, NOWHERE)
}

// A body is at its end: its record is taken back.
fn popped(c: Course, ink: Ink) -> State
    requires { 1 ≤ c.level }
    ensures { result ≡ popping c ink }
{
    let level = c.level - 1;
    let none = answer::accepted(0, counts::no_counts(), 0);
    zero_to(true, level, none, Kind::Pop, at_level(c, level, ink))
}

// A call is opened: its caller's record goes to the slot of its level.
fn pushed(
    rows: &[usize; library::ROW_NUMBERS],
    c: Course,
    stand: Stand,
    on: Here,
    call: Call,
    row: usize,
    ink: Ink,
) -> State
    requires { (length c.run ≡ run_length) × (c.level < deepest) × (row < most) × (start_at rows.now row + length_at rows.now row < 2 ^ 64) }
    ensures { Pushes rows.now c stand on call row ink result }
{
    let put = frame_of(call, on);
    let from = library::start_at(rows, row);
    let size = library::length_at(rows, row);
    let net = call.net;
    let here = Here {
        at: from,
        end: from + size,
        layer: 0,
        net,
    };
    let mut run = c.run;
    chain::push(&mut run, c.level, call.place, call.symbol);
    let course = Course {
        level: c.level + 1,
        stand,
        ink,
        run,
        ..c
    };
    let none = answer::accepted(0, counts::no_counts(), 0);
    State {
        going: true,
        slot: c.level,
        put,
        answer: none,
        kind: Kind::Push,
        here,
        course,
    }
}

// ---- stretches

// How much of the room is drawn onto: nothing while measuring.
fn seen(writing: bool, length: usize) -> usize
    ensures { result ≡ seen_of writing length }
{
    if writing { length } else { 0 }
}

// The open body from where it stands.
fn body_stretch(
    rows: &[usize; library::ROW_NUMBERS],
    bodies: &[i32],
    room: &mut [u8],
    c: Course,
    here: Here,
) -> Result<Body, Refusal>
    requires { StandsIn rows.now (cut bodies.now) c here }
    ensures { Stretches rows.now (cut bodies.now) c here room.old result room.new }
{
    let lent = passing::at_most(bodies.len());
    let onto = seen(c.writing, room.len());
    let left = definition::DEEPEST - c.level;
    stretch::draw_body(
        &bodies[0..lent],
        rows,
        c.stand.stock.live,
        &c.run,
        &mut room[0..onto],
        left,
        c.records,
        here,
        c.ink,
    )
}

// The text from where it stands.
fn text_stretch(
    text: &[u8],
    rows: &mut [usize; library::ROW_NUMBERS],
    bodies: &mut [i32],
    room: &mut [u8],
    c: Course,
) -> Result<Text, Refusal>
    requires { (length c.run ≡ run_length) × Pausing text.now c.records rows.old (cut bodies.old) c.stand c.ink (onto c.writing room.old) }
    ensures { Passes text.now rows.old bodies.old c room.old result rows.new bodies.new room.new }
{
    let lent = passing::at_most(bodies.len());
    let onto = seen(c.writing, room.len());
    between::draw_text(
        text,
        rows,
        &mut bodies[0..lent],
        &c.run,
        &mut room[0..onto],
        c.records,
        c.stand,
        c.ink,
    )
}

// ---- from one record to the next

// The open body goes on: it is refused, it ends and its record is taken back, or a call is opened.
fn body_on(
    text: &[u8],
    rows: &[usize; library::ROW_NUMBERS],
    bodies: &mut [i32],
    room: &mut [u8],
    c: Course,
    here: Here,
) -> State
    requires { (h : Host) × ((fs : List Frame) × InBody text.now h fs c here rows.now bodies.old room.old) }
    ensures { BodyOn text.now c here rows.now bodies.old room.old result bodies.new room.new }
{
    match body_stretch(rows, bodies, room, c, here) {
        Err(refusal) => stopped(text, bodies, c, refusal, here),
        Ok(Body::Ends(ink)) => popped(c, ink),
        Ok(Body::Calls(on, call, row, ink)) => { pushed(rows, c, c.stand, on, call, row, ink) }
    }
}

// All lines stand in the room: the last one, and the answer.
fn written(bodies: &mut [i32], room: &mut [u8], c: Course, ink: Ink) -> State
    requires { ink.pen.at ≤ 2 ^ 60 }
    ensures { Writes c ink bodies.old room.old result bodies.new room.new }
{
    let end = ink.pen.at;
    pen::put_end(room, end);
    let answer = answer::accepted(end + LAST_LINE, ink.counts, c.rounded);
    over(bodies, answer, c.records)
}

// The text goes on, onto the room. It is no part of `measure`: that one ends with it, and no function here may call itself.
fn write(
    text: &[u8],
    rows: &mut [usize; library::ROW_NUMBERS],
    bodies: &mut [i32],
    room: &mut [u8],
    c: Course,
) -> State
    requires { (c.writing ≡ true) × ((h : Host) × ((fs : List Frame) × AtText text.now h fs c rows.old bodies.old room.old)) }
    ensures { TextOn text.now c rows.old bodies.old room.old result rows.new bodies.new room.new }
{
    match text_stretch(text, rows, bodies, room, c) {
        Err(refusal) => stopped_outside(text, bodies, c, refusal),
        Ok(Text::Over(ink)) => written(bodies, room, c, ink),
        Ok(Text::Calls(stand, call, row, ink)) => pushed(rows, c, stand, NOWHERE, call, row, ink),
    }
}

// The flat file's length is known: refusal 18, or it is drawn once more, onto the room, with rows of no definition.
fn measured(
    text: &[u8],
    rows: &mut [usize; library::ROW_NUMBERS],
    bodies: &mut [i32],
    room: &mut [u8],
    c: Course,
    ink: Ink,
) -> State
    requires { (h : Host) × ((fs : List Frame) × Measured text.now h fs c ink rows.old bodies.old room.old) }
    ensures { MeasuredOn text.now c ink rows.old bodies.old room.old result rows.new bodies.new room.new }
{
    let length = ink.pen.at + LAST_LINE;
    if room.len() < length || definition::MOST_BYTES < length {
        let over_long = Refusal {
            rule: Rule::FlatFileTooLong,
            place: 0,
        };
        let answer = answer::refused_outside_by(text, over_long, counts::no_counts());
        return over(bodies, answer, c.records);
    }
    *rows = [0; library::ROW_NUMBERS];
    let again = fresh(c.records, true, c.rounded, c.earlier);
    write(text, rows, bodies, room, again)
}

// The text goes on, onto nothing.
fn measure(
    text: &[u8],
    rows: &mut [usize; library::ROW_NUMBERS],
    bodies: &mut [i32],
    room: &mut [u8],
    c: Course,
) -> State
    requires { (c.writing ≡ false) × ((h : Host) × ((fs : List Frame) × AtText text.now h fs c rows.old bodies.old room.old)) }
    ensures { TextOn text.now c rows.old bodies.old room.old result rows.new bodies.new room.new }
{
    match text_stretch(text, rows, bodies, room, c) {
        Err(refusal) => stopped_outside(text, bodies, c, refusal),
        Ok(Text::Over(ink)) => measured(text, rows, bodies, room, c, ink),
        Ok(Text::Calls(stand, call, row, ink)) => pushed(rows, c, stand, NOWHERE, call, row, ink),
    }
}

fn text_on(
    text: &[u8],
    rows: &mut [usize; library::ROW_NUMBERS],
    bodies: &mut [i32],
    room: &mut [u8],
    c: Course,
) -> State
    requires { (h : Host) × ((fs : List Frame) × AtText text.now h fs c rows.old bodies.old room.old) }
    ensures { TextOn text.now c rows.old bodies.old room.old result rows.new bodies.new room.new }
{
    if c.writing {
        write(text, rows, bodies, room, c)
    } else {
        measure(text, rows, bodies, room, c)
    }
}

// A body was at its end, and what stood at the slot is at hand: the text goes on, or the body of the record.
fn back_on(
    text: &[u8],
    rows: &mut [usize; library::ROW_NUMBERS],
    bodies: &mut [i32],
    room: &mut [u8],
    c: Course,
    old: Frame,
) -> State
    requires { (h : Host) × ((fs : List Frame) × Back text.now h fs c old rows.old bodies.old room.old) }
    ensures { BackOn text.now c old rows.old bodies.old room.old result rows.new bodies.new room.new }
{
    if c.level == 0 {
        return text_on(text, rows, bodies, room, c);
    }
    body_on(text, rows, bodies, room, c, here_of(old))
}

// Refusals 1 to 9, or the drawing begins: it is measured first.
fn start(
    text: &[u8],
    rows: &mut [usize; library::ROW_NUMBERS],
    bodies: &mut [i32],
    room: &mut [u8],
    records: usize,
    earlier: usize,
) -> State
    requires { (h : Host) × ((fs : List Frame) × (Beginning h fs records earlier rows.old bodies.old room.old × Blank 0 fs)) }
    ensures { StartOn text.now records earlier rows.old bodies.old room.old result rows.new bodies.new room.new }
{
    match reader::first_fault(text) {
        Err(refusal) => {
            let answer = answer::refused_outside_by(text, refusal, counts::no_counts());
            over(bodies, answer, records)
        }
        Ok(rounded) => {
            let c = fresh(records, false, rounded, earlier);
            measure(text, rows, bodies, room, c)
        }
    }
}

// The records before `next` are zero: so is the next one made, or the text is looked at.
fn clear(
    text: &[u8],
    rows: &mut [usize; library::ROW_NUMBERS],
    bodies: &mut [i32],
    room: &mut [u8],
    records: usize,
    earlier: usize,
    next: usize,
) -> State
    requires { (h : Host) × ((fs : List Frame) × (Beginning h fs records earlier rows.old bodies.old room.old × Cleared next fs × (next ≤ records))) }
    ensures { ClearOn text.now records earlier next rows.old bodies.old room.old result rows.new bodies.new room.new }
{
    if next < records {
        let none = answer::accepted(0, counts::no_counts(), 0);
        return zero_to(
            true,
            next,
            none,
            Kind::Clear,
            fresh(records, false, 0, earlier),
        );
    }
    start(text, rows, bodies, room, records, earlier)
}

// A drawing before which so many shapes count as drawn: so 17 comes at the shape that has as many before it as are still allowed (request 11).
pub fn begin_at(
    text: &[u8],
    rows: &mut [usize; library::ROW_NUMBERS],
    bodies: &mut [i32],
    room: &mut [u8],
    records: usize,
    earlier: usize,
) -> State
    requires { (length rows.old ≡ row_numbers) × (earlier ≤ most_shapes) }
    ensures { BeginsAt text.now (length bodies.old) room.old records earlier result rows.new bodies.new room.new }
{
    clear(text, rows, bodies, room, records, earlier, 0)
}

pub fn begin(
    text: &[u8],
    rows: &mut [usize; library::ROW_NUMBERS],
    bodies: &mut [i32],
    room: &mut [u8],
    records: usize,
) -> State
    requires { length rows.old ≡ row_numbers }
    ensures { Begins text.now (length bodies.old) room.old records result rows.new bodies.new room.new }
{
    begin_at(text, rows, bodies, room, records, 0)
}

pub fn turn(
    text: &[u8],
    rows: &mut [usize; library::ROW_NUMBERS],
    bodies: &mut [i32],
    room: &mut [u8],
    s: State,
    old: Frame,
) -> State
    requires { Turnable text.now s old rows.old bodies.old room.old }
    ensures { Turns text.now s old rows.old bodies.old room.old result rows.new bodies.new room.new }
{
    let c = s.course;
    match s.kind {
        Kind::Clear => clear(text, rows, bodies, room, c.records, c.earlier, s.slot + 1),
        Kind::Push => body_on(text, rows, bodies, room, c, s.here),
        Kind::Pop => back_on(text, rows, bodies, room, c, old),
        Kind::Unwind => unwind(bodies, s.answer, c, s.here),
    }
}
