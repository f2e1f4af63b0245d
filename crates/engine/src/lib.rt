// A body draws its calls and a call draws its body (RULES 8), from the words that hold the bodies: no text is read here, and which calls are
// refused is asked of crate opening. Where a refusal arises the run of open calls is told how many are open (RULES 12, request 4), and what comes up from below is
// handed on. The same code measures, on an empty part, and writes: what is stored past the room's end is dropped.
#![tactic(auto)]

ghost use Rattle.std.specs.Prelude.{◌≡◌, ℕ, ◌+◌, ◌-◌, ◌*◌, ◌^◌, ◌<◌, ◌≤◌, pos, nat_abs, length, get_or};
ghost use Rattle.definition.specs.Limits.{deepest};
ghost use Rattle.definition.specs.Table.{Step};
ghost use Rattle.turns.specs.Nets.{Near};
ghost use Rattle.names.specs.Names.{name_of};
ghost use Rattle.library.specs.Memory.{most_words};
ghost use Rattle.chain.specs.Chain.{chain_in, Kept};
ghost use Rattle.engine.specs.Heads.{head_in};
ghost use Rattle.engine.specs.Draws.{Ready, BodyAt, Draws, CallDraws};
ghost use Rattle.engine.specs.Outer.{Says, OuterDraws};

use definition::Refusal;
use shapes::Ink;

// A command in the run: its kind, its place, and where the next begins.
#[derive(Clone, Copy)]
pub struct Head {
    pub kind: u8,
    pub place: usize,
    pub next: usize,
}

pub fn head_at(bodies: &[i32], at: usize) -> Head
    requires { (at + 1 < length bodies.now) × (length bodies.now ≤ most_words) }
    ensures { result ≡ head_in bodies.now at }
{
    let head = shapes::size_at(bodies, at);
    let place = shapes::size_at(bodies, at + 1);
    Head {
        kind: (head % 256) as u8,
        place,
        next: at + 2 + head / 256,
    }
}

// A layer's packed name.
fn name_at(bodies: &[i32], i: usize) -> u32
    requires { (i < length bodies.now) × ((v : ℕ) × (get_or bodies.now i (pos 0) ≡ pos v)) }
    ensures { result ≡ nat_abs (get_or bodies.now i (pos 0)) }
{
    bodies[i] as u32
}

// One call: refused, or its body is drawn one level down, with the call open.
#[cycle(draw_body_draw_call)]
fn draw_call(
    bodies: &[i32],
    rows: &[usize; library::ROW_NUMBERS],
    live: usize,
    numbers: &mut [i64],
    drawing: &mut [usize],
    room: &mut [u8],
    call: opening::Call,
    left: usize,
    ink: Ink,
) -> Result<Ink, Refusal>
    requires { Ready rows.now bodies.now live numbers.old drawing.old left ink × Near ((33 - left) * 2 ^ 36) call.net }
    ensures call_draws { CallDraws rows.now bodies.now live drawing.old call left ink room.old (chain_in drawing.new) result room.new }
    ensures kept { Kept (deepest - left) drawing.old drawing.new }
{
    let entered = match opening::open_call(rows, live, drawing, left, call, ink.counts) {
        Ok(entered) => entered,
        Err(refusal) => {
            chain::stop(drawing, definition::DEEPEST - left);
            return Err(refusal);
        }
    };
    chain::push(drawing, definition::DEEPEST - left, call.place, call.symbol);
    let from = library::start_at(rows, entered.row);
    let end = from + library::length_at(rows, entered.row);
    let more = Ink {
        counts: entered.counts,
        ..ink
    };
    draw_body(
        bodies,
        rows,
        live,
        numbers,
        drawing,
        room,
        call.net,
        left - 1,
        from,
        end,
        more,
    )
}

// A body: its commands in written order. The layer that is set in it is its own.
#[cycle(draw_body_draw_call)]
fn draw_body(
    bodies: &[i32],
    rows: &[usize; library::ROW_NUMBERS],
    live: usize,
    numbers: &mut [i64],
    drawing: &mut [usize],
    room: &mut [u8],
    net: turns::Net,
    left: usize,
    from: usize,
    end: usize,
    before: Ink,
) -> Result<Ink, Refusal>
    requires { Ready rows.now bodies.now live numbers.old drawing.old left before × Near ((deepest - left) * 2 ^ 36) net × BodyAt bodies.now from end }
    ensures draws { Draws rows.now bodies.now live drawing.old net left from end before room.old (chain_in drawing.new) result room.new }
    ensures kept { Kept (deepest - left) drawing.old drawing.new }
{
    let mut at = from;
    let mut layer: u32 = 0;
    let mut ink = before;
    // a `while`, since commands differ in length: an iterator over them would keep the same index
    while at < end {
        let here = at;
        let Head { kind, place, next } = head_at(bodies, here);
        at = next;
        match kind {
            b'L' => {
                layer = name_at(bodies, here + 2);
            }
            b'C' => {
                let call = opening::read_call(&bodies[here..next], next - here, net, place);
                ink = draw_call(bodies, rows, live, numbers, drawing, room, call, left, ink)?;
            }
            letter => {
                ink = match shapes::draw_shape(
                    &bodies[here..next],
                    numbers,
                    room,
                    letter,
                    next - here,
                    net,
                    layer,
                    place,
                    ink,
                ) {
                    Ok(shown) => shown,
                    Err(refusal) => {
                        let level = definition::DEEPEST - left;
                        chain::stop(drawing, level);
                        return Err(refusal);
                    }
                };
            }
        }
    }
    Ok(ink)
}

// A command outside of definitions that draws: a call (RULES 8: an executable call has depth 1), and else a shape.
pub fn draw_outer(
    bodies: &[i32],
    rows: &[usize; library::ROW_NUMBERS],
    live: usize,
    words: &[i32],
    numbers: &mut [i64],
    drawing: &mut [usize],
    room: &mut [u8],
    kind: u8,
    place: usize,
    end: usize,
    layer: u32,
    ink: Ink,
) -> Result<Ink, Refusal>
    requires ready { Ready rows.now bodies.now live numbers.old drawing.old deepest ink }
    requires says { (s : Step) × Says words.now kind end (name_of layer) s }
    ensures { OuterDraws rows.now bodies.now live words.now kind place end layer ink room.old drawing.new result room.new }
{
    let still = turns::still();
    if kind == b'C' {
        let call = opening::read_call(words, end, still, place);
        return draw_call(
            bodies,
            rows,
            live,
            numbers,
            drawing,
            room,
            call,
            definition::DEEPEST,
            ink,
        );
    }
    // no call is open, should the shape be refused
    chain::stop(drawing, 0);
    shapes::draw_shape(words, numbers, room, kind, end, still, layer, place, ink)
}
