// What a call of a symbol would draw (RULES 19, request 3): its height, the set of its layers, or the first of 12, 13 and 14, from the words that hold the bodies. The
// height and the set of a finished symbol are kept beside its row, so that every body is gone through once: a known height answers for any allowance
// (proofs/Walking.antt).
#![tactic(auto)]

ghost use Rattle.std.specs.Prelude.{◌≡◌, List, [], ℕ, ◌≤◌, length};
ghost use Rattle.definition.specs.Limits.{deepest};
ghost use Rattle.library.specs.Memory.{most_words};
ghost use Rattle.library.specs.Sound.{Stocked};
ghost use Rattle.library.specs.Rows.{Sorted};
ghost use Rattle.heights.specs.Calls.{Remains, CallNext};
ghost use Rattle.heights.specs.Walk.{walk, graph_in};
ghost use Rattle.heights.specs.Kept.{Looks, Ready, Opened, Replies, Inside, BodyReplies};
ghost use Rattle.heights.specs.Replies.{SymbolReplies};

use definition::Rule;

// What a symbol gives, if no rule bars it: its height and the set of its layers.
#[derive(Clone, Copy)]
pub struct Standing {
    pub height: usize,
    pub layers: u64,
}

// The next call of a body: its symbol, and where the command after it begins.
#[derive(Clone, Copy)]
struct Next {
    symbol: usize,
    at: usize,
}

// What has been seen of a symbol: nothing yet; that its body is being gone through; or what it gives, which answers for any allowance.
#[derive(Clone, Copy)]
enum Seen {
    Unknown,
    Open,
    Known(Standing),
}

// A symbol that no rule bars: what it gives, or the row whose body is still to be gone through.
#[derive(Clone, Copy)]
enum Looked {
    Stands(Standing),
    Fresh(usize),
}

// The first call from a place of a body on: shapes and L commands are passed over.
fn next_call(bodies: &[i32], from: usize, end: usize) -> Option<Next>
    requires { (cs : List ℕ) × Remains bodies.now from end cs }
    ensures { (cs : List ℕ) → Remains bodies.now from end cs → CallNext bodies.now from end cs result }
{
    let mut at = from;
    // a `while`, since commands differ in length: an iterator over them would keep the same place
    while at < end {
        let head = engine::head_at(bodies, at);
        if head.kind == b'C' {
            return Some(Next {
                symbol: shapes::size_at(bodies, at + 2),
                at: head.next,
            });
        }
        at = head.next;
    }
    None
}

// Refusals 12, 13 and 14 of one call with so many levels left, in their order (RULES 8). A known height is too tall where fewer levels are left.
fn look_up(
    rows: &[usize; library::ROW_NUMBERS],
    live: usize,
    seen: &[Seen; library::MOST],
    symbol: usize,
    left: usize,
) -> Result<Looked, Rule>
    requires { Sorted rows.now live }
    ensures { Looks rows.now live seen.now symbol left result }
{
    let row = library::find(rows, live, symbol).ok_or(Rule::UndefinedSymbol)?;
    match seen[row] {
        Seen::Open => Err(Rule::BeingDrawn),
        Seen::Known(standing) if left < standing.height => Err(Rule::TooDeep),
        Seen::Known(standing) => Ok(Looked::Stands(standing)),
        Seen::Unknown if left == 0 => Err(Rule::TooDeep),
        Seen::Unknown => Ok(Looked::Fresh(row)),
    }
}

// One call: refused, known, or its body is gone through with the symbol open, and its height is one more than its tallest callee.
#[cycle(reply_of_body_reply_to)]
fn reply_to(
    bodies: &[i32],
    rows: &[usize; library::ROW_NUMBERS],
    live: usize,
    own: &[columns::Own; library::MOST],
    seen: &mut [Seen; library::MOST],
    symbol: usize,
    left: usize,
) -> Result<Standing, Rule>
    requires { Ready rows.now bodies.now live own.now seen.old left × ((o : List ℕ) × Opened rows.now bodies.now live own.now seen.old symbol o) }
    ensures { Replies rows.now bodies.now live own.now seen.old symbol left result seen.new }
{
    match look_up(rows, live, seen, symbol, left)? {
        Looked::Stands(standing) => Ok(standing),
        Looked::Fresh(row) => {
            seen[row] = Seen::Open;
            let body = reply_of_body(bodies, rows, live, own, seen, row, left - 1)?;
            let standing = Standing {
                height: body.height + 1,
                layers: body.layers,
            };
            seen[row] = Seen::Known(standing);
            Ok(standing)
        }
    }
}

// A body: its calls in written order, the first that is refused, or the height of the tallest and the layers of all.
#[cycle(reply_of_body_reply_to)]
fn reply_of_body(
    bodies: &[i32],
    rows: &[usize; library::ROW_NUMBERS],
    live: usize,
    own: &[columns::Own; library::MOST],
    seen: &mut [Seen; library::MOST],
    row: usize,
    left: usize,
) -> Result<Standing, Rule>
    requires { Ready rows.now bodies.now live own.now seen.old left × ((o : List ℕ) × Inside rows.now bodies.now live own.now seen.old row o) }
    ensures { BodyReplies rows.now bodies.now live own.now seen.old row left result seen.new }
{
    let mut at = library::start_at(rows, row);
    let end = at + library::length_at(rows, row);
    let mut tallest: usize = 0;
    let mut set = own[row].layers;
    while let Some(next) = next_call(bodies, at, end) {
        at = next.at;
        let called = reply_to(bodies, rows, live, own, seen, next.symbol, left)?;
        tallest = tallest.max(called.height);
        set |= called.layers;
    }
    Ok(Standing {
        height: tallest,
        layers: set,
    })
}

// A symbol, asked for with every level left and nothing known yet.
pub fn ask(
    bodies: &[i32],
    rows: &[usize; library::ROW_NUMBERS],
    live: usize,
    own: &[columns::Own; library::MOST],
    symbol: usize,
) -> Result<Standing, Rule>
    requires { Sorted rows.now live × Stocked rows.now bodies.now live × (length bodies.now ≤ most_words) }
    ensures symbol_replies { SymbolReplies rows.now bodies.now live own.now symbol result }
    ensures value { result ≡ walk (graph_in rows.now bodies.now live own.now) deepest [] symbol }
{
    let mut seen = [Seen::Unknown; library::MOST];
    reply_to(
        bodies,
        rows,
        live,
        own,
        &mut seen,
        symbol,
        definition::DEEPEST,
    )
}
