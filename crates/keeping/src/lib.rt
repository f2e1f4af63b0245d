// One definition, decoded once: its body goes as words straight into the run lent, after those used, and the definition is entered (RULES 8).
// Where a command does not fit, the live bodies are moved together and it is decoded again; where it still does not fit, more words are needed than
// were lent (refusal 25).
#![tactic(auto)]

ghost use Rattle.std.specs.Prelude.{◌≡◌, ℕ, ◌+◌, ◌≤◌, false, length};
ghost use Rattle.definition.specs.Limits.{most_bytes};
ghost use Rattle.pieces.specs.Pieces.{too_large, Fit};
ghost use Rattle.keeping.specs.Growth.{steps, Ready, KeepsCommand, KeepsBody};
ghost use Rattle.keeping.specs.Keeping.{Begins, DefinesAt, Filling, FillsAt};

use commands::Decoded;
use definition::Rule;
use library::Begun;

// What a DS says: its symbol, its scale, and where it stands.
#[derive(Clone, Copy)]
pub struct Start {
    pub symbol: usize,
    pub place: usize,
    pub a: usize,
    pub b: usize,
}

// How many definitions are live, how many words of the run are used, and how many the live definitions need.
#[derive(Clone, Copy)]
pub struct Stock {
    pub live: usize,
    pub used: usize,
    pub needed: usize,
}

// A definition that was taken: the stock and the counts after it, and where the next command begins.
#[derive(Clone, Copy)]
pub struct Taken {
    pub stock: Stock,
    pub counts: counts::Counts,
    pub to: pieces::Spot,
}

// What became of a command of a body: so many words are used now, and whether the last command kept is an L; the definition ends; or it does not fit.
#[derive(Clone, Copy)]
enum Stored {
    More(usize, bool, pieces::Spot),
    Last(pieces::Spot),
    Tight,
}

// A body that is whole: so many words are used then, and where the next command begins.
#[derive(Clone, Copy)]
struct Whole {
    used: usize,
    to: pieces::Spot,
}

// Whether a command of this kind is a step of a body.
fn is_step(kind: u8) -> bool
    ensures { result ≡ steps kind }
{
    kind == b'L' || kind == b'C' || rules::is_shape(kind)
}

// Decodes the next command of a body after the words used, and keeps it if it is a step.
fn keep_command(
    text: &[u8],
    recogniser: &grammar::Recogniser,
    rows: &mut [usize; library::ROW_NUMBERS],
    bodies: &mut [i32],
    row: usize,
    used: usize,
    layered: bool,
    from: pieces::Spot,
    a: usize,
    b: usize,
) -> Stored
    requires fit { Fit text.now from × (a ≤ too_large) × (1 ≤ b) }
    requires by_index { (live : ℕ) × Ready text.now from a b rows.old bodies.old live row used layered }
    ensures { (live : ℕ) → Ready text.now from a b rows.old bodies.old live row used layered → KeepsCommand text.now from a b rows.old bodies.old live row used layered result rows.new bodies.new }
{
    let Some(Decoded { kind, end, to, .. }) = commands::read_command(
        text,
        recogniser,
        &mut bodies[used..],
        from,
        a,
        b,
    ) else {
        return Stored::Last(from);
    };
    if kind == b'F' {
        return Stored::Last(to);
    }
    if !is_step(kind) {
        return Stored::More(used, layered, to);
    }
    if bodies.len() - used < end {
        return Stored::Tight;
    }
    let layer = kind == b'L';
    let idle = layered && layer;
    let more = library::store(rows, bodies, row, used, end, idle);
    Stored::More(more, layer, to)
}

// The commands of a definition, up to its DF; none where the words lent are too few. A command that does not fit is decoded once more after the live bodies have been moved together, so
// the loop has no range: how often a command is decoded is known only from the room.
fn keep_body(
    text: &[u8],
    recogniser: &grammar::Recogniser,
    rows: &mut [usize; library::ROW_NUMBERS],
    bodies: &mut [i32],
    live: usize,
    row: usize,
    start: usize,
    from: pieces::Spot,
    a: usize,
    b: usize,
) -> Option<Whole>
    requires fit { Fit text.now from × (a ≤ too_large) × (1 ≤ b) }
    requires ready { Ready text.now from a b rows.old bodies.old live row start false }
    ensures { KeepsBody text.now from a b rows.old bodies.old live row result rows.new bodies.new }
{
    let mut spot = from;
    let mut used = start;
    let mut layered = false;
    let mut moved = false;
    loop {
        match keep_command(
            text, recogniser, rows, bodies, row, used, layered, spot, a, b,
        ) {
            Stored::Last(to) => {
                return Some(Whole { used, to });
            }
            Stored::More(n, l, to) => {
                used = n;
                layered = l;
                spot = to;
                moved = false;
            }
            Stored::Tight => {
                if moved {
                    return None;
                }
                used = library::compact(rows, bodies, live);
                moved = true;
            }
        }
    }
}

// The body of a definition whose row was entered, and whether the live definitions need no more words than were lent.
fn fill(
    text: &[u8],
    recogniser: &grammar::Recogniser,
    rows: &mut [usize; library::ROW_NUMBERS],
    bodies: &mut [i32],
    begun: Stock,
    row: usize,
    start: Start,
    from: pieces::Spot,
    counts: counts::Counts,
) -> Result<Taken, Rule>
    requires fit { Fit text.now from × (start.a ≤ too_large) × (1 ≤ start.b) }
    requires filling { Filling text.now rows.old bodies.old begun row from start }
    ensures { FillsAt text.now rows.old bodies.old begun from start counts result rows.new bodies.new }
{
    let live = begun.live;
    let whole = keep_body(
        text, recogniser, rows, bodies, live, row, begun.used, from, start.a, start.b,
    )
    .ok_or(Rule::TooFewWords)?;
    let needed = begun.needed + library::needed_at(rows, row);
    if bodies.len() < needed {
        return Err(Rule::TooFewWords);
    }
    let stock = Stock {
        live,
        used: whole.used,
        needed,
    };
    Ok(Taken {
        stock,
        counts,
        to: whole.to,
    })
}

// One definition, from after its DS on: taken, or one too many (refusal 10), or the words lent are too few (refusal 25).
pub fn define(
    text: &[u8],
    recogniser: &grammar::Recogniser,
    rows: &mut [usize; library::ROW_NUMBERS],
    bodies: &mut [i32],
    stock: Stock,
    start: Start,
    from: pieces::Spot,
    counts: counts::Counts,
) -> Result<Taken, Rule>
    requires fit { Fit text.now from × (start.a ≤ too_large) × (1 ≤ start.b) }
    requires text_len_bound { (length text.now ≤ most_bytes) × (counts.redefinitions ≤ length text.now) }
    requires begins { Begins text.now rows.old bodies.old stock from start }
    ensures { DefinesAt text.now rows.old bodies.old stock from start counts result rows.new bodies.new }
{
    let live = stock.live;
    let used = stock.used;
    match library::begin(rows, live, start.symbol, start.place) {
        None => Err(Rule::TooManyDefinitions),
        Some(Begun::Replaced(row, freed)) => {
            let more = counts::count_redefinition(counts);
            let needed = stock.needed - freed;
            let begun = Stock { live, used, needed };
            fill(
                text, recogniser, rows, bodies, begun, row, start, from, more,
            )
        }
        Some(Begun::Added(row)) => {
            let begun = Stock {
                live: live + 1,
                used,
                needed: stock.needed,
            };
            fill(
                text, recogniser, rows, bodies, begun, row, start, from, counts,
            )
        }
    }
}
