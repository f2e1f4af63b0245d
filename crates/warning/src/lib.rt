// The warnings of a text (RULES 13, request 1), by a pass that enters and deletes as the drawing does, and draws nothing: a line for each, in the order of their
// commands. What is live is asked of crate dangling, and not again before the table changes.
#![tactic(auto)]

ghost use Rattle.std.specs.Prelude.{◌≡◌, ◌+◌, ◌^◌, ◌≤◌, length};
ghost use Rattle.moves.specs.Moves.{most_values};
ghost use Rattle.library.specs.Memory.{row_numbers};
ghost use Rattle.library.specs.Sound.{Stocked};
ghost use Rattle.library.specs.Rows.{Sorted};
ghost use Rattle.keeping.specs.Keeping.{most_words};
ghost use Rattle.passing.specs.Passed.{Passed};
ghost use Rattle.dangling.specs.Searched.{Searched};
ghost use Rattle.digits.specs.Writes.{Writes};
ghost use Rattle.warning.specs.Warned.{redefined_line, dangling_line, SearchedLast, Warns, WarnsAny};

use keeping::Stock;

// A command has at most 2,049 numbers, and two words in front.
const COMMAND_WORDS: usize = 2051;

const LINE_FEED: u8 = 10;

// The first warning, where a definition brought one redefinition more.
fn put_redefined(out: &mut [u8], at: usize, symbol: usize, before: usize, after: usize) -> usize
    requires { at ≤ 2 ^ 58 }
    ensures { Writes out.old out.new at result (redefined_line symbol before after) × (result ≤ at + 48) }
{
    if before < after {
        let first = digits::put_word(out, at, b"Warning: symbol ");
        let second = digits::put_digits(out, first, symbol as u64);
        return digits::put_word(out, second, b" redefined.\n");
    }
    at
}

// The second, where a search found a call.
fn put_dangling(out: &mut [u8], at: usize, found: Option<usize>) -> usize
    requires { at ≤ 2 ^ 58 }
    ensures { Writes out.old out.new at result (dangling_line found) × (result ≤ at + 60) }
{
    match found {
        None => at,
        Some(place) => {
            let first = digits::put_word(out, at, b"Warning: dangling references after DD.\t");
            let second = digits::put_digits(out, first, place as u64);
            digits::put(out, second, LINE_FEED)
        }
    }
}

// What a search finds after a DD that left `live` of `before` rows, by what the last one found, if the table has not changed since. Where the DD removed
// nothing, it would find the same.
fn find_dangling(
    bodies: &[i32],
    rows: &[usize; library::ROW_NUMBERS],
    before: usize,
    live: usize,
    searched: Option<Option<usize>>,
) -> Option<usize>
    requires sorted { Sorted rows.now live × Stocked rows.now bodies.now live × (length bodies.now ≤ most_words) }
    requires searched { SearchedLast rows.now bodies.now before searched }
    ensures { Searched rows.now bodies.now live result }
{
    match searched {
        Some(found) if live == before => found,
        _ => dangling::first_dangling(bodies, rows, live),
    }
}

// The commands of a text from its start on. A definition that is one too many or needs more words than were lent ends the pass, as it ends the drawing.
fn warn_text(
    text: &[u8],
    recogniser: &grammar::Recogniser,
    rows: &mut [usize; library::ROW_NUMBERS],
    bodies: &mut [i32],
    words: &mut [i32],
    out: &mut [u8],
    from: usize,
) -> usize
    requires passed { Passed text.now × (length rows.old ≡ row_numbers) × (length bodies.old ≤ most_words) }
    requires most_values_in_bounds { (most_values + 2 ≤ length words.old) × (from ≤ 2 ^ 57) }
    ensures { Warns text.now (length bodies.old) out.old out.new from result }
{
    let mut spot = pieces::Spot { at: 0, state: 0 };
    let mut stock = Stock {
        live: 0,
        used: 0,
        needed: 0,
    };
    let mut counts = counts::no_counts();
    let mut searched = None;
    let mut at = from;
    while let Some(c) = commands::read_command(text, recogniser, words, spot, 1, 1) {
        let kind = c.kind;
        let place = c.place;
        let to = c.to;
        spot = to;
        if kind == b'D' {
            let symbol = shapes::size_at(words, 2);
            let left = passing::delete(rows, stock, symbol);
            let found = find_dangling(bodies, rows, stock.live, left.live, searched);
            searched = Some(found);
            stock = left;
            at = put_dangling(out, at, found);
        } else if kind == b'S' {
            let start = passing::start_in(words, place);
            match keeping::define(text, recogniser, rows, bodies, stock, start, to, counts) {
                Ok(taken) => {
                    let had = counts.redefinitions;
                    let has = taken.counts.redefinitions;
                    at = put_redefined(out, at, start.symbol, had, has);
                    spot = taken.to;
                    stock = taken.stock;
                    counts = taken.counts;
                    searched = None;
                }
                Err(_) => {
                    return at;
                }
            }
        }
    }
    at
}

// The warnings of a text that refusals 1 to 9 let pass come to stand in `out` from a place on, as far as it reaches; the place after them is exact all the
// same, so a room of no bytes measures.
pub fn warn(text: &[u8], bodies: &mut [i32], out: &mut [u8], from: usize) -> usize
    requires { Passed text.now × (from ≤ 2 ^ 57) }
    ensures { Warns text.now (length bodies.old) out.old out.new from result }
{
    let recogniser = grammar::Recogniser::new();
    let mut rows = [0usize; library::ROW_NUMBERS];
    let mut words = [0i32; COMMAND_WORDS];
    let lent = passing::at_most(bodies.len());
    warn_text(
        text,
        &recogniser,
        &mut rows,
        &mut bodies[0..lent],
        &mut words,
        out,
        from,
    )
}

// The same of any text: one that refusals 1 to 9 meet has no warnings.
pub fn warn_any(text: &[u8], bodies: &mut [i32], out: &mut [u8], from: usize) -> usize
    requires { from ≤ 2 ^ 57 }
    ensures { WarnsAny text.now (length bodies.old) out.old out.new from result }
{
    match reader::first_fault(text) {
        Err(_) => from,
        Ok(_) => warn(text, bodies, out, from),
    }
}
