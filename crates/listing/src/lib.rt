// What the list program prints (RULES 13), from the answer, the flat file and, for its warnings, the text. The flat file is read once, byte by
// byte: a shape's line is copied after its count and its layer, and its points are taken into the window, which crate lines keeps.
#![tactic(auto)]

ghost use Rattle.std.specs.Prelude.{◌≡◌, ◌∷◌, [], ◌+◌, ◌^◌, ◌≤◌, pos, length, take};
ghost use Rattle.definition.specs.Flat.{decimal};
ghost use Rattle.digits.specs.Writes.{Writes};
ghost use Rattle.pen.specs.Names.{name_of};
ghost use Rattle.listing.specs.Account.{quiet, heading, wrote, total_line, window_of, tabbed, refused_line, ending};
ghost use Rattle.listing.specs.Listed.{Walks, Listed};

const TAB: u8 = 9;

const LINE_FEED: u8 = 10;

// After the lines of all shapes: the next place in the listing, and the window.
#[derive(Clone, Copy)]
struct Walked {
    at: usize,
    window: lines::Window,
}

#[tactic(auto, unfolding(definition::specs::Flat::decimal))]
fn put_field(out: &mut [u8], at: usize, n: u64) -> usize
    requires { at ≤ 2 ^ 59 }
    ensures writes { Writes out.old out.new at result (9 ∷ decimal (pos n)) }
    ensures upper_bound { result ≤ at + 21 }
{
    let next = digits::put(out, at, TAB);
    digits::put_digits(out, next, n)
}

fn put_signed_field(out: &mut [u8], at: usize, z: i64) -> usize
    requires { at ≤ 2 ^ 59 }
    ensures writes { Writes out.old out.new at result (9 ∷ decimal z) }
    ensures upper_bound { result ≤ at + 21 }
{
    let next = digits::put(out, at, TAB);
    digits::put_decimal(out, next, z)
}

fn put_name_field(out: &mut [u8], at: usize, layer: u32) -> usize
    requires { at ≤ 2 ^ 59 }
    ensures writes { Writes out.old out.new at result (9 ∷ name_of layer) }
    ensures upper_bound { result ≤ at + 5 }
{
    let next = digits::put(out, at, TAB);
    pen::put_name(out, next, layer)
}

fn put_kind_field(out: &mut [u8], at: usize, letter: u8) -> usize
    requires { at ≤ 2 ^ 59 }
    ensures { Writes out.old out.new at result (9 ∷ letter ∷ 9 ∷ []) }
{
    let next = digits::put(out, at, TAB);
    let after = digits::put(out, next, letter);
    digits::put(out, after, TAB)
}

// What stands before a shape's numbers.
fn put_heading(out: &mut [u8], at: usize, count: u64, layer: u32, letter: u8) -> usize
    requires { at ≤ 2 ^ 58 }
    ensures writes { Writes out.old out.new at result (heading count layer letter) }
    ensures upper_bound { result ≤ at + 34 }
{
    let first = digits::put_word(out, at, b"shape");
    let second = put_field(out, first, count);
    let third = put_name_field(out, second, layer);
    put_kind_field(out, third, letter)
}

// The lines that are not listed: L and E.
fn is_quiet(letter: u8) -> bool
    ensures { result ≡ quiet letter }
{
    letter == b'L' || letter == b'E'
}

// What is written at a byte of the flat file: a shape's letter gives the heading of its line, and its numbers are copied.
#[tactic(auto, using(digits::proofs::Writing::nothing), unfolding(crate::specs::Account::wrote))]
fn put_byte(out: &mut [u8], at: usize, line: lines::Line, b: u8) -> usize
    requires { at ≤ 2 ^ 58 }
    ensures writes { Writes out.old out.new at result (wrote line b) }
    ensures upper_bound { result ≤ at + 34 }
{
    if b == LINE_FEED {
        return at;
    }
    match line.letter {
        None if is_quiet(b) => at,
        None => put_heading(out, at, line.count, line.layer, b),
        Some(letter) if is_quiet(letter) => at,
        Some(_) if b == b';' => digits::put(out, at, LINE_FEED),
        Some(_) => digits::put(out, at, b),
    }
}

// The lines of all shapes, from one pass over the flat file.
#[tactic(auto, using(crate::proofs::Walking::first, crate::proofs::Walking::fits))]
fn put_shapes(flat: &[u8], out: &mut [u8]) -> Walked
    requires { length flat.now ≤ 16777216 }
    ensures { Walks flat.now out.old out.new result }
{
    let mut at = 0;
    let mut seen = lines::start();
    for &b in flat {
        at = put_byte(out, at, seen.line, b);
        seen = lines::after(seen, b);
    }
    Walked {
        at,
        window: seen.window,
    }
}

fn put_total(out: &mut [u8], at: usize, answer: definition::Answer) -> usize
    requires { at ≤ 2 ^ 57 }
    ensures writes { Writes out.old out.new at result (total_line answer.shapes answer.calls answer.redefinitions) }
    ensures upper_bound { result ≤ at + 69 }
{
    let first = digits::put_word(out, at, b"total");
    let second = put_field(out, first, answer.shapes as u64);
    let third = put_field(out, second, answer.calls as u64);
    let last = put_field(out, third, answer.redefinitions as u64);
    digits::put(out, last, LINE_FEED)
}

// The window of all points, or `none`. In bytes that are no flat file's there can be an x without a y: what is printed of these may not change, so its y
// is 0.
fn put_window(out: &mut [u8], at: usize, window: lines::Window) -> usize
    requires { at ≤ 2 ^ 58 }
    ensures writes { Writes out.old out.new at result (window_of window) }
    ensures upper_bound { result ≤ at + 91 }
{
    let first = digits::put_word(out, at, b"window");
    match window.xs {
        None => digits::put_word(out, first, b"\tnone\n"),
        Some(xs) => {
            let ys = window.ys.unwrap_or(lines::Span { low: 0, high: 0 });
            let second = put_signed_field(out, first, xs.low);
            let third = put_signed_field(out, second, ys.low);
            let fourth = put_signed_field(out, third, xs.high);
            let last = put_signed_field(out, fourth, ys.high);
            digits::put(out, last, LINE_FEED)
        }
    }
}

// The places of the open calls, each after a tab: as many as are told, and of more than the chain has, all.
fn put_places(out: &mut [u8], start: usize, chain: &[usize], opened: usize) -> usize
    requires { (start ≤ 2 ^ 58) × (length chain.now ≤ 32) }
    ensures writes { Writes out.old out.new start result (tabbed (take opened chain.now)) }
    ensures upper_bound { result ≤ start + 672 }
{
    let mut at = start;
    let told = &chain[..opened.min(chain.len())];
    for &place in told {
        at = put_field(out, at, place as u64);
    }
    at
}

// Where a text is refused: its place, line and column, and the calls that are open there.
fn put_refusal(out: &mut [u8], answer: definition::Answer) -> usize
    ensures writes { Writes out.old out.new 0 result (refused_line answer) }
    ensures upper_bound { result ≤ 764 }
{
    let first = digits::put_word(out, 0, b"refused");
    let second = put_field(out, first, answer.number as u64);
    let third = put_field(out, second, answer.place as u64);
    let fourth = put_field(out, third, answer.line as u64);
    let fifth = put_field(out, fourth, answer.column as u64);
    let last = put_places(out, fifth, &answer.chain, answer.opened);
    digits::put(out, last, LINE_FEED)
}

// The total and the window.
fn put_ending(out: &mut [u8], at: usize, answer: definition::Answer, window: lines::Window) -> usize
    requires { at ≤ 2 ^ 57 }
    ensures writes { Writes out.old out.new at result (ending answer window) }
    ensures upper_bound { result ≤ at + 160 }
{
    let next = put_total(out, at, answer);
    put_window(out, next, window)
}

// Prints into `out` what the list program prints of a text, its answer and its flat file, as far as the room reaches, and gives back how many bytes that are
// whatever the room: so a room of no bytes measures. The words are lent for the text's definitions, as many as were lent for the answer. It takes any
// bytes: of those that are not the text's the contract says by the account what is printed, and two outcomes that it allows are equal (`one_listing` of
// proofs/Agrees.antt).
pub fn list(
    text: &[u8],
    words: &mut [i32],
    flat: &[u8],
    answer: definition::Answer,
    out: &mut [u8],
) -> usize
    ensures { Listed text.now (length words.old) answer flat.now out.old out.new result }
{
    if flat.len() > definition::MOST_BYTES {
        return 0;
    }
    // An answer's number is 0 where the text is accepted: that is the C interface.
    if answer.number != 0 {
        return put_refusal(out, answer);
    }
    let Walked { at, window } = put_shapes(flat, out);
    let next = warning::warn_any(text, words, out, at);
    put_ending(out, next, answer, window)
}
