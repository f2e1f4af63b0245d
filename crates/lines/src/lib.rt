// A flat file followed byte by byte: the line and the number that are being read, and the window of the figures before them (RULES 13, request 6). Plain values come
// in and plain values go out; what is printed of them is the business of listing, above. It takes any bytes.
#![tactic(auto)]

ghost use Rattle.std.specs.Prelude.{◌≡◌, ◌+◌, ◌*◌, ◌^◌, ◌≤◌, nat_abs};
ghost use Rattle.lines.specs.Followed.{letter_at, opened, named, line_after, pushed, ends, numeral_after, value_of};
ghost use Rattle.lines.specs.Followed.{kept, lead_after, reach_by, along_by, box_reach_by, centre_of, box_taken, stretched};
ghost use Rattle.lines.specs.Followed.{widened, alternate, after_size, axis_of, taken, span_after, Fits, unread, seen_after};

// No number of a flat file is larger.
const LARGEST: u32 = definition::LARGEST as u32;
// What letters count in a packed name, which has 32 bits.
const FIRST_UNIT: u32 = names::FIRST_UNIT as u32;

const BYTE_UNIT: u32 = names::BYTE_UNIT as u32;

const LINE_FEED: u8 = 10;

// Where the numbers of a point go. Other crates meet it in the account alone.
#[derive(Clone, Copy, PartialEq, Eq)]
pub enum Axis {
    X,
    Y,
}

// A line of the flat file that is being read: the count of the next shape, the packed layer, what the next letter of a layer's name counts in it, and
// the line's first letter, if it is read.
#[derive(Clone, Copy)]
pub struct Line {
    pub count: u64,
    pub layer: u32,
    pub unit: u32,
    pub letter: Option<u8>,
}

// A number that is being read: how many stand before it in its line, whether a minus sign did, and what its digits so far are worth.
#[derive(Clone, Copy, Default)]
pub struct Numeral {
    pub index: usize,
    pub negative: bool,
    pub value: u32,
}

// The lowest and the highest of numbers, of which there are some.
#[derive(Clone, Copy)]
pub struct Span {
    pub low: i64,
    pub high: i64,
}

// What shapes span along both axes. While a point is read, there can be an x without a y.
#[derive(Clone, Copy)]
pub struct Window {
    pub xs: Option<Span>,
    pub ys: Option<Span>,
}

// The first numbers of a line, by which its shape reaches beyond its points: the sizes, and of a box its centre and the x of its direction, which is
// known only after the centre. All 0 at a line's start, and no Options: none is read before it is known.
#[derive(Clone, Copy, Default)]
pub struct Lead {
    pub first: u32,
    pub second: u32,
    pub x: Numeral,
    pub y: Numeral,
    pub dx: u32,
}

// What is known of a flat file after some of its bytes: the line and the number that are being read, the first numbers of the line, and the window of
// all shapes before.
#[derive(Clone, Copy)]
pub struct Seen {
    pub line: Line,
    pub number: Numeral,
    pub lead: Lead,
    pub window: Window,
}

// ---- the line and the number

// A byte 0 is no letter: what is printed of bytes that are no flat file's may not change.
fn letter_at(b: u8) -> Option<u8>
    ensures { result ≡ letter_at b }
{
    if b == 0 { None } else { Some(b) }
}

// The first letter of a line: an L sets no layer yet, and a shape is counted.
#[tactic(auto, unfolding(crate::specs::Followed::opened))]
fn open_line(line: Line, b: u8) -> Line
    requires { line.count ≤ 2 ^ 32 }
    ensures { result ≡ opened line b }
{
    let letter = letter_at(b);
    match b {
        b'L' => Line {
            layer: 0,
            unit: FIRST_UNIT,
            letter,
            ..line
        },
        b'E' => Line { letter, ..line },
        _ => Line {
            count: line.count + 1,
            letter,
            ..line
        },
    }
}

// One letter more of a layer's name. A name beyond four letters is no flat file's; those after the fourth count nothing.
#[tactic(auto, unfolding(crate::specs::Followed::named))]
fn add_letter(line: Line, b: u8) -> Line
    requires { line.layer + 256 * line.unit ≤ 2 ^ 32 }
    ensures { result ≡ named line b }
{
    if b == b';' {
        return line;
    }
    let name = names::longer_name(line.layer as usize, line.unit as usize, b);
    Line {
        layer: name as u32,
        unit: line.unit / BYTE_UNIT,
        ..line
    }
}

// The line with one byte more. A line feed ends it, and its layer lasts.
#[tactic(auto, unfolding(crate::specs::Followed::line_after))]
fn line_after(line: Line, b: u8) -> Line
    requires { Fits line }
    ensures { result ≡ line_after line b }
{
    if b == LINE_FEED {
        return Line {
            unit: 0,
            letter: None,
            ..line
        };
    }
    match line.letter {
        None => open_line(line, b),
        Some(b'L') => add_letter(line, b),
        Some(_) => line,
    }
}

// Its value with one digit more. A number beyond the range is no flat file's, and is held so that it fits.
fn push_digit(value: u32, b: u8) -> u32
    ensures { result ≡ pushed value b }
{
    if b < b'0' || b > b'9' || value > LARGEST {
        return value;
    }
    10 * value + (b - b'0') as u32
}

// A number ends at a space and at its line's semicolon.
fn ends_number(b: u8) -> bool
    ensures { result ≡ ends b }
{
    b == b' ' || b == b';'
}

#[tactic(auto, unfolding(crate::specs::Followed::numeral_after))]
fn numeral_after(n: Numeral, b: u8) -> Numeral
    requires { n.index ≤ 2 ^ 32 }
    ensures { result ≡ numeral_after n b }
{
    if b == LINE_FEED {
        return Numeral::default();
    }
    if b == b'-' {
        return Numeral {
            negative: true,
            ..n
        };
    }
    if ends_number(b) {
        return Numeral {
            index: n.index + 1,
            ..Numeral::default()
        };
    }
    Numeral {
        value: push_digit(n.value, b),
        ..n
    }
}

fn value_of(n: Numeral) -> i64
    ensures value { result ≡ value_of n }
    ensures result_bound { nat_abs result ≤ 2 ^ 32 }
{
    let v = n.value as i64;
    if n.negative { -v } else { v }
}

// ---- the window

// With a stretch more.
#[tactic(auto, unfolding(crate::specs::Followed::widened))]
fn widen(span: Option<Span>, more: Span) -> Span
    ensures { result ≡ widened span more }
{
    match span {
        None => more,
        Some(span) => Span {
            low: span.low.min(more.low),
            high: span.high.max(more.high),
        },
    }
}

// What lies about a number, in half units: it is doubled, and the reach goes to both sides.
#[tactic(auto, unfolding(crate::specs::Followed::stretched))]
fn stretch(span: Option<Span>, middle: i64, reach: i64) -> Span
    requires { (nat_abs middle ≤ 2 ^ 32) × (nat_abs reach ≤ 2 ^ 33) }
    ensures { result ≡ stretched span middle reach }
{
    let low = 2 * middle - reach;
    let high = 2 * middle + reach;
    widen(span, Span { low, high })
}

fn alternate(index: usize) -> Axis
    ensures { result ≡ alternate index }
{
    if index % 2 == 0 { Axis::X } else { Axis::Y }
}

// After one size.
fn axis_after_size(index: usize) -> Option<Axis>
    requires { index ≤ 2 ^ 32 }
    ensures { result ≡ after_size index }
{
    if index == 0 {
        None
    } else {
        Some(alternate(index + 1))
    }
}

// Sizes are in no window, and a box is taken whole at the end of its line.
#[tactic(auto, unfolding(crate::specs::Followed::axis_of))]
fn axis_of(letter: u8, index: usize) -> Option<Axis>
    requires { index ≤ 2 ^ 32 }
    ensures { result ≡ axis_of letter index }
{
    match letter {
        b'P' => Some(alternate(index)),
        b'R' | b'W' => axis_after_size(index),
        _ => None,
    }
}

// How far a flash or a wire reaches beyond each doubled point, and a polygon.
fn reach_of(letter: u8, first: u32) -> i64
    ensures value { result ≡ reach_by letter first }
    ensures result_bound { nat_abs result ≤ 2 ^ 33 }
{
    if letter == b'P' { 0 } else { first as i64 }
}

// The one of two that goes along an axis.
fn along(axis: Axis, x: u32, y: u32) -> u32
    ensures { result ≡ along_by axis x y }
{
    match axis {
        Axis::X => x,
        Axis::Y => y,
    }
}

// How far a box does along an axis: its length and width the proper way round, or both where it slants.
fn box_reach(axis: Axis, lead: Lead, dy: u32) -> i64
    ensures value { result ≡ box_reach_by axis lead.first lead.second lead.dx dy }
    ensures result_bound { nat_abs result ≤ 2 ^ 33 }
{
    let length = lead.first;
    let width = lead.second;
    if dy == 0 {
        return along(axis, length, width) as i64;
    }
    if lead.dx == 0 {
        return along(axis, width, length) as i64;
    }
    length as i64 + width as i64
}

fn centre_of(axis: Axis, lead: Lead) -> i64
    ensures value { result ≡ centre_of axis lead }
    ensures result_bound { nat_abs result ≤ 2 ^ 32 }
{
    match axis {
        Axis::X => value_of(lead.x),
        Axis::Y => value_of(lead.y),
    }
}

// A box is taken at its last number, the y of its direction.
#[tactic(auto, unfolding(crate::specs::Followed::box_taken))]
fn take_box(axis: Axis, span: Option<Span>, lead: Lead, n: Numeral) -> Option<Span>
    ensures { result ≡ box_taken axis lead span n }
{
    if n.index == 5 {
        let middle = centre_of(axis, lead);
        let reach = box_reach(axis, lead, n.value);
        return Some(stretch(span, middle, reach));
    }
    span
}

// A number that ends is taken where it is one of the axis.
#[tactic(auto, unfolding(crate::specs::Followed::taken))]
fn take_number(axis: Axis, span: Option<Span>, letter: u8, lead: Lead, n: Numeral) -> Option<Span>
    requires { n.index ≤ 2 ^ 32 }
    ensures { result ≡ taken axis letter lead span n }
{
    if letter == b'B' {
        return take_box(axis, span, lead, n);
    }
    if axis_of(letter, n.index) == Some(axis) {
        let middle = value_of(n);
        let reach = reach_of(letter, lead.first);
        return Some(stretch(span, middle, reach));
    }
    span
}

#[tactic(auto, unfolding(crate::specs::Followed::span_after))]
fn span_after(
    axis: Axis,
    span: Option<Span>,
    letter: Option<u8>,
    lead: Lead,
    n: Numeral,
    b: u8,
) -> Option<Span>
    requires { n.index ≤ 2 ^ 32 }
    ensures { result ≡ span_after axis span letter lead n b }
{
    match letter {
        Some(letter) if ends_number(b) => take_number(axis, span, letter, lead, n),
        _ => span,
    }
}

// ---- the first numbers of a line

// With a number that ends, by how many stand before it.
#[tactic(auto, unfolding(crate::specs::Followed::kept))]
fn keep_number(lead: Lead, n: Numeral) -> Lead
    ensures { result ≡ kept lead n }
{
    match n.index {
        0 => Lead {
            first: n.value,
            ..lead
        },
        1 => Lead {
            second: n.value,
            ..lead
        },
        2 => Lead { x: n, ..lead },
        3 => Lead { y: n, ..lead },
        4 => Lead {
            dx: n.value,
            ..lead
        },
        _ => lead,
    }
}

#[tactic(auto, unfolding(crate::specs::Followed::lead_after))]
fn lead_after(lead: Lead, n: Numeral, b: u8) -> Lead
    ensures { result ≡ lead_after lead n b }
{
    if b == LINE_FEED {
        return Lead::default();
    }
    if ends_number(b) {
        return keep_number(lead, n);
    }
    lead
}

// ---- all of it

// Before the first byte.
pub fn start() -> Seen
    ensures { result ≡ unread }
{
    Seen {
        line: Line {
            count: 1,
            layer: 0,
            unit: 0,
            letter: None,
        },
        number: Numeral::default(),
        lead: Lead::default(),
        window: Window { xs: None, ys: None },
    }
}

// After one byte more. That a layer's name fits its 32 bits is asked for, and no ghost field of `Line`: the account would have to prove it of each line
// that it makes, so that is no plainer.
#[tactic(auto, unfolding(crate::specs::Followed::seen_after))]
pub fn after(seen: Seen, b: u8) -> Seen
    requires fits { Fits seen.line }
    requires index_bound { seen.number.index ≤ 2 ^ 32 }
    ensures { result ≡ seen_after seen b }
{
    let Seen {
        line,
        number,
        lead,
        window,
    } = seen;
    let xs = span_after(Axis::X, window.xs, line.letter, lead, number, b);
    let ys = span_after(Axis::Y, window.ys, line.letter, lead, number, b);
    Seen {
        line: line_after(line, b),
        number: numeral_after(number, b),
        lead: lead_after(lead, number, b),
        window: Window { xs, ys },
    }
}
