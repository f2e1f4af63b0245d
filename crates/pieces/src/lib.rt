// The pieces of a CIF text, one after another: what stands between its bytes and its commands. `next_mark` finds the letter that begins the next
// piece, `read_number` reads on where that is a number. They give plain numbers back and not pieces: an enum that is handed up costs a reader more
// than reading its bytes (measured: docs/DECISIONS.md 68). Contracts speak of pieces, so that whoever reads them names no state.
#![tactic(auto)]

ghost use Rattle.std.specs.Prelude.{◌≡◌, ◌+◌, ◌*◌, ◌<◌, ◌≤◌, ltb, length};
ghost use Rattle.grammar.specs.Tables.{state_count};
ghost use Rattle.pieces.specs.Pieces.{too_large, farthest, capped, digit_of, digital, place_beyond, ended, numeral_of, Fit, Closes, Begins, Led, Step};
ghost use Rattle.pieces.specs.declared.Piece.TheVariants.{Number};

// A number beyond the largest is refused whatever its size, so it is read as TOO_LARGE: ten million digits do no harm.
pub const TOO_LARGE: usize = definition::LARGEST + 1;

// Where a reader stands: before a byte, in a state of the recogniser, outside comments.
#[derive(Clone, Copy)]
pub struct Spot {
    pub at: usize,
    pub state: usize,
}

// A piece of a text: the first letter of a command, with its place; the second letter of a D command; a number, by its place, its minus sign and its
// distance from zero; a further letter, of a transformation or of a layer's name; the semicolon behind a command.
#[derive(Clone, Copy)]
pub enum Piece {
    First(usize, u8),
    Second(u8),
    Number(usize, bool, usize),
    Word(u8),
    Stop,
}

// The letter that begins a piece: the number of its role, SKIP where the text has no more pieces; its byte and its place; the place of the number, if
// it begins one; and where a reader stands behind it, past the comment, if it begins one.
#[derive(Clone, Copy)]
pub struct Begun {
    pub mark: usize,
    pub byte: u8,
    pub at: usize,
    pub place: usize,
    pub to: Spot,
}

// A number's distance from zero, and where a reader stands behind it.
#[derive(Clone, Copy)]
pub struct Numeral {
    pub size: usize,
    pub to: Spot,
}

fn digit(b: u8) -> usize
    ensures { (result ≡ digit_of b) × (result < 256) }
{
    b.saturating_sub(b'0') as usize
}

// A number that the digit b makes longer.
#[tactic(auto, unfolding(crate::specs::Pieces::capped))]
fn grown(v: usize, b: u8) -> usize
    requires { v ≤ too_large }
    ensures { result ≡ capped (10 * v + digit_of b) }
{
    (10 * v + digit(b)).min(TOO_LARGE)
}

// A number begins at its minus sign.
#[tactic(auto, unfolding(crate::specs::Pieces::place_beyond, grammar::specs::Steps::number))]
fn next_place(mark: usize, i: usize) -> usize
    requires { i < farthest }
    ensures { result ≡ place_beyond mark i }
{
    if mark == grammar::tables::SIGN {
        i
    } else {
        i + 1
    }
}

// No more pieces.
#[tactic(auto, unfolding(grammar::specs::Steps::number))]
fn nothing(at: usize, state: usize) -> Begun
    ensures { result ≡ ended at state }
{
    Begun {
        mark: grammar::tables::SKIP,
        byte: 0,
        at,
        place: at,
        to: Spot { at, state },
    }
}

#[tactic(auto, unfolding(crate::specs::Pieces::digital))]
fn is_digit(b: u8) -> bool
    ensures { result ≡ digital b }
{
    matches!(b, b'0'..=b'9')
}

// The rest of a number: behind its first digit every digit belongs to it, so the table is not asked. Where a reader does not stand in the text it stays where
// it is, so this is no `for` over the bytes that are left.
pub fn read_number(text: &[u8], first: Begun) -> Numeral
    ensures step { (s : Spot) → Led text.now s first → Step text.now s (Number first.place (ltb first.place first.at) result.size) result.to }
    ensures value { result ≡ numeral_of text.now first }
{
    let mut i = first.to.at;
    let mut v = digit(first.byte);
    while i < text.len() && is_digit(text[i]) {
        v = grown(v, text[i]);
        i += 1;
    }
    Numeral {
        size: v,
        to: Spot {
            at: i,
            state: first.to.state,
        },
    }
}

// The place behind a comment, of which one parenthesis has been read; the text's end where the comment does not close, or holds what no comment may.
fn after_comment(text: &[u8], recogniser: &grammar::Recogniser, q: usize, from: usize) -> usize
    requires q_lt_state_count { (q < state_count) × (1 ≤ from) × (from ≤ length text.now) }
    ensures { Closes text.now q from result }
{
    let mut d: usize = 1;
    for i in from..text.len() {
        let m = grammar::step(recogniser, q, d, text[i]);
        if m.state == grammar::tables::STUCK {
            return text.len();
        }
        d = m.depth;
        if d == 0 {
            return i + 1;
        }
    }
    text.len()
}

// The letter that begins the next piece of any bytes from a spot on. Blanks and user text are passed over; where the text leaves the grammar it has no
// more pieces. Outside comments one entry of the table says all of a byte, and only a command that is a comment goes another way.
pub fn next_mark(text: &[u8], recogniser: &grammar::Recogniser, from: Spot) -> Begun
    requires fit { Fit text.now from }
    ensures { Begins text.now from result }
{
    let mut q = from.state;
    let mut p = from.at;
    for i in from.at..text.len() {
        let b = text[i];
        let e = grammar::entry_at(recogniser, q, b);
        let s = e % grammar::tables::ROLE_UNIT;
        let mark = e / grammar::tables::ROLE_UNIT;
        let j = i + 1;
        if grammar::tables::DEEP <= s {
            if s == grammar::tables::STUCK {
                return nothing(i, q);
            }
            let state = s - grammar::tables::DEEP;
            let at = after_comment(text, recogniser, state, j);
            return Begun {
                mark,
                byte: b,
                at: i,
                place: i,
                to: Spot { at, state },
            };
        }
        if grammar::tables::LEAD <= mark {
            return Begun {
                mark,
                byte: b,
                at: i,
                place: p,
                to: Spot { at: j, state: s },
            };
        }
        p = next_place(mark, i);
        q = s;
    }
    nothing(text.len(), q)
}
