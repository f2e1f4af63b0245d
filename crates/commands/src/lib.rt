// One command of a CIF text decoded to words: its kind, its place, and its numbers after scaling, with what is left out filled in. `read_command` takes
// any bytes: where a text leaves the grammar it has no more pieces, and so no more commands. Which numbers these are is proved in reading, above.
#![tactic(auto)]

ghost use Rattle.std.specs.Prelude.{◌≡◌, false, [], ◌∷◌, ◌+◌, ◌*◌, ◌<◌, ◌≤◌};
ghost use Rattle.pieces.specs.Pieces.{too_large, Fit};
ghost use Rattle.rules.specs.Letters.{byte_unit, first_unit};
ghost use Rattle.commands.specs.Words.{widest, held, word, value_of, letter_words, closing, kind_by, Writes, Lined, line_number, line_letter, Closed, outmost, ReadsCommand, ReadsItems};

// The largest number that a word holds.
const WIDEST: usize = 2_147_483_647;

// The command that is being decoded: where its next word goes, its last letter, how many numbers it has had, what its next letter counts in its
// name, and its name.
#[derive(Clone, Copy)]
pub struct Line {
    pub at: usize,
    pub word: u8,
    pub count: usize,
    pub unit: usize,
    pub name: usize,
}

// A decoded command: its kind, its place, how many words it has, and where the next begins.
#[derive(Clone, Copy)]
pub struct Decoded {
    pub kind: u8,
    pub place: usize,
    pub end: usize,
    pub to: pieces::Spot,
}

#[tactic(auto, unfolding(crate::specs::Words::held))]
fn held_of(n: usize) -> usize
    ensures { (result ≡ held n) × (result ≤ widest) }
{
    n.min(WIDEST)
}

fn word_of(minus: bool, n: usize) -> i32
    ensures { result ≡ word minus n }
{
    let v = held_of(n) as i32;
    if minus { -v } else { v }
}

// A word past the end of the run is dropped, and counted all the same: so a run of no words measures.
fn put_word(words: &mut [i32], at: usize, minus: bool, n: usize) -> usize
    requires { at ≤ outmost }
    ensures { Writes words.old at (word minus n ∷ []) result words.new }
{
    if at < words.len() {
        words[at] = word_of(minus, n);
    }
    at + 1
}

fn put_two(words: &mut [i32], at: usize, x: usize, y: usize) -> usize
    requires { at < outmost }
    ensures { Writes words.old at (word false x ∷ word false y ∷ []) result words.new }
{
    let m = put_word(words, at, false, x);
    put_word(words, m, false, y)
}

#[tactic(auto, unfolding(crate::specs::Words::letter_words))]
fn put_letter(words: &mut [i32], at: usize, letter: u8, x: u8) -> usize
    requires { at ≤ outmost }
    ensures { Writes words.old at (letter_words letter x) result words.new }
{
    if letter == b'C' && x != b'M' {
        put_word(words, at, false, x as usize)
    } else {
        at
    }
}

// What a command's end adds: a layer's name, a box's direction and a definition's scale where they are left out.
#[tactic(auto, unfolding(crate::specs::Words::closing))]
fn put_closing(
    words: &mut [i32],
    at: usize,
    letter: u8,
    word: u8,
    count: usize,
    name: usize,
) -> usize
    requires { at < outmost }
    ensures { Writes words.old at (closing letter word count name) result words.new }
{
    match (letter, word, count) {
        (b'L', _, _) => put_word(words, at, false, name),
        (b'B', _, 4) => put_two(words, at, 1, 0),
        (b'D', b'S', 1) => put_two(words, at, 1, 1),
        _ => at,
    }
}

fn line_number(
    words: &mut [i32],
    c: Line,
    a: usize,
    b: usize,
    letter: u8,
    minus: bool,
    n: usize,
) -> Line
    requires a_le_too_large { (a ≤ too_large) × (1 ≤ b) × (n ≤ too_large) }
    requires at_lt_outmost { (c.at < outmost) × (c.count < outmost) }
    ensures { Lined words.old c.at (value_of a b letter c.word c.count minus n ∷ []) (line_number c) result words.new }
{
    let v = rules::scaled(a, b, letter, c.word, c.count, n);
    Line {
        at: put_word(words, c.at, minus, v.value),
        count: c.count + 1,
        ..c
    }
}

fn line_letter(words: &mut [i32], c: Line, letter: u8, x: u8) -> Line
    requires { (c.at < outmost) × (c.name + byte_unit * c.unit ≤ byte_unit * first_unit) }
    ensures { Lined words.old c.at (letter_words letter x) (line_letter letter c x) result words.new }
{
    Line {
        at: put_letter(words, c.at, letter, x),
        word: x,
        unit: c.unit / names::BYTE_UNIT,
        name: names::longer_name(c.name, c.unit, x),
        ..c
    }
}

fn kind_by(letter: u8, word: u8) -> u8
    ensures { result ≡ kind_by letter word }
{
    if letter == b'D' { word } else { letter }
}

fn close(words: &mut [i32], letter: u8, place: usize, c: Line, to: pieces::Spot) -> Decoded
    requires { (2 ≤ c.at) × (c.at + 1 < outmost) }
    ensures { Closed words.old letter place c to result words.new }
{
    let end = put_closing(words, c.at, letter, c.word, c.count, c.name);
    let n = held_of(end - 2);
    let kind = kind_by(letter, c.word);
    put_two(words, 0, kind as usize + names::BYTE_UNIT * n, place);
    Decoded {
        kind,
        place,
        end,
        to,
    }
}

// The rest of a command behind its first letter. The two words in front are written when the rest is counted.
fn read_items(
    text: &[u8],
    recogniser: &grammar::Recogniser,
    words: &mut [i32],
    from: pieces::Spot,
    place: usize,
    letter: u8,
    a: usize,
    b: usize,
) -> Decoded
    requires fit { Fit text.now from × (a ≤ too_large) × (1 ≤ b) }
    ensures { ReadsItems text.now from place letter a b words.old result words.new }
{
    let mut spot = from;
    // two words stand in front: the kind with the count, and the place
    let mut c = Line {
        at: 2,
        word: 0,
        count: 0,
        unit: names::FIRST_UNIT,
        name: 0,
    };
    loop {
        let m = pieces::next_mark(text, recogniser, spot);
        let mark = m.mark;
        if mark == grammar::tables::LEAD {
            let minus = m.place < m.at;
            let n = pieces::read_number(text, m);
            c = line_number(words, c, a, b, letter, minus, n.size);
            spot = n.to;
        } else if grammar::tables::HEAD < mark {
            c = line_letter(words, c, letter, m.byte);
            spot = m.to;
        } else if mark == grammar::tables::STOP {
            return close(words, letter, place, c, m.to);
        } else {
            return close(words, letter, place, c, spot);
        }
    }
}

// The first command from a spot on, at the scale a, b, laid out in the run; none where no command is left.
pub fn read_command(
    text: &[u8],
    recogniser: &grammar::Recogniser,
    words: &mut [i32],
    from: pieces::Spot,
    a: usize,
    b: usize,
) -> Option<Decoded>
    requires fit { Fit text.now from × (a ≤ too_large) × (1 ≤ b) }
    ensures { ReadsCommand text.now from a b words.old result words.new }
{
    let mut spot = from;
    loop {
        let m = pieces::next_mark(text, recogniser, spot);
        let mark = m.mark;
        if mark == grammar::tables::SKIP {
            return None;
        }
        if mark == grammar::tables::HEAD {
            return Some(read_items(text, recogniser, words, m.to, m.at, m.byte, a, b));
        }
        spot = m.to;
    }
}
