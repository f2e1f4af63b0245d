// The check of a CIF text's commands by a running account: `checked` finds the first of refusals 3 to 9 in one pass. It takes any bytes: where a text
// leaves the grammar it has no more pieces, and so no more commands. That the account is the definition's is proved in reading, above.
#![tactic(auto)]

ghost use Rattle.std.specs.Prelude.{◌≡◌, false, ◌+◌, ◌≤◌};
ghost use Rattle.pieces.specs.Pieces.{farthest, too_large, stream, start};
ghost use Rattle.rules.specs.Written.{turning, one};
ghost use Rattle.checking.specs.Account.{layer_of, scope, at_start};
ghost use Rattle.checking.specs.Along.{lower, blamed, kept, fresh, idle, counted, worded, after_doing, finished, runs, Fair, Sane};

use definition::Refusal;

// What stands between commands: whether a definition is open, its scale, and the layers set outside and inside, packed, 0 for none: no name packs to 0,
// and the account goes by these numbers, so an Option would only be turned into one where it is asked.
#[derive(Clone, Copy)]
pub struct Scope {
    pub inside: bool,
    pub a: usize,
    pub b: usize,
    pub outer: usize,
    pub inner: usize,
}

// The command that is being checked: its place and first letter, its last letter, how many numbers it has had and whether the last was 0, its
// transformations, what its next letter counts in its name, its second and third number, its name, its lowest refusal so far with the place, and how many
// distances of the text are rounded so far. Between commands, where `busy` is false, the count of rounded distances goes on, so this is no Option.
#[derive(Clone, Copy)]
pub struct Doing {
    pub busy: bool,
    pub place: usize,
    pub letter: u8,
    pub word: u8,
    pub count: usize,
    pub zero: bool,
    pub turns: usize,
    pub unit: usize,
    pub a: usize,
    pub b: usize,
    pub name: usize,
    pub no: usize,
    pub at: usize,
    pub rounded: usize,
}

// Of two refusals of a command the lower, and of equals the one before.
fn lower_of(k: usize, before: usize) -> usize
    ensures { result ≡ lower k before }
{
    if k < before { k } else { before }
}

// Where the lower of two refusals is placed: 7 at the command, any other at its number.
fn blamed_at(k: usize, n: usize, here: usize, place: usize, at: usize) -> usize
    ensures { result ≡ blamed k n here place at }
{
    if k < n {
        if k == 7 { place } else { here }
    } else {
        at
    }
}

fn keep(i: usize, k: usize, n: usize, old: usize) -> usize
    ensures { result ≡ kept i k n old }
{
    if i == k { n } else { old }
}

fn is_turning(b: u8) -> bool
    ensures { result ≡ turning b }
{
    matches!(b, b'T' | b'M' | b'R')
}

fn more_turns(turns: usize, b: u8) -> usize
    requires { turns ≤ farthest }
    ensures { result ≡ turns + one (turning b) }
{
    if is_turning(b) { turns + 1 } else { turns }
}

#[tactic(auto, unfolding(crate::specs::Along::fresh))]
fn new_command(busy: bool, place: usize, letter: u8, rounded: usize) -> Doing
    ensures { result ≡ fresh busy place letter rounded }
{
    Doing {
        busy,
        place,
        letter,
        word: 0,
        count: 0,
        zero: false,
        turns: 0,
        unit: names::FIRST_UNIT,
        a: 1,
        b: 1,
        name: 0,
        no: rules::NO_REFUSAL,
        at: 0,
        rounded,
    }
}

#[tactic(auto, unfolding(crate::specs::Along::counted))]
fn add_number(s: Scope, c: Doing, p: usize, n: usize) -> Doing
    requires { Fair s × Sane farthest c × (n ≤ too_large) }
    ensures { result ≡ counted s c p n }
{
    let v = rules::scaled(s.a, s.b, c.letter, c.word, c.count, n);
    let k = rules::number_no(c.letter, c.word, c.count, c.zero, n, v.value);
    Doing {
        count: c.count + 1,
        zero: n == 0,
        a: keep(c.count, 1, n, c.a),
        b: keep(c.count, 2, n, c.b),
        no: lower_of(k, c.no),
        at: blamed_at(k, c.no, p, c.place, c.at),
        rounded: c.rounded + v.rounded,
        ..c
    }
}

#[tactic(auto, unfolding(crate::specs::Along::worded))]
fn add_letter(c: Doing, w: u8) -> Doing
    requires { Sane farthest c }
    ensures { result ≡ worded c w }
{
    Doing {
        word: w,
        turns: more_turns(c.turns, w),
        unit: c.unit / names::BYTE_UNIT,
        name: names::longer_name(c.name, c.unit, w),
        ..c
    }
}

fn layer_now(s: Scope) -> usize
    ensures { result ≡ layer_of s }
{
    if s.inside { s.inner } else { s.outer }
}

// Outside of any definition.
fn outside(outer: usize) -> Scope
    ensures { result ≡ scope false 1 1 outer 0 }
{
    Scope {
        inside: false,
        a: 1,
        b: 1,
        outer,
        inner: 0,
    }
}

// What stands after a command: DS opens a definition with no layer set, DF closes it, L sets a layer where it stands.
fn after_command(s: Scope, c: Doing) -> Scope
    ensures { result ≡ after_doing s c }
{
    match (c.letter, c.word) {
        (b'D', b'S') => Scope {
            inside: true,
            a: c.a,
            b: c.b,
            inner: 0,
            ..s
        },
        (b'D', b'F') => outside(s.outer),
        (b'L', _) if s.inside => Scope { inner: c.name, ..s },
        (b'L', _) => Scope { outer: c.name, ..s },
        _ => s,
    }
}

// How a command ends: what stands then, or its refusal.
#[tactic(auto, unfolding(crate::specs::Along::finished))]
fn finish(s: Scope, c: Doing) -> Result<Scope, Refusal>
    ensures { result ≡ finished s c }
{
    if !c.busy {
        return Ok(s);
    }
    let k = rules::whole_no(c.letter, c.word, c.count, c.turns, c.a, c.b, layer_now(s));
    if k < c.no {
        return Err(Refusal {
            rule: rules::rule_of(k),
            place: c.place,
        });
    }
    if c.no < rules::NO_REFUSAL {
        return Err(Refusal {
            rule: rules::rule_of(c.no),
            place: c.at,
        });
    }
    Ok(after_command(s, c))
}

// What is said of a text: nothing against it, and how many of its distances are rounded; or its first refusal.
pub fn checked(text: &[u8], recogniser: &grammar::Recogniser) -> Result<usize, Refusal>
    ensures { result ≡ runs (stream text.now start) at_start (idle 0) }
{
    let mut spot = pieces::Spot { at: 0, state: 0 };
    let mut s = outside(0);
    let mut c = new_command(false, 0, 0, 0);
    loop {
        let m = pieces::next_mark(text, recogniser, spot);
        let mark = m.mark;
        if mark == grammar::tables::LEAD {
            let n = pieces::read_number(text, m);
            c = add_number(s, c, m.place, n.size);
            spot = n.to;
        } else if grammar::tables::HEAD < mark {
            c = add_letter(c, m.byte);
            spot = m.to;
        } else {
            s = finish(s, c)?;
            if mark == grammar::tables::SKIP {
                return Ok(c.rounded);
            }
            spot = m.to;
            if mark == grammar::tables::HEAD {
                c = new_command(true, m.at, m.byte, c.rounded);
            } else {
                c = new_command(false, 0, 0, c.rounded);
            }
        }
    }
}
