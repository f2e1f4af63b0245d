// Bodies kept as decoded words in one lent run, and the rows that tell where each stands, five numbers to a row in another. Room of replaced and
// deleted bodies is used again: when the run is full, the live bodies are moved together.
#![tactic(auto)]

ghost use Rattle.std.specs.Prelude.{◌≡◌, ℕ, ◌+◌, ◌*◌, ◌<◌, ◌≤◌, ◌^◌, List, ℤ, pos, length, get_or, set, replicate};
ghost use Rattle.library.specs.Memory.{row_numbers, most, symbol_at, start_at, length_at, needed_at, needed_in};
ghost use Rattle.library.specs.Rows.{Sorted, Nearest, Parted, Finds, Forgets, Shifted, with_row, Begins};
ghost use Rattle.library.specs.Storing.{start_of, extended, layer_words, Relayered, Storable, Stores};
ghost use Rattle.library.specs.Clearing.{Cleared};
ghost use Rattle.library.specs.Moving.{Laid, Moved, Numbered, Tagged, Owns, Settled, Compacted};

// The most live definitions that there can be, and the numbers of their rows.
pub const MOST: usize = definition::MOST_DEFINITIONS;

pub const ROW_NUMBERS: usize = 2560;
// A row's numbers: how many they are, and where those after its symbol stand.
const PER_ROW: usize = 5;

const PLACE: usize = 1;

const START: usize = 2;

const LENGTH: usize = 3;

const NEEDED: usize = 4;
// How many words are cleared at a time. A compiler makes one `memset` of a loop over all, and from 2 KiB on a C library has that done by `rep stosb` where
// the processor says that it is quick: an emulator says so too, and then takes ten times as long, byte by byte (docs/SPEED.md).
const PART: usize = 256;
// How many words are moved at a time.
const AT_ONCE: usize = 4;
// The words of an L command.
pub const LAYER_WORDS: usize = 3;

// How a definition was begun: its row, instead of one of its number, with the words which that needed, or beside the others.
#[derive(Clone, Copy)]
pub enum Begun {
    Replaced(usize, usize),
    Added(usize),
}

// The number of a row.
fn symbol_at(rows: &[usize; ROW_NUMBERS], i: usize) -> usize
    requires { i < most }
    ensures { result ≡ symbol_at rows.now i }
{
    rows[PER_ROW * i]
}

// Where the body of a row starts, how many words are stored of it, and how many its definition needs.
pub fn start_at(rows: &[usize; ROW_NUMBERS], i: usize) -> usize
    requires { i < most }
    ensures { result ≡ start_at rows.now i }
{
    rows[PER_ROW * i + START]
}

pub fn length_at(rows: &[usize; ROW_NUMBERS], i: usize) -> usize
    requires { i < most }
    ensures { result ≡ length_at rows.now i }
{
    rows[PER_ROW * i + LENGTH]
}

pub fn needed_at(rows: &[usize; ROW_NUMBERS], i: usize) -> usize
    requires { i < most }
    ensures { result ≡ needed_at rows.now i }
{
    rows[PER_ROW * i + NEEDED]
}

// Moves four words down. All are read before one is written, so a compiler may move them as one, however near the two places are.
fn move_four(bodies: &mut [i32], from: usize, to: usize)
    requires { (to ≤ from) × (from + 4 ≤ length bodies.old) }
    ensures { Moved bodies.old from to 4 bodies.new }
{
    let a = bodies[from];
    let b = bodies[from + 1];
    let c = bodies[from + 2];
    let d = bodies[from + 3];
    bodies[to] = a;
    bodies[to + 1] = b;
    bodies[to + 2] = c;
    bodies[to + 3] = d;
}

// Moves words down, four at a time, while so many are left; how many. (A `while`, since each turn moves four, and how many were moved is the answer.)
fn move_fours(bodies: &mut [i32], from: usize, to: usize, n: usize) -> usize
    requires { (to ≤ from) × (from + n ≤ length bodies.old) }
    ensures { (result ≤ n) × Moved bodies.old from to result bodies.new }
{
    let mut k: usize = 0;
    while AT_ONCE <= n - k {
        move_four(bodies, from + k, to + k);
        k += AT_ONCE;
    }
    k
}

// Moves words down one at a time, from the first on, so that none is lost where the parts overlap.
fn move_singly(bodies: &mut [i32], from: usize, to: usize, n: usize)
    requires { (to ≤ from) × (from + n ≤ length bodies.old) }
    ensures { Moved bodies.old from to n bodies.new }
{
    for k in 0..n {
        bodies[to + k] = bodies[from + k];
    }
}

// Moves words down. What stands there already is left alone: the bodies before the first hole cost nothing, and a hole at the end is used again without a
// move.
fn move_down(bodies: &mut [i32], from: usize, to: usize, n: usize)
    requires { (to ≤ from) × (from + n ≤ length bodies.old) }
    ensures { Moved bodies.old from to n bodies.new }
{
    if from == to {
        return;
    }
    let k = move_fours(bodies, from, to, n);
    move_singly(bodies, from + k, to + k, n - k);
}

// ---- Bodies by their places. To sort the rows by place each time would cost more than to move short bodies. So the first word of each body makes way for
// its row's number, and is noted: a walk over the run then meets the bodies in order, and puts their first words back.

// Puts the number of a row, if it has a body, in the place of that body's first word, which is noted.
fn number_row(rows: &[usize; ROW_NUMBERS], bodies: &mut [i32], firsts: &mut [i32], i: usize)
    requires { (i < most) × (length firsts.old ≡ most) × (0 < length_at rows.now i → start_at rows.now i < length bodies.old) }
    ensures { Numbered rows.now i bodies.old firsts.old bodies.new firsts.new }
{
    if length_at(rows, i) == 0 {
        return;
    }
    let at = start_at(rows, i);
    firsts[i] = bodies[at];
    bodies[at] = i as i32;
}

fn number_rows(rows: &[usize; ROW_NUMBERS], bodies: &mut [i32], firsts: &mut [i32], live: usize)
    requires { Laid rows.now live (length bodies.old) × (length firsts.old ≡ most) }
    ensures { Tagged rows.now bodies.old live 0 bodies.new firsts.new }
{
    for i in 0..live {
        number_row(rows, bodies, firsts, i);
    }
}

// The row whose body starts here: the row that the word here names, if its body does start here. In a hole stand words of any value; a word below 0, taken
// without its sign, is more than any row's number.
fn owner(rows: &[usize; ROW_NUMBERS], bodies: &[i32], live: usize, at: usize) -> Option<usize>
    requires { (live ≤ most) × (at < length bodies.now) }
    ensures { Owns rows.now bodies.now live at result }
{
    let i = bodies[at].cast_unsigned() as usize;
    (i < live && 0 < length_at(rows, i) && start_at(rows, i) == at).then_some(i)
}

// A body gets its first word back and is moved down, and its row says so; how many words it has.
fn settle(
    rows: &mut [usize; ROW_NUMBERS],
    bodies: &mut [i32],
    i: usize,
    at: usize,
    to: usize,
    first: i32,
) -> usize
    requires { (i < most) × (length rows.old ≡ row_numbers) × (to ≤ at) × (0 < length_at rows.old i) × (at + length_at rows.old i ≤ length bodies.old) }
    ensures { Settled rows.old bodies.old i at to first result rows.new bodies.new }
{
    let n = length_at(rows, i);
    bodies[at] = first;
    move_down(bodies, at, to, n);
    rows[PER_ROW * i + START] = to;
    n
}

// Meets the bodies of numbered rows in the order of their places, and moves each down to those before it; how many words they have. (A `while`, since it
// goes on by a word of a hole or by a whole body.)
fn walk(rows: &mut [usize; ROW_NUMBERS], bodies: &mut [i32], live: usize, firsts: &[i32]) -> usize
    requires { (b : List ℤ) × Laid rows.old live (length b) × Tagged rows.old b live 0 bodies.old firsts.now }
    ensures { (b : List ℤ) → Laid rows.old live (length b) → Tagged rows.old b live 0 bodies.old firsts.now → Compacted rows.old b live result rows.new bodies.new }
{
    let mut to: usize = 0;
    let mut at: usize = 0;
    while at < bodies.len() {
        match owner(rows, bodies, live, at) {
            Some(i) => {
                let n = settle(rows, bodies, i, at, to, firsts[i]);
                to += n;
                at += n;
            }
            None => {
                at += 1;
            }
        }
    }
    to
}

// Moves the live bodies together, the lowest first; how many words they have. It costs so much for each live row, for each word of a hole and for each word
// that is moved.
pub fn compact(rows: &mut [usize; ROW_NUMBERS], bodies: &mut [i32], live: usize) -> usize
    requires { Laid rows.old live (length bodies.old) }
    ensures { Compacted rows.old bodies.old live result rows.new bodies.new }
{
    let mut firsts = [0i32; MOST];
    number_rows(rows, bodies, &mut firsts, live);
    walk(rows, bodies, live, &firsts)
}

// The last row whose number is at most the symbol, or 0, by halves: a live number stands there or nowhere. It is one of the `reach` rows from `at` on;
// `reach` goes through 512, 256, .. 2, so that this takes nine comparisons. (A `while`, since the reach is halved and not counted.)
fn nearest(rows: &[usize; ROW_NUMBERS], live: usize, symbol: usize) -> usize
    requires { Sorted rows.now live }
    ensures { Nearest rows.now live symbol result }
{
    let mut at: usize = 0;
    let mut reach: usize = MOST;
    while 1 < reach {
        let half = reach / 2;
        reach -= half;
        if at + half < live && symbol_at(rows, at + half) <= symbol {
            at += half;
        }
    }
    at
}

// The row of a number, if it is live (refusal 12 where it is not): nine comparisons to come to the nearest number, one to see whether it is this.
#[tactic(auto, unfolding(crate::specs::Rows::Finds))]
pub fn find(rows: &[usize; ROW_NUMBERS], live: usize, symbol: usize) -> Option<usize>
    requires { Sorted rows.now live }
    ensures { Finds rows.now live symbol result }
{
    let i = nearest(rows, live, symbol);
    (i < live && symbol_at(rows, i) == symbol).then_some(i)
}

// The first row whose number is not below this one, or `live`: that of the nearest number, or the one after it.
fn seek(rows: &[usize; ROW_NUMBERS], live: usize, symbol: usize) -> usize
    requires { Sorted rows.now live }
    ensures { Parted rows.now live symbol result }
{
    let i = nearest(rows, live, symbol);
    if i < live && symbol_at(rows, i) < symbol {
        return i + 1;
    }
    i
}

// How many rows are left when every entry of this number or more is removed (DD). What stands after them is room for others.
pub fn forget(rows: &[usize; ROW_NUMBERS], live: usize, symbol: usize) -> usize
    requires { Sorted rows.now live }
    ensures { Forgets rows.now live symbol result }
{
    seek(rows, live, symbol)
}

// How many words the definitions of some rows need, those that DD removes.
pub fn needed_between(rows: &[usize; ROW_NUMBERS], left: usize, live: usize) -> usize
    requires { (left ≤ live) × (live ≤ most) × (needed_in rows.now live < 2 ^ 64) }
    ensures { needed_in rows.now left + result ≡ needed_in rows.now live }
{
    let mut sum: usize = 0;
    for i in left..live {
        sum += needed_at(rows, i);
    }
    sum
}

// Where a part of the words ends that begins at `from`.
fn part_end(from: usize, n: usize) -> usize
    requires { from < n }
    ensures { (from < result) × (result ≤ n) }
{
    if n - from < PART {
        return n;
    }
    from + PART
}

fn clear_part(bodies: &mut [i32], from: usize, end: usize)
    requires { (from ≤ end) × (end ≤ length bodies.old) × Cleared bodies.old bodies.old from }
    ensures { Cleared bodies.old bodies.new end }
{
    for i in from..end {
        bodies[i] = 0;
    }
}

// Every word zero, a part at a time. (A `while`, since the last part may be shorter.)
pub fn clear(bodies: &mut [i32])
    ensures { bodies.new ≡ replicate (length bodies.old) (pos 0) }
{
    let mut i = 0;
    while i < bodies.len() {
        let end = part_end(i, bodies.len());
        clear_part(bodies, i, end);
        i = end;
    }
}

// Where a body starts that is to grow at `used`.
fn start_for(rows: &[usize; ROW_NUMBERS], i: usize, used: usize) -> usize
    requires { i < most }
    ensures { result ≡ start_of rows.now i used }
{
    if length_at(rows, i) == 0 {
        return used;
    }
    start_at(rows, i)
}

// The body of a row takes so many words more, which stand after those used.
pub fn extend(rows: &mut [usize; ROW_NUMBERS], i: usize, used: usize, n: usize)
    requires { (i < most) × (length_at rows.old i + n < 2 ^ 64) × (needed_at rows.old i + n < 2 ^ 64) }
    ensures { rows.new ≡ extended rows.old i used n }
{
    let start = start_for(rows, i, used);
    let more = length_at(rows, i) + n;
    let needed = needed_at(rows, i) + n;
    rows[PER_ROW * i + START] = start;
    rows[PER_ROW * i + LENGTH] = more;
    rows[PER_ROW * i + NEEDED] = needed;
}

// An L command that stands after the words used takes the place of the L command before it, which is idle. So the body stays as long as it is, and its
// definition needs the words of both.
pub fn replace_layer(rows: &mut [usize; ROW_NUMBERS], bodies: &mut [i32], i: usize, used: usize)
    requires { (i < most) × (layer_words ≤ used) × (used + layer_words ≤ length bodies.old) × (needed_at rows.old i + layer_words < 2 ^ 64) }
    ensures { Relayered rows.old bodies.old i used rows.new bodies.new }
{
    let both = needed_at(rows, i) + LAYER_WORDS;
    let to = used - LAYER_WORDS;
    move_down(bodies, used, to, LAYER_WORDS);
    rows[PER_ROW * i + NEEDED] = both;
}

// Keeps a command whose words stand after those used, in the place of the L command that it follows or after the last; how many words are used then.
#[tactic(auto, unfolding(crate::specs::Storing::Stores))]
pub fn store(
    rows: &mut [usize; ROW_NUMBERS],
    bodies: &mut [i32],
    i: usize,
    used: usize,
    n: usize,
    again: bool,
) -> usize
    requires { Storable rows.old bodies.old i used n again }
    ensures { Stores again rows.old bodies.old i used n rows.new bodies.new result }
{
    if again {
        replace_layer(rows, bodies, i, used);
        return used;
    }
    extend(rows, i, used, n);
    used + n
}

// Moves the rows from i on up by one, from the last number down.
fn shift(rows: &mut [usize; ROW_NUMBERS], live: usize, i: usize)
    requires { (i ≤ live) × (live < most) × (length rows.old ≡ row_numbers) }
    ensures { Shifted rows.old live i rows.new }
{
    for k in (PER_ROW * i..PER_ROW * live).rev() {
        rows[k + PER_ROW] = rows[k];
    }
}

fn put_row(rows: &mut [usize; ROW_NUMBERS], i: usize, symbol: usize, place: usize)
    requires { i < most }
    ensures { rows.new ≡ with_row rows.old i symbol place }
{
    rows[PER_ROW * i] = symbol;
    rows[PER_ROW * i + PLACE] = place;
    rows[PER_ROW * i + START] = 0;
    rows[PER_ROW * i + LENGTH] = 0;
    rows[PER_ROW * i + NEEDED] = 0;
}

// Begins a definition: its row is entered under its number, in the place of one of that number or between the others, with no body yet. None where 512
// others are live (refusal 10).
pub fn begin(
    rows: &mut [usize; ROW_NUMBERS],
    live: usize,
    symbol: usize,
    place: usize,
) -> Option<Begun>
    requires { Sorted rows.old live × (length rows.old ≡ row_numbers) }
    ensures { Begins rows.old live symbol place result rows.new }
{
    let i = seek(rows, live, symbol);
    if i < live && symbol_at(rows, i) == symbol {
        let freed = needed_at(rows, i);
        put_row(rows, i, symbol, place);
        return Some(Begun::Replaced(i, freed));
    }
    if live == MOST {
        return None;
    }
    shift(rows, live, i);
    put_row(rows, i, symbol, place);
    Some(Begun::Added(i))
}
