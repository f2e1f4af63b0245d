// Command lines written into a lent room (RULES 11), over the bytes and numbers of crate digits: like these, every function gives back the next
// place, exact whatever the room.
#![tactic(auto)]

ghost use Rattle.std.specs.Prelude.{◌≡◌, ◌∷◌, [], ◌+◌, ◌*◌, ◌^◌, ◌<◌, ◌≤◌, IsTrue, length};
ghost use Rattle.definition.specs.Flat.{decimal, spaced, line};
ghost use Rattle.digits.specs.Writes.{Writes};
ghost use Rattle.pen.specs.Lines.{space, number, layer_line};
ghost use Rattle.pen.specs.Names.{name_of};

// What letters count in a packed name, which has 32 bits.
const FIRST_UNIT: u32 = names::FIRST_UNIT as u32;

const BYTE_UNIT: u32 = names::BYTE_UNIT as u32;

// A byte of a line. Where all of the line surely lies within the room (`SURE`), it is stored without a test.
fn write_byte<const SURE: bool>(room: &mut [u8], at: usize, byte: u8) -> usize
    requires { (at ≤ 2 ^ 60) × (IsTrue SURE → at < length room.old) }
    ensures { Writes room.old room.new at result (byte ∷ []) }
{
    if SURE {
        return digits::lay(room, at, byte);
    }
    digits::put(room, at, byte)
}

fn write_decimal<const SURE: bool>(room: &mut [u8], at: usize, z: i64) -> usize
    requires { (at ≤ 2 ^ 61) × (IsTrue SURE → at + 20 ≤ length room.old) }
    ensures { Writes room.old room.new at result (decimal z) }
{
    if SURE {
        return digits::lay_decimal(room, at, z);
    }
    digits::put_decimal(room, at, z)
}

// A space stands before every number but a line's first.
fn write_space<const SURE: bool>(room: &mut [u8], at: usize, first: bool) -> usize
    requires { (at ≤ 2 ^ 60) × (IsTrue SURE → at < length room.old) }
    ensures { Writes room.old room.new at result (space first) }
{
    if first {
        return at;
    }
    write_byte::<SURE>(room, at, b' ')
}

fn write_number<const SURE: bool>(room: &mut [u8], at: usize, first: bool, z: i64) -> usize
    requires { (at ≤ 2 ^ 60) × (IsTrue SURE → at + 21 ≤ length room.old) }
    ensures { Writes room.old room.new at result (number first z) }
{
    let next = write_space::<SURE>(room, at, first);
    write_decimal::<SURE>(room, next, z)
}

// A number has 21 bytes at most with its space.
fn write_numbers<const SURE: bool>(room: &mut [u8], start: usize, numbers: &[i64]) -> usize
    requires bounds { (start ≤ 2 ^ 59) × (length numbers.now ≤ 2 ^ 50) }
    requires fits { IsTrue SURE → start + 21 * length numbers.now < length room.old }
    ensures writes { Writes room.old room.new start result (spaced numbers.now) }
    ensures upper_bound { result ≤ start + 21 * length numbers.now }
{
    let mut at = start;
    for (i, z) in numbers.iter().enumerate() {
        at = write_number::<SURE>(room, at, i == 0, *z);
    }
    at
}

fn write_line<const SURE: bool>(room: &mut [u8], at: usize, letter: u8, numbers: &[i64]) -> usize
    requires bounds { (at ≤ 2 ^ 58) × (length numbers.now ≤ 2 ^ 50) }
    requires fits { IsTrue SURE → at + 21 * length numbers.now + 3 ≤ length room.old }
    ensures writes { Writes room.old room.new at result (line letter (spaced numbers.now)) }
    ensures upper_bound { result ≤ at + 21 * length numbers.now + 3 }
{
    let first = write_byte::<SURE>(room, at, letter);
    let next = write_numbers::<SURE>(room, first, numbers);
    let last = write_byte::<SURE>(room, next, b';');
    write_byte::<SURE>(room, last, 10)
}

pub fn put_number(room: &mut [u8], at: usize, first: bool, z: i64) -> usize
    requires { at ≤ 2 ^ 60 }
    ensures { Writes room.old room.new at result (number first z) }
{
    write_number::<false>(room, at, first, z)
}

pub fn put_numbers(room: &mut [u8], start: usize, numbers: &[i64]) -> usize
    requires { (start ≤ 2 ^ 59) × (length numbers.now ≤ 2 ^ 50) }
    ensures writes { Writes room.old room.new start result (spaced numbers.now) }
    ensures upper_bound { result ≤ start + 21 * length numbers.now }
{
    write_numbers::<false>(room, start, numbers)
}

pub fn put_end_of_line(room: &mut [u8], at: usize) -> usize
    requires { at ≤ 2 ^ 60 }
    ensures { Writes room.old room.new at result (59 ∷ 10 ∷ []) }
{
    let next = digits::put(room, at, b';');
    digits::put(room, next, 10)
}

fn number_length(first: bool, z: i64) -> usize
    ensures { result ≡ length (number first z) }
{
    let own = digits::decimal_length(z);
    if first {
        return own;
    }
    own + 1
}

// Where numbers written from a place on end: nothing is stored, and no room looked at.
fn measure_numbers(start: usize, numbers: &[i64]) -> usize
    requires { (start ≤ 2 ^ 59) × (length numbers.now ≤ 2 ^ 50) }
    ensures { (result ≡ start + length (spaced numbers.now)) × (result ≤ start + 21 * length numbers.now) }
{
    let mut at = start;
    for (i, z) in numbers.iter().enumerate() {
        at += number_length(i == 0, *z);
    }
    at
}

// A shape's line: its letter and its final numbers in written order, a box's direction among them. In a room that ends before it, as in a drawing that measures,
// it is only measured; where it surely fits, a number having 21 bytes at most with its space, it is stored without tests.
pub fn put_line(room: &mut [u8], at: usize, letter: u8, numbers: &[i64]) -> usize
    requires { (at ≤ 2 ^ 58) × (length numbers.now ≤ 2 ^ 50) }
    ensures writes { Writes room.old room.new at result (line letter (spaced numbers.now)) }
    ensures upper_bound { result ≤ at + 21 * length numbers.now + 3 }
{
    if room.len() <= at {
        return measure_numbers(at, numbers) + 3;
    }
    if 21 * numbers.len() + 3 <= room.len() - at {
        return write_line::<true>(room, at, letter, numbers);
    }
    write_line::<false>(room, at, letter, numbers)
}

// A packed name's bytes, from the highest on until only zeros are left.
// (A `while`: it goes through what is left of a number, and over no index or element.)
pub fn put_name(room: &mut [u8], start: usize, name: u32) -> usize
    requires { start ≤ 2 ^ 60 }
    ensures { Writes room.old room.new start result (name_of name) }
{
    let mut at = start;
    let mut rest = name;
    while rest != 0 {
        at = digits::put(room, at, (rest / FIRST_UNIT) as u8);
        rest = rest % FIRST_UNIT * BYTE_UNIT;
    }
    at
}

// The L line before a shape, where its layer differs from that of the shape before. Both are packed names; before the first shape it is 0.
pub fn put_layer_line(room: &mut [u8], at: usize, before: u32, layer: u32) -> usize
    requires { at ≤ 2 ^ 59 }
    ensures { Writes room.old room.new at result (layer_line (name_of before) (name_of layer)) }
{
    if before == layer {
        return at;
    }
    let first = digits::put(room, at, b'L');
    let last = put_name(room, first, layer);
    put_end_of_line(room, last)
}

// The last line.
pub fn put_end(room: &mut [u8], at: usize) -> usize
    requires { at ≤ 2 ^ 60 }
    ensures { Writes room.old room.new at result (69 ∷ 10 ∷ []) }
{
    let last = digits::put(room, at, b'E');
    digits::put(room, last, 10)
}
