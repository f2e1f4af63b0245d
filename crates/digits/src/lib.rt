// Bytes and whole numbers written into a lent room (RULES 11). Nothing is stored past the room's end and the next place is exact all the same,
// so one drawing measures, on an empty room, and writes.
#![tactic(auto)]

ghost use Rattle.std.specs.Prelude.{◌≡◌, ◌∷◌, [], ◌+◌, ◌^◌, ◌<◌, ◌≤◌, min, length};
ghost use Rattle.definition.specs.Flat.{shortest, decimal};
ghost use Rattle.digits.specs.Writes.{Writes, sign};
ghost use Rattle.digits.specs.Tens.{tens, lasts, Raises, Wide};

pub fn put(room: &mut [u8], at: usize, byte: u8) -> usize
    requires { at ≤ 2 ^ 63 }
    ensures { Writes room.old room.new at result (byte ∷ []) }
{
    if at < room.len() {
        room[at] = byte;
        return at + 1;
    }
    at + 1
}

// Bytes as they are given, one after another.
pub fn put_word(room: &mut [u8], start: usize, word: &[u8]) -> usize
    requires { (start ≤ 2 ^ 60) × (length word.now ≤ 2 ^ 50) }
    ensures { Writes room.old room.new start result word.now }
{
    let mut at = start;
    for byte in word {
        at = put(room, at, *byte);
    }
    at
}

// A byte that surely lies within the room: no test.
pub fn lay(room: &mut [u8], at: usize, byte: u8) -> usize
    requires { at < length room.old }
    ensures { Writes room.old room.new at result (byte ∷ []) }
{
    room[at] = byte;
    at + 1
}

// Numbers below it have digits that fall out of one product of 64 bits: what no text has, but a reader may be asked to write, is written in parts.
const BILLION: u64 = 1_000_000_000;

// 2^57: in that product the next digit stands above it, and all that is left below.
const WHOLE: u64 = 144_115_188_075_855_872;

// How many digits a number has, and by what it is multiplied, so that the first of them stands above 2^57.
#[derive(Clone, Copy)]
struct Width {
    count: usize,
    unit: u64,
}

// The width of nine digits.
const NINE: Width = Width {
    count: 9,
    unit: 1_441_151_881,
};

// By comparisons alone: a division for each digit is dear.
fn width_of(n: u64) -> Width
    requires { n < 1000000000 }
    ensures { Wide n result.count result.unit }
{
    if n < 10 {
        return Width {
            count: 1,
            unit: 144_115_188_075_855_872,
        };
    }
    if n < 100 {
        return Width {
            count: 2,
            unit: 14_411_518_807_585_588,
        };
    }
    if n < 1_000 {
        return Width {
            count: 3,
            unit: 1_441_151_880_758_559,
        };
    }
    if n < 10_000 {
        return Width {
            count: 4,
            unit: 144_115_188_075_856,
        };
    }
    if n < 100_000 {
        return Width {
            count: 5,
            unit: 14_411_518_807_586,
        };
    }
    if n < 1_000_000 {
        return Width {
            count: 6,
            unit: 1_441_151_880_759,
        };
    }
    if n < 10_000_000 {
        return Width {
            count: 7,
            unit: 144_115_188_076,
        };
    }
    if n < 100_000_000 {
        return Width {
            count: 8,
            unit: 14_411_518_808,
        };
    }
    NINE
}

// So many digits, from the highest on, up to the lower of where they end and where the room ends, which is known to the caller. The product is a little too
// large, by less than one of the last digit.
fn store_short(room: &mut [u8], at: usize, stop: usize, n: u64, width: Width)
    requires width { Raises width.count width.unit × (n < tens width.count) }
    requires stop { stop ≡ min (at + width.count) (length room.old) }
    ensures { Writes room.old room.new at (at + width.count) (lasts width.count n) }
{
    let mut left = n * width.unit;
    for i in at..stop {
        room[i] = (48 + left / WHOLE) as u8;
        left = left % WHOLE * 10;
    }
}

// So many digits, as far as the room reaches.
fn put_short(room: &mut [u8], at: usize, n: u64, width: Width) -> usize
    requires { Raises width.count width.unit × (n < tens width.count) × (at ≤ 2 ^ 63) }
    ensures { Writes room.old room.new at result (lasts width.count n) }
{
    let end = at + width.count;
    store_short(room, at, end.min(room.len()), n, width);
    end
}

// A number of at most nine digits.
fn put_first(room: &mut [u8], at: usize, n: u64) -> usize
    requires { (n < 1000000000) × (at ≤ 2 ^ 63) }
    ensures { Writes room.old room.new at result (shortest n) }
{
    put_short(room, at, n, width_of(n))
}

// A number of ten digits or more: nine digits at a time, after the first of them.
fn put_long(room: &mut [u8], at: usize, n: u64) -> usize
    requires { (1000000000 ≤ n) × (at ≤ 2 ^ 62) }
    ensures { Writes room.old room.new at result (shortest n) }
{
    let high = n / BILLION;
    if high < BILLION {
        let next = put_first(room, at, high);
        return put_short(room, next, n % BILLION, NINE);
    }
    let next = put_first(room, at, high / BILLION);
    let last = put_short(room, next, high % BILLION, NINE);
    put_short(room, last, n % BILLION, NINE)
}

// From the highest digit on, straight into the room.
pub fn put_digits(room: &mut [u8], at: usize, n: u64) -> usize
    requires { at ≤ 2 ^ 62 }
    ensures { Writes room.old room.new at result (shortest n) }
{
    if n < BILLION {
        return put_first(room, at, n);
    }
    put_long(room, at, n)
}

// How many digits a number has, where they are only counted. No text has a number of nine digits: such a one may take its time.
pub fn digit_count(n: u64) -> usize
    ensures { result ≡ length (shortest n) }
{
    if n <= 9 {
        return 1;
    }
    if n <= 99 {
        return 2;
    }
    if n <= 999 {
        return 3;
    }
    if n <= 9_999 {
        return 4;
    }
    if n <= 99_999 {
        return 5;
    }
    if n <= 999_999 {
        return 6;
    }
    if n <= 9_999_999 {
        return 7;
    }
    if n <= 99_999_999 {
        return 8;
    }
    n.ilog10() as usize + 1
}

fn put_sign(room: &mut [u8], at: usize, z: i64) -> usize
    requires { at ≤ 2 ^ 61 }
    ensures { Writes room.old room.new at result (sign z) }
{
    if 0 <= z {
        return at;
    }
    put(room, at, b'-')
}

// The sign apart, so that the digits are written at one place in the code.
pub fn put_decimal(room: &mut [u8], at: usize, z: i64) -> usize
    requires { at ≤ 2 ^ 61 }
    ensures { Writes room.old room.new at result (decimal z) }
{
    let next = put_sign(room, at, z);
    put_digits(room, next, z.unsigned_abs())
}

// How many bytes a number has, where it is only measured.
pub fn decimal_length(z: i64) -> usize
    ensures { result ≡ length (decimal z) }
{
    let count = digit_count(z.unsigned_abs());
    if z < 0 {
        return count + 1;
    }
    count
}

// So many digits that surely lie within the room: no test.
fn lay_short(room: &mut [u8], at: usize, n: u64, width: Width) -> usize
    requires { Raises width.count width.unit × (n < tens width.count) × (at + width.count ≤ length room.old) }
    ensures { Writes room.old room.new at result (lasts width.count n) }
{
    let end = at + width.count;
    store_short(room, at, end, n, width);
    end
}

// A number whose first nine digits surely lie within the room: up to nine are stored without a test, and one digit without a product.
fn lay_digits(room: &mut [u8], at: usize, n: u64) -> usize
    requires { (at + 9 ≤ length room.old) × (at ≤ 2 ^ 62) }
    ensures { Writes room.old room.new at result (shortest n) }
{
    if n <= 9 {
        return lay(room, at, (48 + n) as u8);
    }
    if n < BILLION {
        return lay_short(room, at, n, width_of(n));
    }
    put_long(room, at, n)
}

// A number that surely lies within the room. A way for each sign is faster than one for both.
pub fn lay_decimal(room: &mut [u8], at: usize, z: i64) -> usize
    requires { (at + 20 ≤ length room.old) × (at ≤ 2 ^ 61) }
    ensures { Writes room.old room.new at result (decimal z) }
{
    if z < 0 {
        let first = lay(room, at, b'-');
        return lay_digits(room, first, z.unsigned_abs());
    }
    lay_digits(room, at, z.unsigned_abs())
}
