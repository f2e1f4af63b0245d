// The rules for one command of a CIF text, in refusals 3 to 9: the lowest that a number meets, and the lowest that a whole command meets; and what is
// scaled. They stand below both passes over a text, the check and the drawing, so that both go by the same rules.
#![tactic(auto)]

ghost use Rattle.std.specs.Prelude.{◌≡◌, not, ◌*◌, ◌%◌, ◌≤◌, eqb};
ghost use Rattle.definition.specs.Standing.{nearest};
ghost use Rattle.pieces.specs.Pieces.{too_large};
ghost use Rattle.rules.specs.Written.{one};
ghost use Rattle.rules.specs.Rules.{shapely, distance, scaled_by, rounded_by, scaled_to, vital, scaleless, few, bare, points_of, many, empty_no, number_refusal, whole_refusal, rule_of};

use definition::Rule;

// RULES 12, refusal 7.
const LEAST_POINTS: usize = 3;
// Above the refusals that a command can meet: none. The account keeps the lowest by its number, so no refusal is a number too, and the lower of two is one
// comparison; an Option<Rule> would be turned into a number for each.
pub const NO_REFUSAL: usize = 10;

// The rule of the lowest refusal that a command meets.
#[tactic(auto, unfolding(crate::specs::Rules::rule_of))]
pub fn rule_of(no: usize) -> Rule
    ensures { result ≡ rule_of no }
{
    match no {
        3 => Rule::NumberTooLarge,
        4 => Rule::ZeroFactor,
        6 => Rule::ScaledTooLarge,
        7 => Rule::DegenerateCommand,
        8 => Rule::NoLayer,
        _ => Rule::TooManyParts,
    }
}

// The letters of shapes: B, P, R and W.
#[tactic(auto, unfolding(crate::specs::Rules::shapely))]
pub fn is_shape(letter: u8) -> bool
    ensures { result ≡ shapely letter }
{
    matches!(letter, b'B' | b'P' | b'R' | b'W')
}

// What is scaled: all but symbol numbers, a and b, and the directions of boxes and of R.
#[tactic(auto, unfolding(crate::specs::Rules::distance))]
pub fn is_distance(letter: u8, word: u8, index: usize) -> bool
    ensures { result ≡ distance letter word index }
{
    match letter {
        b'B' => index < 4,
        b'C' => word == b'T',
        _ => is_shape(letter),
    }
}

// A number at a scale: its value, and 1 if it was rounded, else 0: it is added up, and the wrong program that counts one twice is tried here
// (must-fail/rounded_down_counted_twice).
#[derive(Clone, Copy)]
pub struct AtScale {
    pub value: usize,
    pub rounded: usize,
}

fn scaled_to(value: usize, rounded: usize) -> AtScale
    ensures { result ≡ scaled_to value rounded }
{
    AtScale { value, rounded }
}

// A distance at a scale, to the nearest whole number, halves away from zero (RULES 6, request 2). Here alone a number is divided, once, for the check and for the
// drawing; what the division leaves is held against what is missing to the next whole number, so that nothing is doubled.
#[tactic(auto, using(crate::proofs::Scaling::product_fits, crate::proofs::Scaling::scaled_evenly, crate::proofs::Scaling::scaled_down, crate::proofs::Scaling::scaled_up))]
fn scaled_distance(a: usize, b: usize, n: usize) -> AtScale
    requires { (a ≤ too_large) × (1 ≤ b) × (n ≤ too_large) }
    ensures { result ≡ scaled_to (nearest (a * n) b) (one (not (eqb (a * n % b) 0))) }
{
    let x = a * n;
    let below = x / b;
    let rest = x - below * b;
    if rest == 0 {
        scaled_to(below, 0)
    } else if rest < b - rest {
        scaled_to(below, 1)
    } else {
        scaled_to(below + 1, 1)
    }
}

// A number at a scale. At a = b, and so outside definitions, nothing is divided.
#[tactic(auto, using(crate::proofs::Scaling::scaled_equal, crate::proofs::Scaling::scaled_distant, crate::proofs::Scaling::scaled_other))]
pub fn scaled(a: usize, b: usize, letter: u8, word: u8, index: usize, n: usize) -> AtScale
    requires { (a ≤ too_large) × (1 ≤ b) × (n ≤ too_large) }
    ensures { result ≡ scaled_to (scaled_by a b letter word index n) (rounded_by a b letter word index n) }
{
    if a != b && is_distance(letter, word, index) {
        scaled_distance(a, b, n)
    } else {
        scaled_to(n, 0)
    }
}

// What may not be 0: a length, a width, a diameter, or the second number of a direction whose first is 0.
#[tactic(auto, unfolding(crate::specs::Rules::vital))]
fn is_vital(letter: u8, word: u8, index: usize, zero: bool) -> bool
    ensures { result ≡ vital letter word index zero }
{
    match letter {
        b'B' => index < 2 || (index == 5 && zero),
        b'C' => word == b'R' && index % 2 == 0 && zero,
        _ => index == 0 && matches!(letter, b'R' | b'W'),
    }
}

fn empty_no(letter: u8, word: u8, index: usize, zero: bool, n: usize) -> usize
    ensures { result ≡ empty_no letter word index zero n }
{
    if n == 0 && is_vital(letter, word, index, zero) {
        7
    } else {
        NO_REFUSAL
    }
}

// The lowest refusal that a number of size n meets, which is v after scaling.
#[tactic(auto, unfolding(crate::specs::Rules::number_refusal))]
pub fn number_no(letter: u8, word: u8, index: usize, zero: bool, n: usize, v: usize) -> usize
    ensures { result ≡ number_refusal letter word index zero n v }
{
    if definition::LARGEST < n {
        return 3;
    }
    if definition::LARGEST < v {
        return 6;
    }
    empty_no(letter, word, index, zero, v)
}

#[tactic(auto, unfolding(crate::specs::Rules::scaleless))]
fn is_scaleless(letter: u8, word: u8, a: usize, b: usize) -> bool
    ensures { result ≡ scaleless letter word a b }
{
    letter == b'D' && word == b'S' && (a == 0 || b == 0)
}

#[tactic(auto, unfolding(crate::specs::Rules::few))]
fn is_few(letter: u8, count: usize) -> bool
    ensures { result ≡ few letter count }
{
    letter == b'P' && count / 2 < LEAST_POINTS
}

#[tactic(auto, unfolding(crate::specs::Rules::bare))]
fn is_bare(letter: u8, layer: usize) -> bool
    ensures { result ≡ bare letter layer }
{
    is_shape(letter) && layer == 0
}

#[tactic(auto, unfolding(crate::specs::Rules::points_of))]
fn points_of(letter: u8, count: usize) -> usize
    ensures { result ≡ points_of letter count }
{
    match letter {
        b'P' => count / 2,
        b'W' => count.saturating_sub(1) / 2,
        _ => 0,
    }
}

#[tactic(auto, unfolding(crate::specs::Rules::many))]
fn is_many(letter: u8, count: usize, turns: usize) -> bool
    ensures { result ≡ many letter count turns }
{
    if letter == b'C' {
        definition::MOST_TURNS < turns
    } else {
        definition::MOST_POINTS < points_of(letter, count)
    }
}

// The lowest refusal that a whole command meets.
#[tactic(auto, unfolding(crate::specs::Rules::whole_refusal))]
pub fn whole_no(
    letter: u8,
    word: u8,
    count: usize,
    turns: usize,
    a: usize,
    b: usize,
    layer: usize,
) -> usize
    ensures { result ≡ whole_refusal letter word count turns a b layer }
{
    if is_scaleless(letter, word, a, b) {
        return 4;
    }
    if is_few(letter, count) {
        return 7;
    }
    if is_bare(letter, layer) {
        return 8;
    }
    if is_many(letter, count, turns) {
        return 9;
    }
    NO_REFUSAL
}
