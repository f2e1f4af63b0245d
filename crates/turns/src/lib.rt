// Right-angle transformations over whole numbers (RULES 9): what a call's list makes of points and directions, exactly. Only the final points
// of a shape are held to the range, by `is_beyond`. A transformation adds a step of 32 bits, 32 of them a level and 32 levels at most 2^41,
// so that i64 never wraps: the contracts carry the longest step along as `Near`.
#![tactic(auto)]

ghost use Rattle.std.specs.Prelude.{◌≡◌, ◌||◌, ◌∷◌, [], ◌+◌, ◌^◌, ◌<◌, ◌≤◌, pos, nat_abs, ◌+ℤ◌, length, if◌then◌else◌};
ghost use Rattle.definition.specs.Words.{point};
ghost use Rattle.definition.specs.Commands.{translate, rotate};
ghost use Rattle.definition.specs.Faults.{beyond};
ghost use Rattle.definition.specs.Turns.{off_axes};
ghost use Rattle.turns.specs.Words.{turn_words};
ghost use Rattle.turns.specs.Nets.{as_point, signed, turned, apply, Carries, Near, Composed};
ghost use Rattle.turns.specs.Nets.{Begins, Written, IsSingle, IsListed, net, differ};

// A point or a direction.
#[derive(Clone, Copy)]
pub struct Pair {
    pub x: i64,
    pub y: i64,
}

// A net transformation: x and y change places or not, then each is negated or not, then a step is added.
#[derive(Clone, Copy)]
pub struct Net {
    pub swap: bool,
    pub negx: bool,
    pub negy: bool,
    pub tx: i64,
    pub ty: i64,
}

// One transformation of a list: what it does, whether it is an R off the axes, and the place after its words.
#[derive(Clone, Copy)]
struct Single {
    net: Net,
    askew: bool,
    next: usize,
}

// A call's list: what it does, and whether an R in it is off the axes.
#[derive(Clone, Copy)]
pub struct Listed {
    pub net: Net,
    pub askew: bool,
}

// Whether a final point is beyond the range, by its x and by its y: they are refusals of their own (RULES 12, request 4).
#[derive(Clone, Copy)]
pub struct Beyond {
    pub x: bool,
    pub y: bool,
}

// The letters of a call's words (specs/Words.antt).
const LETTER_T: i32 = 84;

const LETTER_X: i32 = 88;

const LETTER_Y: i32 = 89;

// Does one of the two hold, and not both?
fn differ(a: bool, b: bool) -> bool
    ensures { result ≡ differ a b }
{
    if a { !b } else { b }
}

fn choose(first: bool, a: bool, b: bool) -> bool
    ensures { result ≡ if first then a else b }
{
    if first { a } else { b }
}

// The number with its sign, and then a step.
fn stepped(negate: bool, x: i64, by: i64) -> i64
    requires { (nat_abs x ≤ 2 ^ 61) × (nat_abs by ≤ 2 ^ 61) }
    ensures { result ≡ signed negate x +ℤ by }
{
    if negate { -x + by } else { x + by }
}

// A turn or a mirror, with no step.
fn oriented(swap: bool, negx: bool, negy: bool) -> Net
    ensures { result ≡ net swap negx negy (pos 0) (pos 0) }
{
    Net {
        swap,
        negx,
        negy,
        tx: 0,
        ty: 0,
    }
}

// The transformation that changes nothing.
pub fn still() -> Net
    ensures { Carries [] result × Near 0 result }
{
    oriented(false, false, false)
}

// Each with its sign, and then the step.
fn mirrored(net: Net, x: i64, y: i64) -> Pair
    requires { Near (2 ^ 61) net × (nat_abs x ≤ 2 ^ 61) × (nat_abs y ≤ 2 ^ 61) }
    ensures { as_point result ≡ point (signed net.negx x +ℤ net.tx) (signed net.negy y +ℤ net.ty) }
{
    Pair {
        x: stepped(net.negx, x, net.tx),
        y: stepped(net.negy, y, net.ty),
    }
}

// A point in its place.
fn placed(net: Net, x: i64, y: i64) -> Pair
    requires { Near (2 ^ 61) net × (nat_abs x ≤ 2 ^ 61) × (nat_abs y ≤ 2 ^ 61) }
    ensures { as_point result ≡ apply net (point x y) }
{
    if net.swap {
        return mirrored(net, y, x);
    }
    mirrored(net, x, y)
}

// A point of a shape's words in its place.
pub fn place_point(net: Net, x: i32, y: i32) -> Pair
    requires { Near (2 ^ 61) net }
    ensures { as_point result ≡ apply net (point x y) }
{
    placed(net, x as i64, y as i64)
}

// A direction takes the mirrors and turns and not the T.
pub fn aim_direction(net: Net, x: i32, y: i32) -> Pair
    ensures { as_point result ≡ turned net (point x y) }
{
    let turns = oriented(net.swap, net.negx, net.negy);
    placed(turns, x as i64, y as i64)
}

// The inner call's list acts before the outer's.
pub fn compose(inner: Net, outer: Net) -> Net
    requires { Near (2 ^ 61) inner × Near (2 ^ 61) outer }
    ensures { Composed inner outer result }
{
    let step = placed(outer, inner.tx, inner.ty);
    Net {
        swap: differ(inner.swap, outer.swap),
        negx: differ(outer.negx, choose(outer.swap, inner.negy, inner.negx)),
        negy: differ(outer.negy, choose(outer.swap, inner.negx, inner.negy)),
        tx: step.x,
        ty: step.y,
    }
}

// Is a number beyond the range?
pub fn is_far(x: i64) -> bool
    ensures { result ≡ beyond x }
{
    x < -16777215 || 16777215 < x
}

// Which numbers of a final point are beyond the range?
pub fn is_beyond(p: Pair) -> Beyond
    ensures { (result.x ≡ beyond p.x) × (result.y ≡ beyond p.y) }
{
    Beyond {
        x: is_far(p.x),
        y: is_far(p.y),
    }
}

// Does one of the two hold? With no branch, so that a loop that asks it goes one way.
pub fn either(a: bool, b: bool) -> bool
    ensures { result ≡ (a || b) }
{
    a || b
}

// T adds the point.
fn translation(x: i32, y: i32) -> Net
    ensures { Carries (translate (point x y) ∷ []) result × Near (2 ^ 31) result }
{
    Net {
        swap: false,
        negx: false,
        negy: false,
        tx: x as i64,
        ty: y as i64,
    }
}

// R turns the x axis to the vector, whatever its length; one off the axes, which is refused, changes nothing.
fn rotation(x: i32, y: i32) -> Net
    ensures { Carries (rotate (point x y) ∷ []) result × Near 0 result }
{
    if y == 0 {
        if x < 0 {
            return oriented(false, true, true);
        }
        return oriented(false, false, false);
    }
    if x == 0 {
        if y < 0 {
            return oriented(true, false, true);
        }
        return oriented(true, true, false);
    }
    oriented(false, false, false)
}

// Is it off the axes?
fn is_askew(x: i32, y: i32) -> bool
    ensures { result ≡ off_axes (rotate (point x y) ∷ []) }
{
    x != 0 && y != 0
}

// The transformation whose words begin at this place.
fn single_at(words: &[i32], at: usize) -> Single
    requires { Begins words.now at }
    ensures { (h : Begins words.now at) → IsSingle h.turn (at + length (turn_words h.turn)) result }
{
    let letter = words[at];
    if letter == LETTER_X {
        return Single {
            net: oriented(false, true, false),
            askew: false,
            next: at + 1,
        };
    }
    if letter == LETTER_Y {
        return Single {
            net: oriented(false, false, true),
            askew: false,
            next: at + 1,
        };
    }
    let i = at + 1;
    let j = at + 2;
    let x = words[i];
    let y = words[j];
    if letter == LETTER_T {
        return Single {
            net: translation(x, y),
            askew: false,
            next: at + 3,
        };
    }
    Single {
        net: rotation(x, y),
        askew: is_askew(x, y),
        next: at + 3,
    }
}

// A call's list acts in written order.
pub fn list_net(words: &[i32], from: usize, end: usize) -> Listed
    requires { Written words.now from end }
    ensures { (h : Written words.now from end) → IsListed h.turns result }
{
    let mut net = still();
    let mut askew = false;
    let mut at = from;
    while at < end {
        let single = single_at(words, at);
        let one = single.net;
        net = compose(net, one);
        askew = either(askew, single.askew);
        at = single.next;
    }
    Listed { net, askew }
}
