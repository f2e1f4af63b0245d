// A shape's numbers moved from its words to their final places, under a net transformation (RULES 9). Each number comes to stand where its word
// stands, so that a line of them has them in written order.
#![tactic(auto)]

ghost use Rattle.std.specs.Prelude.{◌≡◌, ◌∷◌, [], ◌+◌, ◌^◌, ◌≤◌, ◌<◌, ℤ, pos, length, set, get_or};
ghost use Rattle.std.proofs.lemmas.List.Edits.{sets};
ghost use Rattle.definition.specs.Words.{Point, point};
ghost use Rattle.definition.specs.Faults.{beyond};
ghost use Rattle.turns.specs.Nets.{Near, apply, turned};
ghost use Rattle.moves.specs.Moves.{Pointed, Moves, ShapedAt, BeginAt, EndAt, Copied, MovesShape};

// A size goes to its place as it is.
fn copy_number(words: &[i32], numbers: &mut [i64], i: usize)
    requires { (i < length words.now) × (i < length numbers.old) }
    ensures { numbers.new ≡ set numbers.old i (get_or words.now i (pos 0)) }
{
    numbers[i] = words[i] as i64;
}

// All sizes, up to where the points begin.
fn copy_sizes(words: &[i32], numbers: &mut [i64], from: usize)
    requires { (2 ≤ from) × (from ≤ 4) × (from ≤ length words.now) × (from ≤ length numbers.old) }
    ensures { Copied words.now numbers.old from numbers.new }
{
    if from < 3 {
        return;
    }
    copy_number(words, numbers, 2);
    if from < 4 {
        return;
    }
    copy_number(words, numbers, 3);
}

fn set_point(numbers: &mut [i64], i: usize, p: turns::Pair)
    requires { i + 1 < length numbers.old }
    ensures { numbers.new ≡ sets numbers.old i (p.x ∷ p.y ∷ []) }
{
    let j = i + 1;
    let x = p.x;
    let y = p.y;
    numbers[i] = x;
    numbers[j] = y;
}

// A point takes the turns and the step; which of its numbers come to lie beyond the range.
fn place_at(words: &[i32], numbers: &mut [i64], i: usize, net: turns::Net) -> turns::Beyond
    requires i_in_bounds { (i + 1 < length words.now) × (i + 1 < length numbers.old) }
    requires near { Near (2 ^ 61) net }
    ensures { (p : Point ℤ) → p ≡ apply net (point (get_or words.now i (pos 0)) (get_or words.now (i + 1) (pos 0))) → (result.x ≡ beyond p.x) × (result.y ≡ beyond p.y) × (numbers.new ≡ sets numbers.old i (p.x ∷ p.y ∷ [])) }
{
    let j = i + 1;
    let p = turns::place_point(net, words[i], words[j]);
    set_point(numbers, i, p);
    turns::is_beyond(p)
}

// A direction takes the turns and not the step.
fn aim_at(words: &[i32], numbers: &mut [i64], i: usize, net: turns::Net)
    requires { (i + 1 < length words.now) × (i + 1 < length numbers.old) }
    ensures { (p : Point ℤ) → p ≡ turned net (point (get_or words.now i (pos 0)) (get_or words.now (i + 1) (pos 0))) → numbers.new ≡ sets numbers.old i (p.x ∷ p.y ∷ []) }
{
    let j = i + 1;
    let d = turns::aim_direction(net, words[i], words[j]);
    set_point(numbers, i, d);
}

// Points go to their final places; whether some x is beyond the range (refusal 16), and whether some y is (refusal 20).
// (A `while`: two numbers at a time of both runs. Tried and slower, measured: `step_by(2)` by 7 per cent of the loop, a `for` over the points by 2.)
fn move_points(
    words: &[i32],
    numbers: &mut [i64],
    from: usize,
    end: usize,
    net: turns::Net,
) -> turns::Beyond
    requires pointed { Pointed words.now from end × (end ≤ length numbers.old) }
    requires near { Near (2 ^ 61) net }
    ensures { (h : Pointed words.now from end) → Moves net h.points numbers.old from result numbers.new }
{
    let mut x = false;
    let mut y = false;
    let mut next = from;
    while next < end {
        let i = next;
        next += 2;
        let far = place_at(words, numbers, i, net);
        x = turns::either(x, far.x);
        y = turns::either(y, far.y);
    }
    turns::Beyond { x, y }
}

// Where a shape's points begin: behind its sizes. A polygon has none, a box two, the others one.
fn first_point(letter: u8) -> usize
    ensures { BeginAt letter result }
{
    if letter == b'P' {
        return 2;
    }
    if letter == b'B' {
        return 4;
    }
    3
}

// Where they end: a box's before its direction.
fn points_end(letter: u8, end: usize) -> usize
    requires { 2 ≤ end }
    ensures { EndAt letter end result }
{
    if letter == b'B' {
        return end - 2;
    }
    end
}

// All numbers of a shape go to their final places, each where its word stands. Points are moved at one place for every shape: a function that is
// called only there is compiled in line.
pub fn move_shape(
    words: &[i32],
    numbers: &mut [i64],
    letter: u8,
    end: usize,
    net: turns::Net,
) -> turns::Beyond
    requires shaped_at { ShapedAt words.now letter end × (end ≤ length numbers.old) }
    requires near { Near (2 ^ 61) net }
    ensures { (h : ShapedAt words.now letter end) → MovesShape net h.shape numbers.old result numbers.new }
{
    let from = first_point(letter);
    let last = points_end(letter, end);
    copy_sizes(words, numbers, from);
    let far = move_points(words, numbers, from, last, net);
    if letter != b'B' {
        return far;
    }
    aim_at(words, numbers, last, net);
    far
}
