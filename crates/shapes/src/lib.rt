// One shape drawn: refusals 16, 20 and 17, or its lines (RULES 8). And what every function that draws takes and gives: the pen, and the answer.
#![tactic(auto)]

ghost use Rattle.std.specs.Prelude.{◌≡◌, ◌^◌, ◌<◌, ◌≤◌, pos, nat_abs, length, get_or};
ghost use Rattle.turns.specs.Nets.{Near};
ghost use Rattle.moves.specs.Moves.{ShapedAt};
ghost use Rattle.shapes.specs.Painting.{Reached, ShapeDraws};

use definition::{Refusal, Rule};

// Where the next byte of the flat file goes, and the layer of the last shape written, packed. No layer is 0, the name without letters, and no Option:
// packed names are only compared, and an Option would ask each time for a case that the comparison settles.
#[derive(Clone, Copy)]
pub struct Pen {
    pub at: usize,
    pub layer: u32,
}

// What a drawing carries along: the running counts, and the pen.
#[derive(Clone, Copy)]
pub struct Ink {
    pub counts: counts::Counts,
    pub pen: Pen,
}

// One shape (refusals 16, 20 and 17): an L line, if its layer is not the last one's, and its own line. What a function that draws answers: the ink
// afterwards, or a refusal.
pub fn draw_shape(
    words: &[i32],
    numbers: &mut [i64],
    room: &mut [u8],
    letter: u8,
    end: usize,
    net: turns::Net,
    layer: u32,
    place: usize,
    ink: Ink,
) -> Result<Ink, Refusal>
    requires shaped_at { ShapedAt words.now letter end × (end ≤ length numbers.old) }
    requires near { Near (2 ^ 61) net × Reached ink }
    ensures { ShapeDraws words.now letter end net layer place ink room.old result room.new }
{
    let far = moves::move_shape(words, numbers, letter, end, net);
    if far.x {
        return Err(Refusal {
            rule: Rule::XOutOfRange,
            place,
        });
    }
    if far.y {
        return Err(Refusal {
            rule: Rule::YOutOfRange,
            place,
        });
    }
    let drawn = counts::count_shape(ink.counts).map_err(|rule| Refusal { rule, place })?;
    let before = ink.pen;
    let next = pen::put_layer_line(room, before.at, before.layer, layer);
    let last = pen::put_line(room, next, letter, &numbers[2..end]);
    Ok(Ink {
        counts: drawn,
        pen: Pen { at: last, layer },
    })
}

// A number of a command's words, without its sign: a symbol's number and a scale have none.
pub fn size_at(words: &[i32], i: usize) -> usize
    requires { i < length words.now }
    ensures { result ≡ nat_abs (get_or words.now i (pos 0)) }
{
    words[i].unsigned_abs() as usize
}
