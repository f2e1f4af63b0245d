// The summary beside the table (RULES 19, request 3): for each live row its own shapes, its own calls and the set of the layers of its own shapes, all in one column. A
// definition that is entered has its numbers made once, from its body's words, and the others move with their rows; DD cuts the column with the rows. So
// the column is always the one that would be made afresh from the bodies.
#![tactic(auto)]

ghost use Rattle.std.specs.Prelude.{◌≡◌, ◌+◌, ◌<◌, ◌≤◌, length};
ghost use Rattle.definition.specs.Limits.{most_layers};
ghost use Rattle.library.specs.Memory.{most, most_words};
ghost use Rattle.library.specs.Sound.{Sound, Stocked};
ghost use Rattle.library.specs.Rows.{Sorted};
ghost use Rattle.columns.specs.Columns.{OwnOf, Shifted, Puts, More, Stands, Enters};

// What is told of one definition's own commands.
#[derive(Clone, Copy)]
pub struct Own {
    pub shapes: u64,
    pub calls: u64,
    pub layers: u64,
}

// What is told of a symbol that is not defined.
pub const NONE: Own = Own {
    shapes: 0,
    calls: 0,
    layers: 0,
};

// The own numbers of a body, of which so many words are stored from a place on. A shape is on the layer of the last L before it.
fn own_of(bodies: &[i32], from: usize, many: usize, names: &marks::Names) -> Own
    requires { Sound bodies.now from many × (from + many ≤ length bodies.now) × (length bodies.now ≤ most_words) × (names.now.count ≤ most_layers) }
    ensures { OwnOf bodies.now from many names.now.numbers names.now.count result }
{
    let end = from + many;
    let mut at = from;
    let mut shapes: u64 = 0;
    let mut calls: u64 = 0;
    let mut layers: u64 = 0;
    let mut layer: u64 = 0;
    // a `while`, since commands differ in length: an iterator over them would keep the same place
    while at < end {
        let head = engine::head_at(bodies, at);
        if head.kind == b'L' {
            layer = marks::bit_of(names, shapes::size_at(bodies, at + 2));
        } else if head.kind == b'C' {
            calls += 1;
        } else {
            shapes += 1;
            layers = layers | layer;
        }
        at = head.next;
    }
    Own {
        shapes,
        calls,
        layers,
    }
}

// Moves the numbers of the rows from one on up by one, from the last down.
fn shift(column: &mut [Own; library::MOST], before: usize, row: usize)
    requires { (row ≤ before) × (before < most) × (length column.old ≡ most) }
    ensures { Shifted column.old before row column.new }
{
    for k in (row..before).rev() {
        column[k + 1] = column[k];
    }
}

// The numbers of a row that was entered: in the place of the one that it replaces, or between the others.
fn put(column: &mut [Own; library::MOST], before: usize, live: usize, row: usize, own: Own)
    requires { More before live × (row < live) × (live ≤ most) × (length column.old ≡ most) }
    ensures { Puts column.old before live row own column.new }
{
    if before < live {
        shift(column, before, row);
        column[row] = own;
        return;
    }
    column[row] = own;
}

// The column after a definition was entered: of `before` rows there are `live` now.
pub fn enter(
    bodies: &[i32],
    rows: &[usize; library::ROW_NUMBERS],
    before: usize,
    live: usize,
    symbol: usize,
    names: &marks::Names,
    column: &mut [Own; library::MOST],
)
    requires column_len { length column.old ≡ most }
    requires more { More before live × Sorted rows.now live × Stands rows.now live symbol }
    requires stocked { Stocked rows.now bodies.now live × (length bodies.now ≤ most_words) × (names.now.count ≤ most_layers) }
    ensures { Enters bodies.now rows.now before live symbol names.now.numbers names.now.count column.old column.new }
{
    let row = library::find(rows, live, symbol).unwrap();
    let from = library::start_at(rows, row);
    let many = library::length_at(rows, row);
    let own = own_of(bodies, from, many, names);
    put(column, before, live, row, own);
}
