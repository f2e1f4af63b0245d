// The first dangling call of the live definitions (RULES 13, request 1), from the words that hold their bodies: definitions by number, which is the order of their rows,
// and in each its calls in written order. Nothing is drawn, and no text is read.
#![tactic(auto)]

ghost use Rattle.std.specs.Prelude.{◌<◌, ◌≤◌, length};
ghost use Rattle.library.specs.Sound.{Stocked};
ghost use Rattle.library.specs.Rows.{Sorted};
ghost use Rattle.library.specs.Memory.{most_words};
ghost use Rattle.dangling.specs.Searched.{Misses, Searched};

// Whether a number is not live.
fn misses(rows: &[usize; library::ROW_NUMBERS], live: usize, symbol: usize) -> bool
    requires { Sorted rows.now live }
    ensures { Misses rows.now live symbol result }
{
    library::find(rows, live, symbol).is_none()
}

// The place of the first call that finds nothing, if there is one.
pub fn first_dangling(
    bodies: &[i32],
    rows: &[usize; library::ROW_NUMBERS],
    live: usize,
) -> Option<usize>
    requires { Sorted rows.now live × Stocked rows.now bodies.now live × (length bodies.now ≤ most_words) }
    ensures { Searched rows.now bodies.now live result }
{
    for i in 0..live {
        let mut at = library::start_at(rows, i);
        let end = at + library::length_at(rows, i);
        // a `while`, since commands differ in length: an iterator over them would keep the same place
        while at < end {
            let head = engine::head_at(bodies, at);
            if head.kind == b'C' {
                if misses(rows, live, shapes::size_at(bodies, at + 2)) {
                    return Some(head.place);
                }
            }
            at = head.next;
        }
    }
    None
}
