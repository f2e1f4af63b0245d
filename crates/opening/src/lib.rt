// One call before its body is drawn: what its words say, and refusals 11 to 15 in their order (RULES 8). Nothing is drawn here, and of a body only
// its row is asked, so that every engine that draws calls asks the same leaf.
#![tactic(auto)]

ghost use Rattle.std.specs.Prelude.{◌≡◌, ◌-◌, ◌*◌, ◌^◌, ◌≤◌, length};
ghost use Rattle.definition.specs.Limits.{deepest};
ghost use Rattle.turns.specs.Nets.{Near};
ghost use Rattle.chain.specs.Chain.{run_length, open_calls};
ghost use Rattle.library.specs.Rows.{Sorted};
ghost use Rattle.opening.specs.Calls.{CalledAt, ReadsCall};
ghost use Rattle.opening.specs.Opening.{Opens};

use definition::{Refusal, Rule};

// What a call's words say where a net transformation is in force: its symbol, whether an R of its list is off the axes, what its list and those of the
// open calls do together, and its place.
#[derive(Clone, Copy)]
pub struct Call {
    pub symbol: usize,
    pub askew: bool,
    pub net: turns::Net,
    pub place: usize,
}

// A call that is opened: the drawing goes down into the row of its symbol, with the counts after this call.
#[derive(Clone, Copy)]
pub struct Entered {
    pub row: usize,
    pub counts: counts::Counts,
}

pub fn read_call(words: &[i32], end: usize, outer: turns::Net, place: usize) -> Call
    requires { CalledAt words.now end × Near (32 * 2 ^ 36) outer }
    ensures { (h : CalledAt words.now end) → ReadsCall h.symbol h.turns outer place result }
{
    let list = turns::list_net(words, 3, end);
    let own = list.net;
    let net = turns::compose(own, outer);
    Call {
        symbol: shapes::size_at(words, 2),
        askew: list.askew,
        net,
        place,
    }
}

// Refusals 11 to 15 of one call, with so many levels left: the open calls are the first of the run `drawing`.
pub fn open_call(
    rows: &[usize; library::ROW_NUMBERS],
    live: usize,
    drawing: &[usize],
    left: usize,
    call: Call,
    counts: counts::Counts,
) -> Result<Entered, Refusal>
    requires { Sorted rows.now live × (left ≤ deepest) × (length drawing.now ≡ run_length) }
    ensures { Opens rows.now live (open_calls drawing.now (deepest - left)) left call counts result }
{
    let place = call.place;
    let symbol = call.symbol;
    if call.askew {
        return Err(Refusal {
            rule: Rule::OffTheAxes,
            place,
        });
    }
    let row = library::find(rows, live, symbol).ok_or(Refusal {
        rule: Rule::UndefinedSymbol,
        place,
    })?;
    let level = definition::DEEPEST - left;
    if chain::is_open(drawing, level, symbol) {
        return Err(Refusal {
            rule: Rule::BeingDrawn,
            place,
        });
    }
    if left == 0 {
        return Err(Refusal {
            rule: Rule::TooDeep,
            place,
        });
    }
    let more = counts::count_call(counts).map_err(|rule| Refusal { rule, place })?;
    Ok(Entered { row, counts: more })
}
