// Where a place is in a text, as an editor counts (RULES 12, request 4): found in one pass over the text up to the place.
#![tactic(auto)]

ghost use Rattle.position.specs.Found.{Found};

const LINE_END: u8 = 10;

// Line and column, both from 1.
#[derive(Clone, Copy)]
pub struct Position {
    pub line: usize,
    pub column: usize,
}

// The position of a place: line ends before it are counted, and bytes since the last of these. A place beyond the text is where it ends.
pub fn position_of(text: &[u8], place: usize) -> Position
    ensures { Found text.now place result }
{
    let mut line = 1;
    let mut column = 1;
    let before = &text[..place.min(text.len())];
    for b in before {
        if *b == LINE_END {
            line += 1;
            column = 1;
        } else {
            column += 1;
        }
    }
    Position { line, column }
}
