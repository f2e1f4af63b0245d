// Tells which texts are CIF, by the grammar of section 7.1.1, and what each character is in them. `recognise` is the whole of it for a text;
// `recognised`, `step` and `entry_at` are for crates above, which lend the tables and learn a byte's role.
#![tactic(auto)]

ghost use Rattle.std.specs.Prelude.{◌≡◌, ◌<◌, ◌/◌, ◌%◌};
ghost use Rattle.grammar.specs.Tables.{state_count, kind_count, role_unit};
ghost use Rattle.grammar.specs.Steps.{kind_of, entry_of, next_of, depth_limit, mode, entered, within, Moved, KindsLent, NextLent};
ghost use Rattle.grammar.specs.Viable.{Judged};

pub mod tables;

// Where the recogniser stands: a state, STUCK where no text goes on so, and how many comments are open.
#[derive(Clone, Copy)]
pub struct Mode {
    pub state: usize,
    pub depth: usize,
}

// A step of the recogniser: where it then stands, and the number of the byte's role.
#[derive(Clone, Copy)]
pub struct Move {
    pub state: usize,
    pub depth: usize,
    pub mark: usize,
}

// The kind of each byte, and the table of entries. A reader makes them once and lends them to all that goes by the byte: a const array would be built anew
// at every use.
#[derive(Clone, Copy)]
pub struct Recogniser {
    pub kinds: [u8; 256],
    pub next: [u16; tables::ENTRY_COUNT],
    ghost kinds_lent: { KindsLent kinds },
    ghost next_lent: { NextLent next },
}

impl Recogniser {
    pub fn new() -> Self {
        Recogniser {
            kinds: tables::KINDS,
            next: tables::NEXT,
        }
    }
}

fn kind(recogniser: &Recogniser, b: u8) -> usize
    ensures { (result ≡ kind_of b) × (result < kind_count) }
{
    recogniser.kinds[b as usize] as usize
}

fn entry(recogniser: &Recogniser, q: usize, k: usize) -> usize
    requires { (q < state_count) × (k < kind_count) }
    ensures { result ≡ entry_of q k }
{
    recogniser.next[q * tables::KIND_COUNT + k] as usize
}

// Outside comments: where an entry of the table leads to.
fn enter(e: usize) -> Move
    ensures { (mode result.state result.depth ≡ entered (e % role_unit)) × (result.mark ≡ e / role_unit) }
{
    let to = e % tables::ROLE_UNIT;
    let mark = e / tables::ROLE_UNIT;
    if to < tables::DEEP {
        return Move {
            state: to,
            depth: 0,
            mark,
        };
    }
    if to == tables::STUCK {
        return Move {
            state: tables::STUCK,
            depth: 0,
            mark,
        };
    }
    Move {
        state: to - tables::DEEP,
        depth: 1,
        mark,
    }
}

// Within d comments, before the state q: where a byte of kind k leads to. All of a comment is skipped.
fn nest(q: usize, d: usize, k: usize) -> Move
    requires { (0 < d) × (d < depth_limit) }
    ensures { (mode result.state result.depth ≡ within q d k) × (result.mark ≡ 0) }
{
    if k == tables::LPAR_KIND {
        return Move {
            state: q,
            depth: d + 1,
            mark: tables::SKIP,
        };
    }
    if k == tables::RPAR_KIND {
        return Move {
            state: q,
            depth: d - 1,
            mark: tables::SKIP,
        };
    }
    if k == tables::FOREIGN_KIND {
        return Move {
            state: tables::STUCK,
            depth: 0,
            mark: tables::SKIP,
        };
    }
    Move {
        state: q,
        depth: d,
        mark: tables::SKIP,
    }
}

// One byte further from state q with d comments open.
pub fn step(recogniser: &Recogniser, q: usize, d: usize, b: u8) -> Move
    requires q_lt_state_count { (q < state_count) × (d < depth_limit) }
    ensures { Moved q d b result }
{
    let k = kind(recogniser, b);
    if d == 0 {
        let e = entry(recogniser, q, k);
        return enter(e);
    }
    nest(q, d, k)
}

// The table's entry for a byte at state q, outside comments: its role's number and where it leads. Crates above that go by the byte look here first:
// most bytes lead to a state, and need no more than this.
pub fn entry_at(recogniser: &Recogniser, q: usize, b: u8) -> usize
    requires q_lt_state_count { q < state_count }
    ensures { result ≡ entry_of q (kind_of b) }
{
    let k = kind(recogniser, b);
    entry(recogniser, q, k)
}

fn plain_next(recogniser: &Recogniser, q: usize, b: u8) -> usize
    requires q_lt_state_count { q < state_count }
    ensures { result ≡ next_of q (kind_of b) }
{
    entry_at(recogniser, q, b) % tables::ROLE_UNIT
}

// Whether any bytes are in the grammar, in one pass, with the tables lent; else the length of the longest prefix that some continuation completes (refusal 2).
pub fn recognised(text: &[u8], recogniser: &Recogniser) -> Result<(), usize>
    ensures { Judged text.now result }
{
    let mut q: usize = 0;
    let mut d: usize = 0;
    for (i, &b) in text.iter().enumerate() {
        if d == 0 {
            let ahead = plain_next(recogniser, q, b);
            if ahead < tables::DEEP {
                q = ahead;
                continue;
            }
        }
        let to = step(recogniser, q, d, b);
        let s = to.state;
        if s == tables::STUCK {
            return Err(i);
        }
        q = s;
        d = to.depth;
    }
    if q == tables::ACCEPTING {
        if d == 0 {
            return Ok(());
        }
    }
    Err(text.len())
}

// The same of any bytes, in no memory but the tables.
pub fn recognise(text: &[u8]) -> Result<(), usize>
    ensures { Judged text.now result }
{
    recognised(text, &Recogniser::new())
}
