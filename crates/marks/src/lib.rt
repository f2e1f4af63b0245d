// The layer names of a text (RULES 19, request 3): each distinct name of its L commands has one mark of 64, by first appearance, in and outside definitions. A name is
// kept as the one number that an L command of a body has in its words, so a body's layers are told from them.
#![tactic(auto)]

ghost use Rattle.std.specs.Prelude.{List, ◌≤◌};
ghost use Rattle.grammar.specs.Notation.{Letter};
ghost use Rattle.grammar.specs.Viable.{Marked};
ghost use Rattle.definition.specs.Limits.{most_layers};
ghost use Rattle.definition.specs.Commands.{commands};
ghost use Rattle.marks.specs.Noted.{MarkOf, BitOf, Notes, Gathers};

// The words of an L command: two in front, and its name.
const LAYER_WORDS: usize = 3;

// The distinct layer names of a text, by first appearance: each is one number, and its place is its mark.
#[derive(Clone, Copy)]
pub struct Names {
    pub numbers: [usize; definition::MOST_LAYERS],
    pub count: usize,
}

// The mark of a name, if it is one of these.
pub fn mark_of(names: &Names, name: usize) -> Option<usize>
    requires { names.now.count ≤ most_layers }
    ensures { MarkOf names.now.numbers names.now.count name result }
{
    for i in 0..names.count {
        if names.numbers[i] == name {
            return Some(i);
        }
    }
    None
}

// The set of this one layer; of a name that has no mark, none.
pub fn bit_of(names: &Names, name: usize) -> u64
    requires { names.now.count ≤ most_layers }
    ensures { BitOf names.now.numbers names.now.count name result }
{
    match mark_of(names, name) {
        Some(mark) => 1 << mark,
        None => 0,
    }
}

// A name takes the next mark, if it is a new one. Whether it has a mark then: a new one has none where none was left.
fn note(names: &mut Names, name: usize) -> bool
    requires { names.old.count ≤ most_layers }
    ensures { Notes names.old name result names.new }
{
    if mark_of(names, name).is_some() {
        return true;
    }
    if names.count == definition::MOST_LAYERS {
        return false;
    }
    names.numbers[names.count] = name;
    names.count += 1;
    true
}

// The names of a text's L commands, from its start on, with the tables lent; or the place of the L command that brings one more than there are marks
// (refusal 19).
fn gather_by(text: &[u8], recogniser: &grammar::Recogniser) -> Result<Names, usize>
    requires { (m : List Letter) × Marked text.now m }
    ensures { (m : List Letter) → Marked text.now m → Gathers (commands 0 m) result }
{
    let mut words = [0i32; LAYER_WORDS];
    let mut spot = pieces::Spot { at: 0, state: 0 };
    let mut names = Names {
        numbers: [0; definition::MOST_LAYERS],
        count: 0,
    };
    while let Some(c) = commands::read_command(text, recogniser, &mut words, spot, 1, 1) {
        spot = c.to;
        if c.kind == b'L' {
            let name = shapes::size_at(&words, 2);
            if !note(&mut names, name) {
                return Err(c.place);
            }
        }
    }
    Ok(names)
}

// The distinct names of a text's L commands, by first appearance.
pub fn gather(text: &[u8]) -> Result<Names, usize>
    requires { (m : List Letter) × Marked text.now m }
    ensures { (m : List Letter) → Marked text.now m → Gathers (commands 0 m) result }
{
    let recogniser = grammar::Recogniser::new();
    gather_by(text, &recogniser)
}
