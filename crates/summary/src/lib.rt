// What is in a symbol (RULES 19, request 3): the text is read and its table kept, with the summary beside it, and nothing is drawn. Then a symbol is asked for, in the table
// left at the end of the text.
#![tactic(auto)]

ghost use Rattle.std.specs.Prelude.{ltb, ◌≡◌, ◌+◌, ◌<◌, ◌≤◌, length};
ghost use Rattle.grammar.specs.Viable.{Grammatical};
ghost use Rattle.definition.specs.Limits.{most_layers};
ghost use Rattle.definition.specs.Rules.{number_of};
ghost use Rattle.definition.specs.Summary.{empty_summary, Summarises, Summarised};
ghost use Rattle.moves.specs.Moves.{most_values};
ghost use Rattle.library.specs.Memory.{row_numbers, most};
ghost use Rattle.keeping.specs.Keeping.{most_words};
ghost use Rattle.passing.specs.Passed.{Passed};
ghost use Rattle.marks.specs.Noted.{Noted};
ghost use Rattle.summary.specs.Summed.{KeepsText, Foremost, Starts, FirstName, SetIn, Given, TellsReply, Askable, Tells, NamedPassed, TellsText};

use columns::Own;
use definition::{Refusal, Rule, Summary};
use heights::Standing;
use keeping::Stock;
use marks::Names;

// A command has at most 2,049 numbers, and two words in front.
const COMMAND_WORDS: usize = 2051;

// The commands of a text from its start on: definitions are entered, with their own numbers, and removed; how many are live at its end. A definition that is one too many or needs more words
// than were lent ends the pass, as it ends the drawing.
fn keep_text(
    text: &[u8],
    recogniser: &grammar::Recogniser,
    rows: &mut [usize; library::ROW_NUMBERS],
    bodies: &mut [i32],
    words: &mut [i32],
    names: &Names,
    column: &mut [Own; library::MOST],
) -> Result<usize, Refusal>
    requires passed { Passed text.now × (length rows.old ≡ row_numbers) × (length bodies.old ≤ most_words) }
    requires most_values_in_bounds { (most_values + 2 ≤ length words.old) × (names.now.count ≤ most_layers) }
    requires column_len { length column.old ≡ most }
    ensures { KeepsText text.now (length bodies.old) names.now.numbers names.now.count result rows.new bodies.new column.new }
{
    let mut spot = pieces::Spot { at: 0, state: 0 };
    let mut stock = Stock {
        live: 0,
        used: 0,
        needed: 0,
    };
    let mut counts = counts::no_counts();
    while let Some(c) = commands::read_command(text, recogniser, words, spot, 1, 1) {
        let kind = c.kind;
        let place = c.place;
        let to = c.to;
        spot = to;
        if kind == b'D' {
            let symbol = shapes::size_at(words, 2);
            stock = passing::delete(rows, stock, symbol);
        } else if kind == b'S' {
            let start = passing::start_in(words, place);
            let taken = keeping::define(
                text, recogniser, rows, bodies, stock, start, to, counts,
            ).map_err(|rule| Refusal { rule, place })?;
            columns::enter(
                bodies,
                rows,
                stock.live,
                taken.stock.live,
                start.symbol,
                names,
                column,
            );
            spot = taken.to;
            stock = taken.stock;
            counts = taken.counts;
        }
    }
    Ok(stock.live)
}

// A refused text tells where, and nothing of a symbol.
fn no_summary(text: &[u8], refusal: Refusal) -> Summary
    ensures { result ≡ empty_summary text.now refusal }
{
    let position = position::position_of(text, refusal.place);
    Summary {
        number: definition::number_of(refusal.rule),
        place: refusal.place,
        line: position.line,
        column: position.column,
        gives: 0,
        drawn: 0,
        first: 0,
        height: 0,
        shapes: 0,
        calls: 0,
        layers: 0,
    }
}

// The first of refusals 3 to 9 of a text, and 19, in text order.
fn foremost(text: &[u8], refusal: Refusal) -> Refusal
    requires { Grammatical text.now }
    ensures { Foremost text.now refusal result }
{
    match marks::gather(text) {
        Ok(_) => refusal,
        Err(place) => {
            if place < refusal.place {
                return Refusal {
                    rule: Rule::TooManyLayers,
                    place,
                };
            }
            refusal
        }
    }
}

// Refusals 1 and 2 come before all that commands can be refused for.
fn precedes_commands(rule: Rule) -> bool
    ensures { result ≡ ltb (number_of rule) 3 }
{
    rule == Rule::TextTooLong || rule == Rule::NotInGrammar
}

// Refusals 1 to 9 and 19, or the layer names of a text that they let pass.
fn begin(text: &[u8]) -> Result<Names, Refusal>
    ensures { Starts text.now result }
{
    match reader::first_fault(text) {
        Err(refusal) => {
            if precedes_commands(refusal.rule) {
                return Err(refusal);
            }
            Err(foremost(text, refusal))
        }
        Ok(_) => marks::gather(text).map_err(|place| Refusal {
            rule: Rule::TooManyLayers,
            place,
        }),
    }
}

// The name of a set's first layer, packed; 0 for none.
fn first_name(names: &Names, set: u64) -> usize
    requires { SetIn names.now.numbers set }
    ensures { FirstName names.now.numbers set result }
{
    if set == 0 {
        return 0;
    }
    let mark = set.trailing_zeros() as usize;
    names.numbers[mark]
}

// What is told of a symbol, by what a call of it gives and by its own numbers.
fn tell_reply(names: &Names, reply: Result<Standing, Rule>, own: Own) -> Summary
    requires { Given names.now.numbers reply own }
    ensures { TellsReply names.now.numbers reply own result }
{
    let shapes = own.shapes as usize;
    let calls = own.calls as usize;
    let layers = own.layers.count_ones() as usize;
    match reply {
        Err(rule) => Summary {
            number: 0,
            place: 0,
            line: 0,
            column: 0,
            gives: definition::number_of(rule),
            drawn: 0,
            first: 0,
            height: 0,
            shapes,
            calls,
            layers,
        },
        Ok(standing) => {
            let first = first_name(names, standing.layers);
            let drawn = standing.layers.count_ones() as usize;
            Summary {
                number: 0,
                place: 0,
                line: 0,
                column: 0,
                gives: 0,
                drawn,
                first,
                height: standing.height,
                shapes,
                calls,
                layers,
            }
        }
    }
}

// A symbol of the table that memory holds. An undefined one gives 12, and has nothing of its own.
fn tell(
    bodies: &[i32],
    rows: &[usize; library::ROW_NUMBERS],
    live: usize,
    names: &Names,
    column: &[Own; library::MOST],
    symbol: usize,
) -> Summary
    requires { Askable rows.now bodies.now live names.now.numbers column.now }
    ensures { Tells rows.now bodies.now live names.now.numbers column.now symbol result }
{
    match library::find(rows, live, symbol) {
        None => { tell_reply(names, Err(Rule::UndefinedSymbol), columns::NONE) }
        Some(row) => {
            let reply = heights::ask(bodies, rows, live, column, symbol);
            tell_reply(names, reply, column[row])
        }
    }
}

// The table of a text that refusals 1 to 9 and 19 let pass, and a symbol of it; or refusals 10 and 25.
fn tell_text(
    text: &[u8],
    recogniser: &grammar::Recogniser,
    rows: &mut [usize; library::ROW_NUMBERS],
    bodies: &mut [i32],
    words: &mut [i32],
    names: &Names,
    column: &mut [Own; library::MOST],
    symbol: usize,
) -> Summary
    requires named_passed { NamedPassed text.now names.now.numbers names.now.count × (length rows.old ≡ row_numbers) × (length bodies.old ≤ most_words) }
    requires most_values_in_bounds { most_values + 2 ≤ length words.old }
    requires column_len { length column.old ≡ most }
    ensures { TellsText text.now (length bodies.old) names.now.numbers names.now.count symbol result }
{
    match keep_text(text, recogniser, rows, bodies, words, names, column) {
        Err(refusal) => no_summary(text, refusal),
        Ok(live) => tell(bodies, rows, live, names, column, symbol),
    }
}

// The same, with memory of its own but for the words lent, of which no more are used than bodies can need.
fn tell_passed(text: &[u8], bodies: &mut [i32], names: &Names, symbol: usize) -> Summary
    requires { NamedPassed text.now names.now.numbers names.now.count }
    ensures { TellsText text.now (length bodies.old) names.now.numbers names.now.count symbol result }
{
    let recogniser = grammar::Recogniser::new();
    let mut rows = [0usize; library::ROW_NUMBERS];
    let mut words = [0i32; COMMAND_WORDS];
    let mut column = [columns::NONE; library::MOST];
    let lent = passing::at_most(bodies.len());
    tell_text(
        text,
        &recogniser,
        &mut rows,
        &mut bodies[0..lent],
        &mut words,
        names,
        &mut column,
        symbol,
    )
}

// What is told of a symbol of a text. The words are left as they are then.
fn sum_up(text: &[u8], bodies: &mut [i32], symbol: usize) -> Summary
    ensures { Summarises text.now (length bodies.old) symbol result }
{
    match begin(text) {
        Err(refusal) => no_summary(text, refusal),
        Ok(names) => tell_passed(text, bodies, &names, symbol),
    }
}

// Two summaries that this contract allows are equal, the words included: `one_summary` of definition's proofs/Summed.antt.
pub fn summarise(text: &[u8], words: &mut [i32], symbol: usize) -> Summary
    ensures { Summarised text.now words.old symbol result words.new }
{
    let summary = sum_up(text, words, symbol);
    library::clear(words);
    summary
}
