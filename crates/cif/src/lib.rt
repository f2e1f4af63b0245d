// All that a host calls; crate cif_c exports it, under the same names, in the archive for programs in C. Every answer is told in the same 64 words, whose
// positions are fixed for good (crates/answer, specs/Words.antt). No function asks anything of its caller: any bytes and any words may come.
#![tactic(auto)]

ghost use Rattle.std.specs.Prelude.{◌≡◌};
ghost use Rattle.answer.specs.Words.{answer_words};
ghost use Rattle.cif.specs.Told.{FlattenTold, StackedTold, ListTold, RefusalTold, VerdictTold, JoinTold, SummaryTold, WhyTold, answer_of_fault, answer_of_verdict, refused_in, words_of_join};

use definition::{Answer, Refusal, Rule};
use join::{NotJoined, Which};
use machine::Frame;

// A check makes no flat file and counts nothing, and no call is open.
fn fault_answer(text: &[u8], fault: Result<usize, Refusal>) -> Answer
    ensures { result ≡ answer_of_fault text.now fault }
{
    match fault {
        Ok(_) => answer::accepted(0, counts::no_counts(), 0),
        Err(refusal) => answer::refused_outside_by(text, refusal, counts::no_counts()),
    }
}

fn verdict_answer(text: &[u8], verdict: Result<(), usize>) -> Answer
    ensures { result ≡ answer_of_verdict text.now verdict }
{
    match verdict {
        Ok(()) => fault_answer(text, Ok(0)),
        Err(place) => {
            let refusal = Refusal {
                rule: Rule::NotInGrammar,
                place,
            };
            fault_answer(text, Err(refusal))
        }
    }
}

// The whole reader: the flat file comes to stand in the room, the answer in its words, and the words lent for bodies are all zero. All is settled:
// `flatten_told_once` of proofs/Once.antt.
pub fn cif_flatten(
    text: &[u8],
    words: &mut [i32],
    room: &mut [u8],
    answer: &mut [u64; answer::WORDS],
)
    ensures { FlattenTold text.now words.old room.old answer.new words.new room.new }
{
    let given = reader::flatten(text, words, room);
    *answer = answer::words(given);
}

// The whole reader without deep calls (RULES 8, request 7): the open calls stand in records that the host lends, one for each level, which are all zero afterwards. All is
// settled: `stacked_told_once`; and with at least 32 records it is what `cif_flatten` tells: `both_engines`.
pub fn cif_flatten_stacked(
    text: &[u8],
    words: &mut [i32],
    room: &mut [u8],
    records: &mut [Frame],
    answer: &mut [u64; answer::WORDS],
)
    ensures { StackedTold text.now words.old room.old records.old answer.new words.new room.new records.new }
{
    let told = frames::flatten(text, words, room, records);
    *answer = answer::words(told);
}

// The lines of the list program, of a text, an answer's words and its flat file: as far as `out` reaches, and how many bytes they are whatever its length.
// The words lent for the definitions are all zero afterwards. Two outcomes that are allowed are equal: `list_told_once`.
pub fn cif_list(
    text: &[u8],
    words: &mut [i32],
    flat: &[u8],
    answer: &[u64; answer::WORDS],
    out: &mut [u8],
) -> usize
    ensures { ListTold text.now words.old answer.now flat.now out.old words.new out.new result }
{
    let length = listing::list(text, words, flat, answer::by_words(answer), out);
    library::clear(words);
    length
}

// The first of refusals 2 to 9 of a text, with no drawing. One answer is allowed: `refusal-told_once`.
pub fn cif_refusal(text: &[u8], answer: &mut [u64; answer::WORDS])
    ensures { RefusalTold text.now answer.new }
{
    let given = fault_answer(text, reading::refusal(text));
    *answer = answer::words(given);
}

// Refusal 2 alone: whether a text is in the grammar. One answer is allowed: `verdict-told_once`.
pub fn cif_recognise(text: &[u8], answer: &mut [u64; answer::WORDS])
    ensures { VerdictTold text.now answer.new }
{
    let given = verdict_answer(text, grammar::recognise(text));
    *answer = answer::words(given);
}

// A refusal of two texts that are joined: line and column are those of the text that it is about, which word 10 tells.
fn refusal_words(first: &[u8], second: &[u8], not_joined: NotJoined) -> [u64; answer::WORDS]
    ensures { result ≡ refused_in first.now second.now not_joined }
{
    let (text, which) = match not_joined.text {
        Which::Neither => (first, 0),
        Which::First => (first, 1),
        Which::Second => (second, 2),
    };
    let given = answer::refused_outside_by(text, not_joined.refusal, counts::no_counts());
    answer::words_about(given, which)
}

fn join_words(first: &[u8], second: &[u8], made: Result<usize, NotJoined>) -> [u64; answer::WORDS]
    ensures { result ≡ words_of_join first.now second.now made }
{
    match made {
        Ok(length) => answer::words(answer::accepted(length, counts::no_counts(), 0)),
        Err(not_joined) => refusal_words(first, second, not_joined),
    }
}

// Two texts joined into the room, or which of them is refused and why. All is settled: `join-told_once`.
pub fn cif_join(first: &[u8], second: &[u8], room: &mut [u8], answer: &mut [u64; answer::WORDS])
    ensures { JoinTold first.now second.now room.old answer.new room.new }
{
    let made = join::join(first, second, room);
    *answer = join_words(first, second, made);
}

// What is in a symbol, in the table left at the end of a text: the words lent for the definitions are all zero afterwards. All is settled: `summary_told_once`.
pub fn cif_summary(text: &[u8], words: &mut [i32], symbol: usize, answer: &mut [u64; answer::WORDS])
    ensures { SummaryTold text.now words.old symbol answer.new words.new }
{
    let given = summary::summarise(text, words, symbol);
    *answer = answer::summary_words(given);
}

// Why a shape is here (RULES 20, request 11): the shape with a count, from 1. The words lent for the definitions are all zero afterwards. All is settled: `why_told_once`.
pub fn cif_why(text: &[u8], words: &mut [i32], count: usize, answer: &mut [u64; answer::WORDS])
    ensures { WhyTold text.now words.old count answer.new words.new }
{
    let given = why::why(text, words, count);
    *answer = answer::why_words(given);
}
