// The archive for programs in C: each function of crate cif that a host calls, with its promise, under the same name. include/cif.h declares them. No function asks anything of
// its caller: any bytes and any words may come.
#![tactic(auto)]

ghost use Rattle.cif.specs.Told.{FlattenTold, StackedTold, ListTold, RefusalTold, VerdictTold, JoinTold, SummaryTold, WhyTold};

use machine::Frame;

// The whole reader: the flat file comes to stand in the room, the answer in its words, and the words lent for bodies are all zero.
#[unsafe(no_mangle)]
pub extern "C" fn cif_flatten(
    text: &[u8],
    words: &mut [i32],
    room: &mut [u8],
    answer: &mut [u64; answer::WORDS],
)
    ensures { FlattenTold text.now words.old room.old answer.new words.new room.new }
{
    cif::cif_flatten(text, words, room, answer)
}

// The whole reader without deep calls: the open calls stand in records that the host lends, which are all zero afterwards.
#[unsafe(no_mangle)]
pub extern "C" fn cif_flatten_stacked(
    text: &[u8],
    words: &mut [i32],
    room: &mut [u8],
    records: &mut [Frame],
    answer: &mut [u64; answer::WORDS],
)
    ensures { StackedTold text.now words.old room.old records.old answer.new words.new room.new records.new }
{
    cif::cif_flatten_stacked(text, words, room, records, answer)
}

// The lines of the list program, as far as `out` reaches, and how many bytes they are whatever its length.
#[unsafe(no_mangle)]
pub extern "C" fn cif_list(
    text: &[u8],
    words: &mut [i32],
    flat: &[u8],
    answer: &[u64; answer::WORDS],
    out: &mut [u8],
) -> usize
    ensures { ListTold text.now words.old answer.now flat.now out.old words.new out.new result }
{
    cif::cif_list(text, words, flat, answer, out)
}

// The first of refusals 2 to 9 of a text, with no drawing.
#[unsafe(no_mangle)]
pub extern "C" fn cif_refusal(text: &[u8], answer: &mut [u64; answer::WORDS])
    ensures { RefusalTold text.now answer.new }
{
    cif::cif_refusal(text, answer)
}

// Refusal 2 alone: whether a text is in the grammar.
#[unsafe(no_mangle)]
pub extern "C" fn cif_recognise(text: &[u8], answer: &mut [u64; answer::WORDS])
    ensures { VerdictTold text.now answer.new }
{
    cif::cif_recognise(text, answer)
}

// Two texts joined into the room, or which of them is refused and why.
#[unsafe(no_mangle)]
pub extern "C" fn cif_join(
    first: &[u8],
    second: &[u8],
    room: &mut [u8],
    answer: &mut [u64; answer::WORDS],
)
    ensures { JoinTold first.now second.now room.old answer.new room.new }
{
    cif::cif_join(first, second, room, answer)
}

// What is in a symbol, in the table left at the end of a text.
#[unsafe(no_mangle)]
pub extern "C" fn cif_summary(
    text: &[u8],
    words: &mut [i32],
    symbol: usize,
    answer: &mut [u64; answer::WORDS],
)
    ensures { SummaryTold text.now words.old symbol answer.new words.new }
{
    cif::cif_summary(text, words, symbol, answer)
}

// Why a shape is here: the shape with a count, from 1.
#[unsafe(no_mangle)]
pub extern "C" fn cif_why(
    text: &[u8],
    words: &mut [i32],
    count: usize,
    answer: &mut [u64; answer::WORDS],
)
    ensures { WhyTold text.now words.old count answer.new words.new }
{
    cif::cif_why(text, words, count, answer)
}
