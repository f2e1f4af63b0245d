// What a reader answers: made in two ways only, of a refusal and of a success, so that whatever an answer holds is set in one place for each. And the
// answer's words for hosts, each at a position that is fixed for good (specs/Words.antt names them all).
#![tactic(auto)]

ghost use Rattle.std.specs.Prelude.{◌≡◌, [], ◌++◌, length};
ghost use Rattle.definition.specs.Answer.{success, failure};
ghost use Rattle.counts.specs.Counting.{tally};
ghost use Rattle.chain.specs.Chain.{run_length, chain_in};
ghost use Rattle.answer.specs.Telling.{told_of, failing};
ghost use Rattle.answer.specs.Words.{zeros, first_words, answer_words, words_about, summary_words, why_answer, signed_word, why_words, chain_by, answer_by};

use counts::Counts;
use definition::{Answer, Refusal, Summary, Why};

// How many words a host lends, and where those stand that an answer sets today. All others are 0.
pub const WORDS: usize = 64;

const NUMBER: usize = 0;

const PLACE: usize = 1;

const LENGTH: usize = 2;

const SHAPES: usize = 3;

const CALLS: usize = 4;

const REDEFINITIONS: usize = 5;

const ROUNDED: usize = 6;

const LINE: usize = 7;

const COLUMN: usize = 8;

const OPENED: usize = 9;

const TEXT: usize = 10;

const CHAIN: usize = 16;

const GIVES: usize = 48;

const DRAWN: usize = 49;

const FIRST: usize = 50;

const HEIGHT: usize = 51;

const OWN_SHAPES: usize = 52;

const OWN_CALLS: usize = 53;

const OWN_LAYERS: usize = 54;

const SHAPE: usize = 48;

const MATRIX_A: usize = 49;

const MATRIX_B: usize = 50;

const MATRIX_C: usize = 51;

const MATRIX_D: usize = 52;

const TRANSLATION_X: usize = 53;

const TRANSLATION_Y: usize = 54;

// The highest number of 64 bits: a number below 0 is told as what it lacks of one more than this.
const HIGHEST: u64 = 18_446_744_073_709_551_615;

// A refusal as a host is told it: a number and a place. Every rule has a number, and any other can be told here too.
#[derive(Clone, Copy)]
pub struct Told {
    pub number: usize,
    pub place: usize,
}

// A refusal gives zero for the length and for every count, whatever has been counted by then, and tells where it is: line and column of its place, and the
// calls that were open there.
pub fn refused(text: &[u8], refusal: Told, run: &[usize], counted: Counts) -> Answer
    requires { length run.now ≡ run_length }
    ensures { result ≡ failing text.now refusal (chain_in run.now) }
{
    let none = counts::cleared(counted);
    let position = position::position_of(text, refusal.place);
    let opened = chain::opened(run);
    let chain = chain::places(run);
    Answer {
        number: refusal.number,
        place: refusal.place,
        length: 0,
        shapes: none.shapes,
        calls: none.calls,
        redefinitions: none.redefinitions,
        rounded: 0,
        line: position.line,
        column: position.column,
        opened,
        chain,
    }
}

// A refusal outside of every call (1 to 9 and 18).
pub fn refused_outside(text: &[u8], refusal: Told, counted: Counts) -> Answer
    ensures { result ≡ failing text.now refusal [] }
{
    let run = [0usize; chain::RUN];
    refused(text, refusal, &run, counted)
}

// A rule is told by its number.
fn by_number(refusal: Refusal) -> Told
    ensures { result ≡ told_of refusal }
{
    Told {
        number: definition::number_of(refusal.rule),
        place: refusal.place,
    }
}

// The same two of a refusal by a rule, as the crates that read a text have it.
pub fn refused_by(text: &[u8], refusal: Refusal, run: &[usize], counted: Counts) -> Answer
    requires { length run.now ≡ run_length }
    ensures { result ≡ failure text.now refusal (chain_in run.now) }
{
    refused(text, by_number(refusal), run, counted)
}

pub fn refused_outside_by(text: &[u8], refusal: Refusal, counted: Counts) -> Answer
    ensures { result ≡ failure text.now refusal [] }
{
    refused_outside(text, by_number(refusal), counted)
}

// A success tells how long the flat file is, what was counted, and how many distances of the text were rounded.
pub fn accepted(length: usize, counted: Counts, rounded: usize) -> Answer
    ensures { result ≡ success length (tally counted) rounded }
{
    Answer {
        number: 0,
        place: 0,
        length,
        shapes: counted.shapes,
        calls: counted.calls,
        redefinitions: counted.redefinitions,
        rounded,
        line: 0,
        column: 0,
        opened: 0,
        chain: [0; definition::DEEPEST],
    }
}

// The words of an answer before the places of its open calls, and zeros after them.
fn first_words(answer: Answer) -> [u64; WORDS]
    ensures { result ≡ first_words answer ++ zeros 54 }
{
    let mut told = [0; WORDS];
    told[NUMBER] = answer.number as u64;
    told[PLACE] = answer.place as u64;
    told[LENGTH] = answer.length as u64;
    told[SHAPES] = answer.shapes as u64;
    told[CALLS] = answer.calls as u64;
    told[REDEFINITIONS] = answer.redefinitions as u64;
    told[ROUNDED] = answer.rounded as u64;
    told[LINE] = answer.line as u64;
    told[COLUMN] = answer.column as u64;
    told[OPENED] = answer.opened as u64;
    told
}

// The words that a host is told.
pub fn words(answer: Answer) -> [u64; WORDS]
    ensures { result ≡ answer_words answer }
{
    let chain = answer.chain;
    let mut told = first_words(answer);
    for i in 0..definition::DEEPEST {
        told[CHAIN + i] = chain[i] as u64;
    }
    told
}

// The words of an answer about one of two texts: which of them it is, is told too.
pub fn words_about(answer: Answer, text: usize) -> [u64; WORDS]
    ensures { result ≡ words_about answer text }
{
    let mut told = words(answer);
    told[TEXT] = text as u64;
    told
}

// The words of what is told of a symbol (RULES 19, request 3): a refusal of the text stands where every answer has it.
pub fn summary_words(summary: Summary) -> [u64; WORDS]
    ensures { result ≡ summary_words summary }
{
    let mut said = [0; WORDS];
    said[NUMBER] = summary.number as u64;
    said[PLACE] = summary.place as u64;
    said[LINE] = summary.line as u64;
    said[COLUMN] = summary.column as u64;
    said[GIVES] = summary.gives as u64;
    said[DRAWN] = summary.drawn as u64;
    said[FIRST] = summary.first as u64;
    said[HEIGHT] = summary.height as u64;
    said[OWN_SHAPES] = summary.shapes as u64;
    said[OWN_CALLS] = summary.calls as u64;
    said[OWN_LAYERS] = summary.layers as u64;
    said
}

// What is told of a shape as an answer has it: a refusal, and the calls.
fn why_answer(why: Why) -> Answer
    ensures { result ≡ why_answer why }
{
    let chain = why.chain;
    let length = 0;
    let rounded = 0;
    Answer {
        number: why.number,
        place: why.place,
        length,
        shapes: 0,
        calls: 0,
        redefinitions: 0,
        rounded,
        line: why.line,
        column: why.column,
        opened: why.opened,
        chain,
    }
}

// A number that may be below 0, in two's complement. The lowest number of 64 bits has no positive of its own, so one is added before the sign is turned.
fn signed_word(z: i64) -> u64
    ensures { result ≡ signed_word z }
{
    if 0 <= z {
        return z as u64;
    }
    HIGHEST - (-(z + 1)) as u64
}

// The words of what is told of a shape (RULES 20, request 11): its calls stand where a refusal has those that were open.
pub fn why_words(why: Why) -> [u64; WORDS]
    ensures { result ≡ why_words why }
{
    let mut said = words(why_answer(why));
    said[SHAPE] = why.shape as u64;
    said[MATRIX_A] = signed_word(why.a);
    said[MATRIX_B] = signed_word(why.b);
    said[MATRIX_C] = signed_word(why.c);
    said[MATRIX_D] = signed_word(why.d);
    said[TRANSLATION_X] = signed_word(why.tx);
    said[TRANSLATION_Y] = signed_word(why.ty);
    said
}

// The places of the open calls that a host's words say.
fn chain_by_words(told: &[u64; WORDS]) -> [usize; definition::DEEPEST]
    ensures { result ≡ chain_by told.now }
{
    let mut chain = [0; definition::DEEPEST];
    for i in 0..definition::DEEPEST {
        chain[i] = told[CHAIN + i] as usize;
    }
    chain
}

// The answer that a host's words say.
pub fn by_words(told: &[u64; WORDS]) -> Answer
    ensures { result ≡ answer_by told.now }
{
    let chain = chain_by_words(told);
    Answer {
        number: told[NUMBER] as usize,
        place: told[PLACE] as usize,
        length: told[LENGTH] as usize,
        shapes: told[SHAPES] as usize,
        calls: told[CALLS] as usize,
        redefinitions: told[REDEFINITIONS] as usize,
        rounded: told[ROUNDED] as usize,
        line: told[LINE] as usize,
        column: told[COLUMN] as usize,
        opened: told[OPENED] as usize,
        chain,
    }
}
