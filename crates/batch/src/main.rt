// Answers many questions in one run, so that the reader can be held against others: a record of standard input asks for one function, and standard
// output has a line of what it gave, and its bytes. docs/PROGRAMS.md has the format. A line of words ends the run:
//
//   cut short        the input ends within a record
//   too long         a number of a record is over its limit
#![tactic(auto)]

ghost use Rattle.std.specs.Prelude.{◌≤◌, ◌<◌, ◌≡◌, length};
ghost use Rattle.printout.specs.Prints.{listing_length};

use definition::{Answer, Summary};
use std::io;
use std::io::{Read, Write};
use streams::Failure;

// The limits of a record: the bytes of a text or a room, or the words lent for bodies; and the records lent for open calls.
const MOST: usize = 1048576;

const MOST_OPEN: usize = 64;
// In place of a number of words: as many as the text and the second text have bytes, which is always enough, but not more than the limit.
const AS_MANY: usize = 4294967295;
// A packed name has 32 bits: all are below this.
const NAMES: usize = 4294967296;

// The contracts of these two spare callers the zeros.
fn bytes() -> [u8; MOST]
    ensures { 1048576 ≡ length result }
{
    [0; MOST]
}

fn body_words() -> [i32; MOST]
    ensures { 1048576 ≡ length result }
{
    [0; MOST]
}

// A field of a line that is followed by others.
fn put_field<W: Write>(output: &mut W, n: usize) -> Result<(), Failure> {
    streams::write_number(output, n, b"\t")
}

fn put_counts<W: Write>(output: &mut W, r: Answer) -> Result<(), Failure> {
    put_field(output, r.shapes)?;
    put_field(output, r.calls)?;
    put_field(output, r.redefinitions)?;
    put_field(output, r.rounded)
}

// A place of the chain stands after a tab, so that nothing stands where no call is open.
fn put_place<W: Write>(output: &mut W, place: usize) -> Result<(), Failure> {
    streams::write(output, b"\t")?;
    streams::write_number(output, place, b"")
}

// The places of the open calls, the outermost first.
fn put_chain<W: Write>(output: &mut W, chain: &[usize], opened: usize) -> Result<(), Failure> {
    for place in chain.iter().take(opened) {
        put_place(output, *place)?;
    }
    Ok(())
}

// Line, column, and the chain, with which the line ends.
fn put_where<W: Write>(
    output: &mut W,
    line: usize,
    column: usize,
    chain: &[usize],
    opened: usize,
) -> Result<(), Failure> {
    put_field(output, line)?;
    streams::write_number(output, column, b"")?;
    put_chain(output, chain, opened)?;
    streams::write(output, b"\n")
}

// Where the text is refused.
fn put_position<W: Write>(output: &mut W, r: Answer) -> Result<(), Failure> {
    let chain = r.chain;
    put_where(output, r.line, r.column, &chain, r.opened)
}

// The line of an answer.
fn put_answer<W: Write>(output: &mut W, r: Answer) -> Result<(), Failure> {
    put_field(output, r.number)?;
    put_field(output, r.place)?;
    put_field(output, r.length)?;
    put_counts(output, r)?;
    put_position(output, r)
}

// The line of an answer, and the flat file that stands in the room.
fn put_flat<W: Write>(output: &mut W, answer: Answer, room: &[u8]) -> Result<(), Failure>
    requires { answer.length ≤ length room.now }
{
    let length = answer.length;
    put_answer(output, answer)?;
    streams::write(output, &room[..length])
}

// Task 0: the flat file.
fn flatten<W: Write>(
    output: &mut W,
    text: &[u8],
    words: &mut [i32],
    room: &mut [u8],
) -> Result<(), Failure> {
    let answer = reader::flatten(text, words, room);
    put_flat(output, answer, room)
}

// Task 2: what the list program prints.
fn list<W: Write>(output: &mut W, text: &[u8], room: &mut [u8]) -> Result<(), Failure>
    requires { length room.old ≡ listing_length }
{
    let length = printout::print_text(text, room);
    streams::write(output, b"0\t0\t")?;
    streams::write_number(output, length, b"\n")?;
    streams::write(output, &room[..length])
}

// As much of the room as the longest listing has.
fn list_within<W: Write>(output: &mut W, text: &[u8], room: &mut [u8]) -> Result<(), Failure>
    requires { 1048576 ≡ length room.old }
{
    list(output, text, &mut room[..printout::LONGEST_LISTING])
}

fn put_drawn<W: Write>(output: &mut W, told: Summary) -> Result<(), Failure> {
    put_field(output, told.gives)?;
    put_field(output, told.drawn)?;
    put_field(output, told.height)
}

fn put_own<W: Write>(output: &mut W, told: Summary) -> Result<(), Failure> {
    put_field(output, told.shapes)?;
    put_field(output, told.calls)?;
    put_field(output, told.layers)
}

// Line and column, with which the line ends.
fn put_end<W: Write>(output: &mut W, told: Summary) -> Result<(), Failure> {
    put_field(output, told.line)?;
    streams::write_number(output, told.column, b"\n")
}

// The line of a summary, whose first layer has a name of this length.
fn put_summary<W: Write>(output: &mut W, told: Summary, length: usize) -> Result<(), Failure> {
    put_field(output, told.number)?;
    put_field(output, told.place)?;
    put_field(output, length)?;
    put_drawn(output, told)?;
    put_own(output, told)?;
    put_end(output, told)
}

// The letters of a packed name, which are at most four, and how many they are.
fn put_letters(name: &mut [u8], packed: u32) -> usize
    ensures { result ≤ 4 }
{
    pen::put_name(name, 0, packed)
}

// Task 3: what is in a symbol, and the name of its first layer.
fn summarise<W: Write>(
    output: &mut W,
    text: &[u8],
    words: &mut [i32],
    symbol: usize,
) -> Result<(), Failure> {
    let told = summary::summarise(text, words, symbol);
    let mut name = [0u8; 4];
    let length = put_letters(&mut name, (told.first % NAMES) as u32);
    put_summary(output, told, length)?;
    streams::write(output, &name[..length])
}

// What a record asks for, by its number. A number that has no task yet gives a line and no bytes.
#[derive(Clone, Copy, PartialEq, Eq)]
enum Task {
    Flatten,
    List,
    Summarise,
    ToCome,
}

impl From<usize> for Task {
    fn from(number: usize) -> Task {
        match number {
            0 => Task::Flatten,
            2 => Task::List,
            3 => Task::Summarise,
            _ => Task::ToCome,
        }
    }
}

// What a record begins with, as far as a task needs it: the task, the lengths of its two texts and of its room, the words lent for bodies, the records
// lent for open calls, and the argument.
#[derive(Clone, Copy)]
struct Head {
    task: Task,
    text: usize,
    second: usize,
    room: usize,
    words: usize,
    open: usize,
    argument: usize,
}

fn number_of(lowest: u8, second: u8, third: u8, highest: u8) -> usize {
    let high = third as usize + 256 * highest as usize;
    lowest as usize + 256 * second as usize + 65536 * high
}

fn number_at(numbers: &[u8; 28], at: usize) -> usize
    requires { at < 25 }
{
    number_of(
        numbers[at],
        numbers[at + 1],
        numbers[at + 2],
        numbers[at + 3],
    )
}

fn head_of(numbers: &[u8; 28]) -> Head {
    Head {
        task: number_at(numbers, 0).into(),
        text: number_at(numbers, 4),
        second: number_at(numbers, 8),
        room: number_at(numbers, 12),
        words: number_at(numbers, 16),
        open: number_at(numbers, 20),
        argument: number_at(numbers, 24),
    }
}

// What comes next: a record, or the input is at its end, or it ends within the head.
#[derive(Clone, Copy)]
enum Next {
    Record(Head),
    End,
    CutShort,
}

fn read_head<R: Read>(input: &mut R) -> Result<Next, Failure> {
    let mut head: [u8; 28] = [0; 28];
    let n = streams::read(input, &mut head)?;
    if n == 0 {
        return Ok(Next::End);
    }
    if n < 28 {
        return Ok(Next::CutShort);
    }
    Ok(Next::Record(head_of(&head)))
}

// A line of words ends the run.
fn stop<W: Write>(output: &mut W, words: &[u8]) -> Result<bool, Failure> {
    streams::write(output, words)?;
    Ok(false)
}

// Reads a whole text, and says whether the run goes on: it ends where the input is cut short.
fn read_text<R: Read, W: Write>(
    input: &mut R,
    output: &mut W,
    text: &mut [u8],
) -> Result<bool, Failure> {
    let n = text.len();
    let read = streams::read(input, text)?;
    if read < n {
        return stop(output, b"cut short\n");
    }
    Ok(true)
}

// Answers a record by its task.
fn answer<W: Write>(
    output: &mut W,
    task: Task,
    text: &[u8],
    words: &mut [i32],
    size: usize,
    room: &mut [u8],
    argument: usize,
) -> Result<(), Failure>
    requires { (size ≤ length room.old) × (1048576 ≡ length room.old) }
{
    match task {
        Task::Flatten => flatten(output, text, words, &mut room[..size]),
        Task::List => list_within(output, text, room),
        Task::Summarise => summarise(output, text, words, argument),
        Task::ToCome => streams::write(output, b"0\t0\t0\n"),
    }
}

fn answer_texts<R: Read, W: Write>(
    input: &mut R,
    output: &mut W,
    task: Task,
    text: &mut [u8],
    second: &mut [u8],
    words: &mut [i32],
    size: usize,
    room: &mut [u8],
    argument: usize,
) -> Result<bool, Failure>
    requires { (size ≤ length room.old) × (1048576 ≡ length room.old) }
{
    if !read_text(input, output, text)? {
        return Ok(false);
    }
    if !read_text(input, output, second)? {
        return Ok(false);
    }
    answer(output, task, text, words, size, room, argument)?;
    Ok(true)
}

// Whether so many words may be asked for.
fn too_many(words: usize) -> bool {
    if words == AS_MANY {
        return false;
    }
    words > MOST
}

// How many words are lent where so many are asked for and the texts have so many bytes.
fn lent(words: usize, bytes: usize) -> usize
    ensures { result ≤ 1048576 }
{
    if words <= MOST {
        return words;
    }
    if bytes <= MOST {
        return bytes;
    }
    MOST
}

// What is asked for: the summary is lent enough, whatever the number says.
fn asked(task: Task, words: usize) -> usize {
    if task == Task::Summarise {
        return AS_MANY;
    }
    words
}

// Whether a number of a record is over its limit. The lengths of the texts and of the room are looked at where they are lent.
fn over(head: Head) -> bool {
    if too_many(head.words) {
        return true;
    }
    head.open > MOST_OPEN
}

// Answers the next record, and says whether the run goes on.
fn answer_next<R: Read, W: Write>(
    input: &mut R,
    output: &mut W,
    text: &mut [u8],
    second: &mut [u8],
    words: &mut [i32],
    room: &mut [u8],
) -> Result<bool, Failure>
    requires value { (1048576 ≡ length text.old) × (1048576 ≡ length second.old) }
    requires value_2 { (1048576 ≡ length words.old) × (1048576 ≡ length room.old) }
{
    match read_head(input)? {
        Next::End => Ok(false),
        Next::CutShort => stop(output, b"cut short\n"),
        Next::Record(head) => {
            let n = head.text;
            let m = head.second;
            let size = head.room;
            if n > text.len() {
                return stop(output, b"too long\n");
            }
            if m > second.len() {
                return stop(output, b"too long\n");
            }
            if size > room.len() {
                return stop(output, b"too long\n");
            }
            if over(head) {
                return stop(output, b"too long\n");
            }
            let k = lent(asked(head.task, head.words), n + m);
            answer_texts(
                input,
                output,
                head.task,
                &mut text[..n],
                &mut second[..m],
                &mut words[..k],
                size,
                room,
                head.argument,
            )
        }
    }
}

// A proved loop has to end, and nothing says that the input does: it takes more turns than a run can use up.
fn answer_all<R: Read, W: Write>(
    input: &mut R,
    output: &mut W,
    text: &mut [u8],
    second: &mut [u8],
    words: &mut [i32],
    room: &mut [u8],
) -> Result<(), Failure>
    requires value { (1048576 ≡ length text.old) × (1048576 ≡ length second.old) }
    requires value_2 { (1048576 ≡ length words.old) × (1048576 ≡ length room.old) }
{
    for _ in 0..u64::MAX {
        if !answer_next(input, output, text, second, words, room)? {
            break;
        }
    }
    Ok(())
}

fn main(rt: HostRuntime) -> anyhow::Result<()> {
    let mut text = bytes();
    let mut second = bytes();
    let mut words = body_words();
    let mut room = bytes();
    answer_all(
        &mut rt.reader(),
        &mut io::writer(&rt),
        &mut text,
        &mut second,
        &mut words,
        &mut room,
    )?;
    Ok(())
}
