// Two texts joined (RULES 18, request 14): the first cut at its E, then `DD0;`, then the second. `join` writes the joined text into a lent room, or says which of the two is
// refused and why. That two accepted texts are accepted together and draw one list after the other is proved in joining.
#![tactic(auto)]

ghost use Rattle.std.specs.Prelude.{◌≡◌, ◌≢◌, ◌+◌, ◌≤◌, length, slice_index, EachIndex, MatchOption, MatchResult};
ghost use Rattle.grammar.specs.Viable.{Grammatical};
ghost use Rattle.definition.specs.Limits.{most_bytes};
ghost use Rattle.joining.specs.Joined.{joined};
ghost use Rattle.digits.specs.Writes.{Writes};
ghost use Rattle.join.specs.Made.{LastAt, CutAt, LeavesAt, fitted, room_after, Made};

use definition::{Refusal, Rule};

// What stands between the two.
const SEAM: &[u8] = b"DD0;";

// Which text a refusal is about.
#[derive(Clone, Copy, PartialEq, Eq)]
pub enum Which {
    Neither,
    First,
    Second,
}

// Why two texts are not joined: a refusal, and which text it is about.
#[derive(Clone, Copy)]
pub struct NotJoined {
    pub refusal: Refusal,
    pub text: Which,
}

fn refused(text: Which, rule: Rule, place: usize) -> NotJoined
    ensures { result ≡ record { refusal = record { rule = rule; place = place }; text = text } }
{
    let refusal = Refusal { rule, place };
    NotJoined { refusal, text }
}

// The last letter E: in a text of the grammar only blanks follow it.
fn last_e(text: &[u8]) -> Option<usize>
    ensures { MatchOption result (EachIndex text.now (λ k. slice_index text.now k ≢ 69)) (λ i. LastAt text.now i) }
{
    text.iter().rposition(|byte| *byte == b'E')
}

// Where it stands; 0 where there is none.
fn end_of(text: &[u8]) -> usize
    ensures { CutAt text.now result }
{
    last_e(text).unwrap_or(0)
}

// A text from a place of the room on; the next place. Byte by byte, since `copy_from_slice` would need memmove, which no other function of the archive does.
fn copy(room: &mut [u8], start: usize, text: &[u8]) -> usize
    requires { start + length text.now ≤ length room.old }
    ensures { Writes room.old room.new start result text.now }
{
    let mut at = start;
    for byte in text {
        at = digits::lay(room, at, *byte);
    }
    at
}

// The joined text, in a room that holds it.
fn write(first: &[u8], end: usize, second: &[u8], room: &mut [u8]) -> usize
    requires { CutAt first.now end × (end + 4 + length second.now ≤ length room.old) }
    ensures { Writes room.old room.new 0 result (joined first.now second.now) }
{
    let next = copy(room, 0, &first[..end]);
    let start = copy(room, next, SEAM);
    copy(room, start, second)
}

// Both texts are in the grammar: the joined one is written where it fits.
fn join_sound(first: &[u8], second: &[u8], room: &mut [u8]) -> Result<usize, NotJoined>
    requires { (length first.now ≤ most_bytes) × (length second.now ≤ most_bytes) }
    ensures value { result ≡ fitted (length (joined first.now second.now)) (length room.old) }
    ensures room_after { room.new ≡ room_after result (joined first.now second.now) room.old }
{
    let end = end_of(first);
    let length = end + SEAM.len() + second.len();
    if room.len() < length || definition::MOST_BYTES < length {
        return Err(refused(Which::Neither, Rule::FlatFileTooLong, 0));
    }
    Ok(write(first, end, second, room))
}

// One of the two: it is in the grammar, or this is where it leaves it.
fn judge(text: &[u8], which: Which) -> Result<(), NotJoined>
    ensures { MatchResult result (λ _. Grammatical text.now) (λ e. LeavesAt text.now which e) }
{
    grammar::recognise(text).map_err(|place| refused(which, Rule::NotInGrammar, place))
}

// How long the joined text is that now stands in the room; or two texts are refused and the room is unchanged. All is settled: `made_once` of proofs/Once.antt.
pub fn join(first: &[u8], second: &[u8], room: &mut [u8]) -> Result<usize, NotJoined>
    ensures { Made first.now second.now room.old result room.new }
{
    if definition::MOST_BYTES < first.len() {
        return Err(refused(Which::First, Rule::TextTooLong, 0));
    }
    if definition::MOST_BYTES < second.len() {
        return Err(refused(Which::Second, Rule::TextTooLong, 0));
    }
    judge(first, Which::First)?;
    judge(second, Which::Second)?;
    join_sound(first, second, room)
}
