// The reader by the machine of open calls, with records of its own (RULES 8, request 7): what a program calls that cannot lend records, and the pattern of every other client
// of the machine.
#![tactic(auto)]

ghost use Rattle.std.specs.Prelude.{◌≤◌};
ghost use Rattle.local.specs.Within.{Begun, Runs, Within};

use definition::Answer;
use machine::State;

// The most records: as many as `batch` lends, and more than are ever needed.
pub const MOST_RECORDS: usize = 64;

// On from a state to its end, with so many records that are all zero. The state is begun by the caller, so that the room is here as it was when the loop begins.
pub fn run(
    text: &[u8],
    rows: &mut [usize; library::ROW_NUMBERS],
    words: &mut [i32],
    room: &mut [u8],
    begun: State,
    records: usize,
) -> State
    requires { Begun text.now begun records rows.old words.old room.old × (records ≤ 64) }
    ensures { Runs text.now begun records rows.old words.old room.old result words.new room.new }
{
    let mut frames = [machine::NO_FRAME; MOST_RECORDS];
    let mut s = begun;
    // Not the loop of crate frames: that one goes from where a text begins, and this one from any state.
    while s.going {
        let slot = s.slot;
        let old = frames[slot];
        frames[slot] = s.put;
        s = machine::turn(text, rows, words, room, s, old);
    }
    s
}

// The same answer, room and words as with so many records lent by a host.
pub fn flatten(text: &[u8], words: &mut [i32], room: &mut [u8], records: usize) -> Answer
    requires { records ≤ 64 }
    ensures { Within text.now words.old room.old records result words.new room.new }
{
    let mut rows = [0usize; library::ROW_NUMBERS];
    let s = machine::begin(text, &mut rows, words, room, records);
    let over = run(text, &mut rows, words, room, s, records);
    over.answer
}
