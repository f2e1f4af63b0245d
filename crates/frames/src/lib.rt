// The stack of open calls as records that a host lends (RULES 8, request 7), one for each level: the machine below it never sees them. It answers which record goes to
// which slot, and is handed what stood there.
#![tactic(auto)]

ghost use Rattle.std.specs.Prelude.{◌≡◌, ◌<◌, length, set, get_or};
ghost use Rattle.definition.specs.Records.{PromisedWith};
ghost use Rattle.machine.specs.States.{no_frame};

use definition::Answer;
use machine::Frame;
use std::mem;

// A record onto a slot, for what stood there. A push puts the caller's, a pop puts the zero record.
pub fn exchange(records: &mut [Frame], slot: usize, put: Frame) -> Frame
    requires { slot < length records.old }
    ensures { (result ≡ get_or records.old slot no_frame) × (records.new ≡ set records.old slot put) }
{
    mem::replace(&mut records[slot], put)
}

// The whole reader, with the host's records for a stack. They are all zero afterwards, refused or not, whatever stood in them.
pub fn flatten(text: &[u8], words: &mut [i32], room: &mut [u8], records: &mut [Frame]) -> Answer
    ensures { PromisedWith no_frame text.now words.old room.old records.old result words.new room.new records.new }
{
    let mut rows = [0usize; library::ROW_NUMBERS];
    let mut s = machine::begin(text, &mut rows, words, room, records.len());
    while s.going {
        let old = exchange(records, s.slot, s.put);
        s = machine::turn(text, &mut rows, words, room, s, old);
    }
    s.answer
}
