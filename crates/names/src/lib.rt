// A layer's name of up to four letters as one number: what a reader keeps of it, compares and writes. It is packed here letter by letter, for the two
// passes over a text and for the listing of a flat file.
#![tactic(auto)]

ghost use Rattle.std.specs.Prelude.{◌≡◌, ◌+◌, ◌*◌, ◌≤◌};
ghost use Rattle.names.specs.Names.{byte_unit, first_unit, longer};

// The first letter of a name counts FIRST_UNIT, and each after it BYTE_UNIT times less than the one before.
pub const BYTE_UNIT: usize = 256;

pub const FIRST_UNIT: usize = 16_777_216;

// A layer's name with one more letter, which counts the unit.
pub fn longer_name(name: usize, unit: usize, letter: u8) -> usize
    requires { name + byte_unit * unit ≤ byte_unit * first_unit }
    ensures { result ≡ longer name unit letter }
{
    let x = letter as usize;
    name + x * unit
}
