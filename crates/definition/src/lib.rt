// What a CIF text means stands in specs/, and what follows from it in proofs/. What readers give back is declared here, so that contracts can say which
// one it is, and the limits of RULES 14, so that code has each under one name (specs/Limits.antt has them for definitions). The only code is a rule's number.
#![tactic(auto)]

ghost use Rattle.std.specs.Prelude.{◌≡◌};
ghost use Rattle.definition.specs.Rules.{number_of};

// The farthest from zero that a number may be (RULES 12, refusals 3, 6, 16 and 20).
pub const LARGEST: usize = 16_777_215;
// The longest text and the longest flat file (1 and 18).
pub const MOST_BYTES: usize = 16_777_216;
// The most points of a shape and the most transformations of a call (9).
pub const MOST_POINTS: usize = 1_024;

pub const MOST_TURNS: usize = 32;
// The most live definitions (10), the deepest call (14), the most calls (15) and the most shapes (17).
pub const MOST_DEFINITIONS: usize = 512;

pub const DEEPEST: usize = 32;

pub const MOST_CALLS: usize = 1_048_576;

pub const MOST_SHAPES: usize = 1_048_576;
// The most layer names of a text whose symbols are summed up (19).
pub const MOST_LAYERS: usize = 64;

// The rules that a text can break, by name (RULES 12). specs/Rules.antt has the order in which they are looked at.
#[derive(Clone, Copy, PartialEq, Eq)]
pub enum Rule {
    TextTooLong = 1,
    NotInGrammar = 2,
    NumberTooLarge = 3,
    ZeroFactor = 4,
    ScaledTooLarge = 6,
    DegenerateCommand = 7,
    NoLayer = 8,
    TooManyParts = 9,
    TooManyLayers = 19,
    TooManyDefinitions = 10,
    TooFewWords = 25,
    OffTheAxes = 11,
    UndefinedSymbol = 12,
    BeingDrawn = 13,
    TooDeep = 14,
    TooFewRecords = 21,
    TooManyCalls = 15,
    XOutOfRange = 16,
    YOutOfRange = 20,
    TooManyShapes = 17,
    FlatFileTooLong = 18,
    NoSuchShape = 26,
}

// A rule's number in the table of RULES 12, as answers tell it.
pub fn number_of(rule: Rule) -> usize
    ensures { result ≡ number_of rule }
{
    rule as usize
}

// A refusal: the rule that is broken, and its place.
#[derive(Clone, Copy)]
pub struct Refusal {
    pub rule: Rule,
    pub place: usize,
}

// What a reader gives back (RULES 1): refusal number, place, length written, the counts of the drawing, and how many distances
// of the text were rounded (request 2); line and column of the place, and the places of the calls open there, zeros after them (request 4).
#[derive(Clone, Copy)]
pub struct Answer {
    pub number: usize,
    pub place: usize,
    pub length: usize,
    pub shapes: usize,
    pub calls: usize,
    pub redefinitions: usize,
    pub rounded: usize,
    pub line: usize,
    pub column: usize,
    pub opened: usize,
    pub chain: [usize; DEEPEST],
}

// What is told of a symbol (RULES 19, request 3): refusal number, place, line and column; what drawing it would give, 12, 13, 14 or 0; how many layers a call
// would draw, the packed name of the first of them in the text, and the height; and its own shapes, calls and layers.
#[derive(Clone, Copy)]
pub struct Summary {
    pub number: usize,
    pub place: usize,
    pub line: usize,
    pub column: usize,
    pub gives: usize,
    pub drawn: usize,
    pub first: usize,
    pub height: usize,
    pub shapes: usize,
    pub calls: usize,
    pub layers: usize,
}

// What is told of a shape of the drawing (RULES 20, request 11): refusal number, place, line and column; how many calls are open at the refusal or drew the shape,
// and their places, zeros after them; the place of the shape's command; and the net transformation, which sends (x, y) to (a x + b y + tx, c x + d y + ty).
#[derive(Clone, Copy)]
pub struct Why {
    pub number: usize,
    pub place: usize,
    pub line: usize,
    pub column: usize,
    pub opened: usize,
    pub chain: [usize; DEEPEST],
    pub shape: usize,
    pub a: i64,
    pub b: i64,
    pub c: i64,
    pub d: i64,
    pub tx: i64,
    pub ty: i64,
}
