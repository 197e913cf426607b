// The things that documents 01 and 02 name: states, requirements, rows, listings, refusals. Their rules stand in specs/.
#![tactic(auto)]

ghost use Rattle.std.specs.Prelude.{◌≡◌};
ghost use Rattle.rules.specs.Refusals.{number};

// The limits of a listing and of a trial record.
pub const MOST_STATES: usize = 64;

pub const MOST_INPUTS: usize = 16;

pub const MOST_OUTPUTS: usize = 32;

pub const MOST_BITS: usize = 64;

pub const MOST_ROWS: usize = 128;

pub const MOST_DICHOTOMIES: usize = 64;

// The columns of a flow table.
pub const MOST_COLUMNS: usize = 16;

// A dash in a flow table: no state has this number.
pub const NO_STATE: u8 = 64;

// A dash at every input that there can be.
pub const EVERY_INPUT: u32 = 65535;

// Pairs, groups and dichotomies together.
pub const MOST_ASKED: usize = 10016;

pub const MOST_BYTES: usize = 65536;

pub const MOST_TRIAL: usize = 256;

// The limits of a small machine, of which the least code is found: its states, its requirements, and the bits of the code.
pub const MOST_SMALL: usize = 6;

pub const MOST_SMALL_ASKED: usize = 32;

pub const MOST_SMALL_BITS: usize = 5;

// The longest name of a state in a KISS2 text, in bytes.
pub const MOST_NAME: usize = 31;

// The steps of a run that is replayed.
pub const MOST_STEPS: usize = 10000;

// The rows of a cover that is checked.
pub const MOST_CHECKED: usize = 256;

// A state's number, from 0. Moves and gains take it, a C host's too.
#[repr(C)]
#[derive(Clone, Copy)]
pub struct StateNumber(pub usize);

// A requirement's number, from 0. Judgements of meeting, `BY` and `UN` lines take it.
#[derive(Clone, Copy)]
pub struct RequirementNumber(pub usize);

// A bit's number in a code, from 0, leftmost first.
#[derive(Clone, Copy)]
pub struct BitNumber(pub usize);

// A requirement: its first and its second block, each a set of states.
#[derive(Clone, Copy)]
pub struct Requirement {
    pub first: u64,
    pub second: u64,
}

// What `MC` or `MO` says: how many states, inputs and outputs, the width, whether the cover keeps the rows that say nothing, and whether it was `MO`: the
// outputs of a Moore machine depend on the state alone.
#[derive(Clone, Copy)]
pub struct Head {
    pub states: usize,
    pub inputs: usize,
    pub outputs: usize,
    pub width: usize,
    pub keeps: bool,
    pub moore: bool,
}

// Characters `0 1 -` of a field: digit j of a mask is character j.
#[derive(Clone, Copy)]
pub struct Pattern {
    pub ones: u32,
    pub dashes: u32,
}

// What `PT` says, and the line where it stands. `next` has one state, or none.
#[derive(Clone, Copy)]
pub struct Row {
    pub input: Pattern,
    pub group: u64,
    pub next: u64,
    pub outputs: Pattern,
    pub line: usize,
}

// A listing: its head, its rows in the first places of a table, its dichotomies in the first places of another, the outputs that `OU` lines say, state s at
// place s of a third, and the set of the states that have one.
#[derive(Clone, Copy)]
pub struct Listing {
    pub head: Head,
    pub rows: usize,
    pub table: [Row; MOST_ROWS],
    pub dichotomies: usize,
    pub asked: [Requirement; MOST_DICHOTOMIES],
    pub said: [Pattern; MOST_STATES],
    pub given: u64,
}

// Why a call is refused, in the order of their numbers, of which 8 is unused.
#[derive(Clone, Copy)]
pub enum Refusal {
    BadLine,
    Limit,
    Place,
    EmptyGroup,
    NextState,
    Conflict,
    TooWide,
    Unmet,
    NoRoom,
    BadCall,
    Names,
    Unstable,
    NoNext,
    Misfit,
    NoShortCode,
    NoOutputs,
}

impl Refusal {
    // The refusal's number in 01's table.
    pub fn number_of(self) -> u32
        ensures { result ≡ number self }
    {
        match self {
            Refusal::BadLine => 1,
            Refusal::Limit => 2,
            Refusal::Place => 3,
            Refusal::EmptyGroup => 4,
            Refusal::NextState => 5,
            Refusal::Conflict => 6,
            Refusal::TooWide => 7,
            Refusal::Unmet => 9,
            Refusal::NoRoom => 10,
            Refusal::BadCall => 11,
            Refusal::Names => 12,
            Refusal::Unstable => 13,
            Refusal::NoNext => 14,
            Refusal::Misfit => 15,
            Refusal::NoShortCode => 16,
            Refusal::NoOutputs => 17,
        }
    }
}

// A refusal, and the line where it stands; line 0 is the whole text.
#[derive(Clone, Copy)]
pub struct Refused {
    pub refusal: Refusal,
    pub line: usize,
}

impl Refusal {
    // The refusal at a line.
    pub fn at(self, line: usize) -> Refused
        ensures { result ≡ record { refusal = self; line = line } }
    {
        Refused {
            refusal: self,
            line,
        }
    }
}

// A refusal that stands at no line is one of the whole text.
impl From<Refusal> for Refused {
    ghost from_gives = { λ r e. e ≡ record { refusal = r; line = 0 } };

    fn from(refusal: Refusal) -> Refused {
        refusal.at(0)
    }
}

// The mark that leads a line.
#[derive(Clone, Copy)]
pub enum Mark {
    Mc,
    Mo,
    Pt,
    Di,
    Ou,
    Ft,
    En,
    Unknown,
}

// The mark that leads a line of a KISS2 text; a line without one is a row.
#[derive(Clone, Copy)]
pub enum KissMark {
    Inputs,
    Outputs,
    States,
    Products,
    Reset,
    End,
    Unknown,
    Row,
}

// A number that a header of a KISS2 text tells, and its line, which is 0 while the header is missing.
#[derive(Clone, Copy)]
pub struct Told {
    pub number: usize,
    pub line: usize,
}

// What the headers of a KISS2 text say, with 0 inputs or outputs while those are missing, whether `.r` came, and how many lines of rows stand behind them so far.
#[derive(Clone, Copy)]
pub struct KissHeads {
    pub inputs: usize,
    pub outputs: usize,
    pub states: Told,
    pub products: Told,
    pub reset: bool,
    pub lines: usize,
}

// What an `OU` line says: a state, and the outputs that the machine has in it.
#[derive(Clone, Copy)]
pub struct StateOutputs {
    pub state: StateNumber,
    pub outputs: Pattern,
}

// What the encoder answers: a code, bit k the set of the states with value 1 in it; how many requirements there are, and how many of them no bit meets.
#[derive(Clone, Copy)]
pub struct Encoding {
    pub width: usize,
    pub bits: [u64; MOST_BITS],
    pub asked: usize,
    pub unmet: usize,
    pub passes: u64,
    pub looks: u64,
}

// What `SC` lines say: how many bits the codes have, and the code of state s at place s, bit k its digit k.
#[derive(Clone, Copy)]
pub struct CodeTable {
    pub width: usize,
    pub table: [u64; MOST_STATES],
}

// The line that comes next in a cover.
#[derive(Clone, Copy)]
pub enum CoverPart {
    Inputs,
    Outputs,
    Kind,
    Products,
    Rows,
    Over,
}

// What the lines of a cover say so far: the line that comes next, the numbers of `.i`, `.o` and `.p`, and how many rows there were.
#[derive(Clone, Copy)]
pub struct CoverHeads {
    pub part: CoverPart,
    pub inputs: usize,
    pub outputs: usize,
    pub products: usize,
    pub rows: usize,
}

// Where a cover does not agree with its listing: the lowest state, and for it the lowest input, the leftmost the highest digit.
#[derive(Clone, Copy)]
pub struct Fault {
    pub state: StateNumber,
    pub input: usize,
}
