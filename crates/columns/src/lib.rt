// The columns of a line (01, "The station file"): where a line stands, and the table of record kinds, "which fields a letter fills". Reader and
// writer go by it.
#![tactic(auto)]

ghost use Rattle.std.specs.Prelude.{◌≡◌, ◌*◌};
ghost use Rattle.meaning.specs.Columns.{record_kind_at, section_field, state_field};

use meaning::StationField::{Elements, Plain, Section, Sections, State, Trains};
use meaning::{LINE_BYTES, RecordKind, StationField};

// The places of the table of record kinds; a line that is not of the stated form has the kind past it. Kinds stay numbers: a T line of
// n sections has the kind n + 3, `Line` has the kinds of a route file too, which has a table of its own, and `record_kind` and `line_reader::line` promise their
// answer for any number, where an enum would ask for one of nine.
pub const S_LINE: u8 = 0;

pub const P_LINE: u8 = 1;

pub const SIGNAL: u8 = 2;

pub const TURNOUT: u8 = 3;

// A T line of one section; of two, three and four it has the kinds that follow.
pub const T_LINE: u8 = 4;

pub const U_LINE: u8 = 8;

pub const MALFORMED: u8 = 9;

// The table: letter, filled fields, meaning of each.
pub const KINDS: [RecordKind<Option<StationField>>; 9] = [
    RecordKind {
        letter: b'S',
        filled: 4,
        meaning: [Some(Sections), Some(Plain), Some(Elements), Some(Trains)],
    },
    RecordKind {
        letter: b'P',
        filled: 2,
        meaning: [Some(Section), Some(Section), None, None],
    },
    RecordKind {
        letter: b'L',
        filled: 3,
        meaning: [Some(Section), Some(Section), Some(State), None],
    },
    RecordKind {
        letter: b'D',
        filled: 4,
        meaning: [Some(Section), Some(Section), Some(Section), Some(State)],
    },
    RecordKind {
        letter: b'T',
        filled: 1,
        meaning: [Some(Section), None, None, None],
    },
    RecordKind {
        letter: b'T',
        filled: 2,
        meaning: [Some(Section), Some(Section), None, None],
    },
    RecordKind {
        letter: b'T',
        filled: 3,
        meaning: [Some(Section), Some(Section), Some(Section), None],
    },
    RecordKind {
        letter: b'T',
        filled: 4,
        meaning: [Some(Section), Some(Section), Some(Section), Some(Section)],
    },
    RecordKind {
        letter: b'U',
        filled: 4,
        meaning: [Some(Sections), Some(Plain), Some(Elements), Some(Trains)],
    },
];

// Past the table: an entry that no line has.
// The definitions have it too (`record_kind_at`): each caller would turn a None into it.
const NO_KIND: RecordKind<Option<StationField>> = RecordKind {
    letter: 0,
    filled: 0,
    meaning: [None; 4],
};

// Says whether a field is a section. This and the next are two functions, since a pattern is no parameter.
pub fn is_section(meaning: Option<StationField>) -> bool
    ensures { result ≡ section_field meaning }
{
    matches!(meaning, Some(Section))
}

// Says whether a field is a state.
pub fn is_state(meaning: Option<StationField>) -> bool
    ensures { result ≡ state_field meaning }
{
    matches!(meaning, Some(State))
}

// Returns the entry of kind k.
#[tactic(auto, unfolding(meaning::specs::Columns::record_kind_at))]
pub fn record_kind(k: u8) -> RecordKind<Option<StationField>>
    ensures { result ≡ record_kind_at k }
{
    KINDS.get(usize::from(k)).copied().unwrap_or(NO_KIND)
}

// Returns the offset of line i. `as` keeps it: `usize` has no `From` of 32 bits.
pub fn offset(i: u32) -> usize
    ensures { result ≡ i * 22 }
{
    (i as usize) * LINE_BYTES
}
