// The vocabulary of document 01: numbers, the situation as values, refusals and answers. What the words mean is defined in specs/, over these
// types.
#![tactic(auto)]

ghost use Rattle.std.specs.Prelude.{◌≡◌};
ghost use Rattle.meaning.specs.Refusals.{number_of};

use std::marker::Model;

// Section, train and element numbers all start at 1 and count separate things.
#[derive(Clone, Copy)]
pub struct Section(pub u16);

#[derive(Clone, Copy)]
pub struct TrainNumber(pub u16);

#[derive(Clone, Copy)]
pub struct ElementNumber(pub u16);

// The most sections, P lines, elements and trains of a file.
pub const MAX_SECTIONS: usize = 512;

pub const MAX_PLAIN: usize = 1024;

pub const MAX_ELEMENTS: usize = 256;

pub const MAX_TRAINS: usize = 64;

// The most sections that a train stands over, in a U file.
pub const MAX_STANDING: usize = 4;

// The most open elements that a settings question takes.
pub const MAX_OPEN: usize = 12;

// The bytes of a line, and of the longest file.
pub const LINE_BYTES: usize = 22;

pub const LONGEST_FILE: usize = LINE_BYTES * (1 + MAX_PLAIN + MAX_ELEMENTS + MAX_TRAINS);

// An ordered pair of sections: what a P line or a signal stands over.
#[derive(Clone, Copy)]
pub struct Move {
    pub from: Section,
    pub to: Section,
}

// The sections that a turnout joins: at 1 its stem and the straight leg, at 2 its stem and the diverted leg.
#[derive(Clone, Copy)]
pub struct Turnout {
    pub stem: Section,
    pub straight: Section,
    pub diverted: Section,
}

// What an element is: a signal over an ordered pair, or a turnout.
#[derive(Clone, Copy)]
pub enum Kind {
    Signal(Move),
    Turnout(Turnout),
}

// States: 0 is open. 1 is proceed for a signal, straight for a turnout. 2 is stop, or diverted.
// A number and no enum: C may hand over any, and the writer refuses one above 2.
#[derive(Clone, Copy)]
pub struct Element {
    pub kind: Kind,
    pub state: u8,
}

// The letter that a file begins with: under S each train stands in one section, under U in one to four.
#[derive(Clone, Copy)]
pub enum Letter {
    S,
    U,
}

// The first line: its letter, and how many sections, P lines, elements and trains there are.
#[derive(Clone, Copy)]
pub struct Header {
    pub letter: Letter,
    pub sections: u16,
    pub plain: u16,
    pub elements: u16,
    pub trains: u16,
}

// The sections of a train: how many, and which; those past the count mean nothing. A file has one to four under U, and one under S; the
// writer refuses any other count. With no heap a train has four fields and a count.
#[derive(Clone, Copy)]
pub struct Train {
    pub count: u8,
    pub first: Section,
    pub second: Section,
    pub third: Section,
    pub fourth: Section,
}

// One situation of one station. Entries past the header's counts mean nothing.
// With no heap each part is an array of fixed size, and how many entries it has stands in the header.
#[derive(Clone, Copy)]
pub struct Situation {
    pub header: Header,
    pub plain: [Move; MAX_PLAIN],
    pub elements: [Element; MAX_ELEMENTS],
    pub trains: [Train; MAX_TRAINS],
}

// The causes of refusal, with their numbers in documents 01 and 02.
#[derive(Clone, Copy)]
pub enum Cause {
    FileLength = 1,
    LineForm = 2,
    HeaderRange = 3,
    LineCount = 4,
    SectionRange = 5,
    StateRange = 6,
    SectionTwice = 7,
    PairTwice = 8,
    BufferShort = 9,
    ElementOpen = 10,
    TooManyOpen = 11,
    NoTrain = 12,
    TrainLong = 13,
    RouteLine = 14,
    RouteStep = 15,
    LogForm = 16,
    LogSequence = 17,
    MarkRange = 18,
    TooManyMarks = 19,
    DeskAddress = 20,
    PlacementRange = 21,
}

impl Cause {
    // Returns the number of the cause. As a `From` it would be `u8::from(cause)` where it is used: no plainer.
    pub fn number(self) -> u8
        ensures { result ≡ number_of self }
    {
        self as u8
    }
}

// A refusal: its cause and the line it is found on. It is the error of every operation that may refuse; contracts see its number and its line.
#[derive(Clone, Copy)]
pub struct Refusal {
    pub cause: Cause,
    // 0, and no Option, where the cause belongs to no line: the papers and C have the number, and an R line prints it.
    pub line: u16,
}

impl Model for Refusal {
    ghost use Rattle.meaning.specs.Refusals.{Numbered};

    ghost Value = { Numbered };

    ghost use Rattle.meaning.specs.Refusals.{number_of, cause_of};

    ghost view = { λ r. record { number = number_of r.cause; line = r.line } };

    ghost inverse = { λ q. record { cause = cause_of q.number; line = q.line } };
}

// ---- the station file
// What a field of a line of the station file means: a count of the first line, a section, or the state of an element.
#[derive(Clone, Copy)]
pub enum StationField {
    Sections,
    Plain,
    Elements,
    Trains,
    Section,
    State,
}

// An entry of the table of record kinds: the letter, how many fields it fills, and what each field means; none where it is unused.
#[derive(Clone, Copy)]
pub struct RecordKind<M> {
    pub letter: u8,
    pub filled: u8,
    pub meaning: [M; 4],
}

// The forms of a filled field: in the padded one zeros may stand before a number.
#[derive(Clone, Copy)]
pub enum FieldForm {
    Old,
    Padded,
}

// A field of five bytes. An enum of its own: each case has its word in the definitions (`step`, `fits`), which as `Result<Option<u32>, _>` would match
// `Ok(None)`, `Ok(Some(n))` and `Err(_)` for them.
#[derive(Clone, Copy)]
pub enum Field {
    Blank,
    Number(u32),
    Malformed,
}

// A line's numbers, 0 in its unused fields. The kind is the line's place in the table of record kinds; a line that is not of
// the stated form has a kind past the table.
// The reader returns None for such a line; the writer makes one of a train whose count no T line has, and `line_checks` refuses it with 2.
// As an Option it would be tested again for each line that is stored, after `check` has found it whole.
#[derive(Clone, Copy)]
pub struct Line {
    pub kind: u8,
    pub first: u32,
    pub second: u32,
    pub third: u32,
    pub fourth: u32,
}

// ---- answers
// The two counts that every verdict carries.
#[derive(Clone, Copy)]
pub struct Counts {
    pub entries: u32,
    pub looks: u32,
}

// What a dangerous verdict names: trains i and j, and the section where they meet.
#[derive(Clone, Copy)]
pub struct Meeting {
    pub first: TrainNumber,
    pub second: TrainNumber,
    pub section: Section,
}

// The verdict as the definitions have it.
#[derive(Clone, Copy)]
pub enum Verdict {
    Safe(Counts),
    Dangerous(Meeting, Counts),
}

// How many sections each of the two paths shown has.
#[derive(Clone, Copy)]
pub struct PathLengths {
    pub first: usize,
    pub second: usize,
}

// The verdict as an operation returns it: a dangerous one also has the lengths of the two paths shown.
// The `Verdict` of the definitions has no lengths, since which path is shown is free.
#[derive(Clone, Copy)]
pub enum ShownVerdict {
    Safe(Counts),
    Dangerous(Meeting, Counts, PathLengths),
}

// The reply to a settings question that has a safe setting: how many are safe, and the proceed count of the chosen one, which is in the lent
// buffer.
// `safe` is no flag: where no setting is safe, there is no `Choice`.
#[derive(Clone, Copy)]
pub struct Choice {
    pub safe: u16,
    pub proceed: u16,
}

// How many bytes were written to the start of a lent buffer, and how many subtractions their digits took (02, Item 4).
#[derive(Clone, Copy)]
pub struct Output {
    pub length: usize,
    pub subtractions: u32,
}
