// The values of crate meaning as structs with a C layout, and back. C has no enum with values: kinds and letters are numbers, and an answer has
// its refusal beside its value, number 0 where there is none. Arrays of structs are an array for each field.
#![tactic(auto)]

ghost use Rattle.std.specs.Prelude.{◌≡◌, MatchResult};
ghost use Rattle.meaning.specs.File.{no_situation};
ghost use Rattle.c_layout.specs.Flat.{
  flat_refusal,
  no_refusal,
  flat_outcome,
  flat_element,
  flat_situation,
  flat_reading_answer,
  element_from_c,
  situation_from_c,
  flat_verdict,
  flat_reply,
  flat_output,
  flat_yes_no,
  flat_filled,
  flat_start,
  flat_desk_byte,
  flat_placed,
};

use meaning::{
    Choice, Element, Header, Kind, Letter, MAX_ELEMENTS, MAX_PLAIN, MAX_STANDING, MAX_TRAINS, Move,
    Output, Refusal, Section, ShownVerdict, Situation, Train, Turnout,
};
use session_meaning::Desk;
use std::array;

// A refusal; number 0 stands for none.
#[repr(C)]
#[derive(Clone, Copy, Default)]
pub struct FlatRefusal {
    pub number: u16,
    pub line: u16,
}

// P line i is (plain_from[i], plain_to[i]). Element i is a signal where is_turnout[i] is 0: element_first[i] is its from, element_second[i] its to, and
// element_third[i] means nothing. Otherwise it is a turnout: stem, straight leg, diverted leg. `is_long` is 0 for the letter S, and anything else for U. Train i
// stands over train_size[i] sections: train_section[4 * i] and those after it.
#[repr(C)]
#[derive(Clone, Copy)]
pub struct FlatSituation {
    pub sections: u16,
    pub plain: u16,
    pub elements: u16,
    pub trains: u16,
    pub plain_from: [u16; MAX_PLAIN],
    pub plain_to: [u16; MAX_PLAIN],
    pub is_turnout: [u8; MAX_ELEMENTS],
    pub element_first: [u16; MAX_ELEMENTS],
    pub element_second: [u16; MAX_ELEMENTS],
    pub element_third: [u16; MAX_ELEMENTS],
    pub element_state: [u8; MAX_ELEMENTS],
    pub is_long: u8,
    pub train_size: [u8; MAX_TRAINS],
    pub train_section: [u16; MAX_TRAINS * MAX_STANDING],
}

// What reading a file answers.
#[repr(C)]
#[derive(Clone, Copy)]
pub struct FlatReading {
    pub refusal: FlatRefusal,
    pub situation: FlatSituation,
}

// The answer to the verdict question: dangerous is 1 or 0.
#[repr(C)]
#[derive(Clone, Copy, Default)]
pub struct FlatVerdict {
    pub refusal: FlatRefusal,
    pub dangerous: u16,
    pub first_train: u16,
    pub second_train: u16,
    pub meeting: u16,
    pub entries: u32,
    pub looks: u32,
    pub first_length: usize,
    pub second_length: usize,
}

// The reply to the settings question: safe is the number of safe settings, proceed the proceed count of the chosen one.
#[repr(C)]
#[derive(Clone, Copy, Default)]
pub struct FlatReply {
    pub refusal: FlatRefusal,
    pub safe: u16,
    pub proceed: u16,
}

// How many bytes were written to the start of a lent buffer, and how many subtractions their digits took. The converter, the report, the standing
// answers and the table of conflicts return the number of bytes alone (`FlatFilled`).
#[repr(C)]
#[derive(Clone, Copy)]
pub struct FlatOutput {
    pub refusal: FlatRefusal,
    pub length: usize,
    pub subtractions: u32,
}

// A yes or no: yes is 1 or 0. This struct and the four after it have one value beside the refusal, and are no generic one: the statements of
// `demands` and the header for C name each of them, and its value as `yes`, `length`, `desk`, `byte` or `state`.
#[repr(C)]
#[derive(Clone, Copy)]
pub struct FlatYesNo {
    pub refusal: FlatRefusal,
    pub yes: u16,
}

// How many bytes of a lent buffer were filled.
#[repr(C)]
#[derive(Clone, Copy)]
pub struct FlatFilled {
    pub refusal: FlatRefusal,
    pub length: usize,
}

// The desk after a start or a write. C has the same struct for a desk.
#[repr(C)]
#[derive(Clone, Copy)]
pub struct FlatDeskAnswer {
    pub refusal: FlatRefusal,
    pub desk: Desk,
}

// The byte read at an address of a desk.
#[repr(C)]
#[derive(Clone, Copy)]
pub struct FlatDeskByte {
    pub refusal: FlatRefusal,
    pub byte: u16,
}

// The state after the last draw of a placement.
#[repr(C)]
#[derive(Clone, Copy)]
pub struct FlatPlaced {
    pub refusal: FlatRefusal,
    pub state: u64,
}

// A part of one of two lent lists: which of the two, 1 or 2, and how many of its first numbers.
#[repr(C)]
#[derive(Clone, Copy)]
pub struct FlatPart {
    pub list: u16,
    pub length: usize,
}

// One element, by its numbers in the five arrays of the elements.
#[derive(Clone, Copy)]
pub struct FlatElement {
    pub turnout: u8,
    pub first: u16,
    pub second: u16,
    pub third: u16,
    pub state: u8,
}

// ---- to flat values
impl From<Refusal> for FlatRefusal {
    ghost from_gives = { λ q f. f ≡ flat_refusal q };

    fn from(q: Refusal) -> FlatRefusal {
        FlatRefusal {
            number: u16::from(q.cause.number()),
            line: q.line,
        }
    }
}

impl From<Element> for FlatElement {
    ghost from_gives = { λ e f. f ≡ flat_element e };

    fn from(e: Element) -> FlatElement {
        match e.kind {
            Kind::Signal(m) => FlatElement {
                turnout: 0,
                first: m.from.0,
                second: m.to.0,
                third: 0,
                state: e.state,
            },
            Kind::Turnout(t) => FlatElement {
                turnout: 1,
                first: t.stem.0,
                second: t.straight.0,
                third: t.diverted.0,
                state: e.state,
            },
        }
    }
}

// By reference, so that the situation is not copied.
impl From<&Situation> for FlatSituation {
    ghost from_gives = { λ s f. f ≡ flat_situation s.now };

    fn from(s: &Situation) -> FlatSituation {
        FlatSituation {
            sections: s.header.sections,
            plain: s.header.plain,
            elements: s.header.elements,
            trains: s.header.trains,
            plain_from: array::from_fn(|i| s.plain[i].from.0),
            plain_to: array::from_fn(|i| s.plain[i].to.0),
            is_turnout: array::from_fn(|i| FlatElement::from(s.elements[i]).turnout),
            element_first: array::from_fn(|i| FlatElement::from(s.elements[i]).first),
            element_second: array::from_fn(|i| FlatElement::from(s.elements[i]).second),
            element_third: array::from_fn(|i| FlatElement::from(s.elements[i]).third),
            element_state: array::from_fn(|i| FlatElement::from(s.elements[i]).state),
            is_long: match s.header.letter {
                Letter::S => 0,
                Letter::U => 1,
            },
            train_size: array::from_fn(|i| s.trains[i].count),
            train_section: array::from_fn(|i| {
                let t = s.trains[i / MAX_STANDING];
                [t.first, t.second, t.third, t.fourth][i % MAX_STANDING].0
            }),
        }
    }
}

// All numbers are 0. A derived default says of each array that its entries are 0; the definition's lists would have to be made from that where a reading
// is made.
impl Default for FlatSituation {
    ghost is_default = { λ f. f ≡ flat_situation no_situation };

    fn default() -> FlatSituation {
        FlatSituation {
            sections: 0,
            plain: 0,
            elements: 0,
            trains: 0,
            plain_from: [0; MAX_PLAIN],
            plain_to: [0; MAX_PLAIN],
            is_turnout: [0; MAX_ELEMENTS],
            element_first: [0; MAX_ELEMENTS],
            element_second: [0; MAX_ELEMENTS],
            element_third: [0; MAX_ELEMENTS],
            element_state: [0; MAX_ELEMENTS],
            is_long: 0,
            train_size: [0; MAX_TRAINS],
            train_section: [0; MAX_TRAINS * MAX_STANDING],
        }
    }
}

// The conversion stays a function of its own, so that its arrays are not on the stack beside the reader's.
impl From<Result<Situation, Refusal>> for FlatReading {
    ghost from_gives = { λ r f. f ≡ flat_reading_answer r };

    #[inline(never)]
    fn from(r: Result<Situation, Refusal>) -> FlatReading {
        match r {
            Ok(s) => FlatReading {
                refusal: FlatRefusal::default(),
                situation: FlatSituation::from(&s),
            },
            Err(q) => FlatReading {
                refusal: q.into(),
                situation: FlatSituation::default(),
            },
        }
    }
}

// ---- from flat values
impl From<FlatElement> for Element {
    ghost from_gives = { λ f e. e ≡ element_from_c f };

    fn from(e: FlatElement) -> Element {
        let kind = if e.turnout == 0 {
            Kind::Signal(Move {
                from: Section(e.first),
                to: Section(e.second),
            })
        } else {
            Kind::Turnout(Turnout {
                stem: Section(e.first),
                straight: Section(e.second),
                diverted: Section(e.third),
            })
        };
        Element {
            kind,
            state: e.state,
        }
    }
}

// All entries are converted, those past the counts too; by reference, so that the arrays are not copied.
impl From<&FlatSituation> for Situation {
    ghost from_gives = { λ f s. s ≡ situation_from_c f.now };

    fn from(f: &FlatSituation) -> Situation {
        Situation {
            header: Header {
                letter: if f.is_long == 0 { Letter::S } else { Letter::U },
                sections: f.sections,
                plain: f.plain,
                elements: f.elements,
                trains: f.trains,
            },
            plain: array::from_fn(|i| Move {
                from: Section(f.plain_from[i]),
                to: Section(f.plain_to[i]),
            }),
            elements: array::from_fn(|i| {
                Element::from(FlatElement {
                    turnout: f.is_turnout[i],
                    first: f.element_first[i],
                    second: f.element_second[i],
                    third: f.element_third[i],
                    state: f.element_state[i],
                })
            }),
            trains: array::from_fn(|i| Train {
                count: f.train_size[i],
                first: Section(f.train_section[MAX_STANDING * i]),
                second: Section(f.train_section[MAX_STANDING * i + 1]),
                third: Section(f.train_section[MAX_STANDING * i + 2]),
                fourth: Section(f.train_section[MAX_STANDING * i + 3]),
            }),
        }
    }
}

// ---- answers
// Returns the refusal, number 0 where there is none, and the value beside it, which is `none` after a refusal.
fn parts<T: Copy>(r: Result<T, Refusal>, none: T) -> (FlatRefusal, T)
    ensures { MatchResult r (λ x. result ≡ (no_refusal, x)) (λ q. result ≡ (flat_refusal q, none)) }
{
    match r {
        Ok(x) => (FlatRefusal::default(), x),
        Err(q) => (q.into(), none),
    }
}

impl From<Result<(), Refusal>> for FlatRefusal {
    ghost from_gives = { λ r f. f ≡ flat_outcome r };

    fn from(r: Result<(), Refusal>) -> FlatRefusal {
        parts(r, ()).0
    }
}

// After a refusal all other fields are 0; a safe verdict has 0 for the trains, the section and the lengths.
impl From<Result<ShownVerdict, Refusal>> for FlatVerdict {
    ghost from_gives = { λ r f. f ≡ flat_verdict r };

    fn from(r: Result<ShownVerdict, Refusal>) -> FlatVerdict {
        match r {
            Ok(ShownVerdict::Safe(c)) => FlatVerdict {
                entries: c.entries,
                looks: c.looks,
                ..FlatVerdict::default()
            },
            Ok(ShownVerdict::Dangerous(m, c, n)) => FlatVerdict {
                refusal: FlatRefusal::default(),
                dangerous: 1,
                first_train: m.first.0,
                second_train: m.second.0,
                meeting: m.section.0,
                entries: c.entries,
                looks: c.looks,
                first_length: n.first,
                second_length: n.second,
            },
            Err(q) => FlatVerdict {
                refusal: q.into(),
                ..FlatVerdict::default()
            },
        }
    }
}

// Both numbers are 0 where no setting is safe, and after a refusal.
impl From<Result<Option<Choice>, Refusal>> for FlatReply {
    ghost from_gives = { λ r f. f ≡ flat_reply r };

    fn from(r: Result<Option<Choice>, Refusal>) -> FlatReply {
        let (refusal, choice) = parts(r, None);
        let c = choice.unwrap_or(Choice {
            safe: 0,
            proceed: 0,
        });
        FlatReply {
            refusal,
            safe: c.safe,
            proceed: c.proceed,
        }
    }
}

// After a refusal both numbers are 0.
impl From<Result<Output, Refusal>> for FlatOutput {
    ghost from_gives = { λ r f. f ≡ flat_output r };

    fn from(r: Result<Output, Refusal>) -> FlatOutput {
        let none = Output {
            length: 0,
            subtractions: 0,
        };
        let (refusal, output) = parts(r, none);
        FlatOutput {
            refusal,
            length: output.length,
            subtractions: output.subtractions,
        }
    }
}

// After a refusal yes is 0.
impl From<Result<bool, Refusal>> for FlatYesNo {
    ghost from_gives = { λ r f. f ≡ flat_yes_no r };

    fn from(r: Result<bool, Refusal>) -> FlatYesNo {
        let (refusal, yes) = parts(r, false);
        FlatYesNo {
            refusal,
            yes: yes.into(),
        }
    }
}

// After a refusal the length is 0.
impl From<Result<usize, Refusal>> for FlatFilled {
    ghost from_gives = { λ r f. f ≡ flat_filled r };

    fn from(r: Result<usize, Refusal>) -> FlatFilled {
        let (refusal, length) = parts(r, 0);
        FlatFilled { refusal, length }
    }
}

// After a refused start the desk has no element.
impl From<Result<Desk, Refusal>> for FlatDeskAnswer {
    ghost from_gives = { λ r f. f ≡ flat_start r };

    #[tactic(auto, unfolding(session_meaning::specs::Desk::desk_of, meaning::specs::File::no_situation, basics::specs::Lists::pad_to))]
    fn from(r: Result<Desk, Refusal>) -> FlatDeskAnswer {
        // A `Default` of `Desk` would say in `meaning` what C alone gets after a refusal.
        let none = Desk {
            control: 0,
            status: 0,
            number_low: 0,
            number_high: 0,
            state: 0,
            elements: 0,
            file_state: [0; MAX_ELEMENTS],
            element_state: [0; MAX_ELEMENTS],
        };
        let (refusal, desk) = parts(r, none);
        FlatDeskAnswer { refusal, desk }
    }
}

// After a refusal the byte is 0.
impl From<Result<u8, Refusal>> for FlatDeskByte {
    ghost from_gives = { λ r f. f ≡ flat_desk_byte r };

    fn from(r: Result<u8, Refusal>) -> FlatDeskByte {
        let (refusal, byte) = parts(r, 0);
        FlatDeskByte {
            refusal,
            byte: byte.into(),
        }
    }
}

// After a refusal the state is 0.
impl From<Result<u64, Refusal>> for FlatPlaced {
    ghost from_gives = { λ r f. f ≡ flat_placed r };

    fn from(r: Result<u64, Refusal>) -> FlatPlaced {
        let (refusal, state) = parts(r, 0);
        FlatPlaced { refusal, state }
    }
}
