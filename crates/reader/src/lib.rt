// The reader: a file's bytes to a situation, or the first refusal with its line, in one pass. The loop over a part stops at the first line that has
// a cause.
#![tactic(auto)]

ghost use Rattle.std.specs.Prelude.{IfOk, IfSome, MatchResult, unwrap_or, List, ℕ, ◌-◌, ◌<◌, ◌≡◌, cond, ◌+◌, ◌*◌, ◌≤◌, eqb, get_or, length};
ghost use Rattle.meaning.specs.Refusals.{number_in};
ghost use Rattle.meaning.specs.Columns.{padded, line_at, malformed, no_kind};
ghost use Rattle.meaning.specs.File.{
  line_cause,
  Limits,
  move_of,
  element_of,
  train_of,
  first_kind_of,
  letter_of,
  header_of,
  train_kind,
  refusal_of,
  situation_of,
  file_line,
  answered,
  unless_refused,
  reading_under_in,
  reading_answer,
};
ghost use Rattle.meaning.specs.declared.Cause.TheVariants.{LineForm};
ghost use Rattle.meaning.specs.declared.Letter.{Letter};
ghost use Rattle.meaning.specs.declared.Line.{Line};
ghost use Rattle.line_checks.specs.Causes.{Checked, Passed};
ghost use Rattle.reader.specs.Reader.{ElementFits, TrainFits, element_line_at, IsPart, PartRead};

use line_checks::Seen;
use meaning::{
    Cause, Element, FieldForm, Header, Kind, LINE_BYTES, LONGEST_FILE, Letter, Line, MAX_ELEMENTS,
    MAX_PLAIN, MAX_TRAINS, Move, Refusal, Section, Situation, Train, Turnout,
};

const NO_SECTION: Section = Section(0);

const NO_MOVE: Move = Move {
    from: NO_SECTION,
    to: NO_SECTION,
};

const NO_TRAIN: Train = Train {
    count: 0,
    first: NO_SECTION,
    second: NO_SECTION,
    third: NO_SECTION,
    fourth: NO_SECTION,
};

const NO_ELEMENT: Element = Element {
    kind: Kind::Signal(NO_MOVE),
    state: 0,
};

// These return the values of a line that has no cause. That their numbers fit has been proved where these are called: a `From` would take any line, and a `TryFrom`
// test the numbers again.
fn move_of(l: Line) -> Move
    requires { (l.first ≤ 512) × (l.second ≤ 512) }
    ensures { result ≡ move_of l }
{
    Move {
        from: Section(l.first as u16),
        to: Section(l.second as u16),
    }
}

fn element_of(l: Line) -> Element
    requires { ElementFits l }
    ensures { result ≡ element_of l }
{
    if l.kind == columns::TURNOUT {
        let turnout = Turnout {
            stem: Section(l.first as u16),
            straight: Section(l.second as u16),
            diverted: Section(l.third as u16),
        };
        return Element {
            kind: Kind::Turnout(turnout),
            state: l.fourth as u8,
        };
    }
    Element {
        kind: Kind::Signal(move_of(l)),
        state: l.third as u8,
    }
}

// Returns the train of a T line, of one section or more.
fn train_of(l: Line) -> Train
    requires { TrainFits l }
    ensures { result ≡ train_of l }
{
    Train {
        count: l.kind - (columns::T_LINE - 1),
        first: Section(l.first as u16),
        second: Section(l.second as u16),
        third: Section(l.third as u16),
        fourth: Section(l.fourth as u16),
    }
}

// Returns the letter of a first line of kind k. It is no `From`: a kind that is neither U nor S has no letter of its own.
fn letter_of(k: u8) -> Letter
    ensures { result ≡ letter_of k }
{
    if k == columns::U_LINE {
        Letter::U
    } else {
        Letter::S
    }
}

// Returns the numbers of the first line, with its letter.
// It is no `From`, as those above: it asks that the numbers are inside their ranges.
fn header_of(l: Line) -> Header
    requires { Limits (header_of l) }
    ensures { result ≡ header_of l }
{
    let letter = letter_of(l.kind);
    Header {
        letter,
        sections: l.first as u16,
        plain: l.second as u16,
        elements: l.third as u16,
        trains: l.fourth as u16,
    }
}

// Reads the first line: as a U line where its letter is U, else as an S line.
fn first_line(file: &[u8]) -> Option<Line>
    ensures line { unwrap_or result malformed ≡ line_at padded file.now 0 (first_kind_of file.now) }
    ensures formed { IfSome result (λ l. l.kind ≡ no_kind → ⊥) }
{
    let u = columns::record_kind(columns::U_LINE);
    let letter = line_reader::byte_at(file, 0);
    if letter == u.letter {
        return line_reader::line(file, 0, columns::U_LINE, FieldForm::Padded);
    }
    line_reader::line(file, 0, columns::S_LINE, FieldForm::Padded)
}

// A file whose first line has numbers inside their ranges.
#[derive(Drop)]
struct Body<'a> {
    file: &'a [u8],
    header: Header,
    ghost limits: { Limits header },
}

// What has a line of its own behind the first one.
trait Entry: Copy {
    // The line that it is read from, in a file that begins with a letter.
    ghost line: { List ℕ → Letter → ℕ → Line };

    // What it is, by that line.
    ghost value: { Line → Self };

    // Reads line i as an entry, or returns its cause of refusal after the lines whose pairs have been seen; where it has none, its own pairs are seen from here on.
    fn read(body: &Body, i: u32, seen: &mut Seen) -> Result<Self, Cause>
        ensures value { IfOk result (λ x. x ≡ value (line body.now.file.now body.now.header.letter i)) }
        ensures cause { let h = body.now.header in
            Checked h.sections (line body.now.file.now h.letter i) seen.old seen.new (number_in result) };
}

impl Entry for Move {
    ghost line = { λ file _ i. line_at padded file i 1 };

    ghost value = { move_of };

    fn read(body: &Body, i: u32, seen: &mut Seen) -> Result<Move, Cause> {
        let l = body.line(i, columns::P_LINE)?;
        line_checks::cause_after(columns::P_LINE, l, body.header.sections, seen)?;
        Ok(move_of(l))
    }
}

impl Entry for Element {
    ghost line = { λ file _ i. element_line_at file i };

    ghost value = { element_of };

    fn read(body: &Body, i: u32, seen: &mut Seen) -> Result<Element, Cause> {
        let l = body.element_line(i, seen)?;
        Ok(element_of(l))
    }
}

impl Entry for Train {
    ghost line = { λ file letter i. line_at padded file i (train_kind letter file i) };

    ghost value = { train_of };

    // The line stands over no pair.
    fn read(body: &Body, i: u32, _seen: &mut Seen) -> Result<Train, Cause> {
        let l = body.train_line(i)?;
        Ok(train_of(l))
    }
}

impl<'a> Body<'a> {
    // Reads line i, of kind k, or returns cause 2. It is taken into its callers, as the line is.
    #[inline(always)]
    fn line(&self, i: u32, k: u8) -> Result<Line, Cause>
        ensures { let l = line_at padded self.now.file.now i k in
            MatchResult result (λ x. x ≡ l) (λ e. (e ≡ LineForm) × (malformed ≡ l)) }
    {
        line_reader::line(self.file, i, k, FieldForm::Padded).ok_or(Cause::LineForm)
    }

    // Reads T line i, or returns its cause of refusal. A line of an S file has code of its own (what it costs as a call: `line_checks::line_cause`).
    fn train_line(&self, i: u32) -> Result<Line, Cause>
        ensures line { let letter = self.now.header.letter in let file = self.now.file.now in
            IfOk result (λ l. l ≡ line_at padded file i (train_kind letter file i)) }
        ensures cause { let h = self.now.header in let file = self.now.file.now in
            number_in result ≡ line_cause h.sections (line_at padded file i (train_kind h.letter file i)) }
    {
        let h = self.header;
        match h.letter {
            Letter::S => {
                let l = self.line(i, columns::T_LINE)?;
                line_checks::line_cause(columns::T_LINE, l, h.sections)?;
                Ok(l)
            }
            Letter::U => {
                let l = line_reader::long_line(self.file, i).ok_or(Cause::LineForm)?;
                line_checks::cause_by_table(l, h.sections)?;
                Ok(l)
            }
        }
    }

    // Returns the kind that element line i is to be of: a signal where its letter is L, else a turnout.
    fn element_kind(&self, i: u32) -> u8
        ensures { result ≡ cond (eqb (get_or self.now.file.now (i * 22) 0) 76) 2 3 }
    {
        let signal = columns::record_kind(columns::SIGNAL);
        let letter = line_reader::byte_at(self.file, columns::offset(i));
        if letter == signal.letter {
            columns::SIGNAL
        } else {
            columns::TURNOUT
        }
    }

    // Reads element line i, or returns its cause of refusal after the lines whose pairs have been seen. A signal and a turnout have a call with a constant each, so that
    // each has code of its own (what it costs as a call: `line_checks::line_cause`).
    fn element_line(&self, i: u32, seen: &mut Seen) -> Result<Line, Cause>
        ensures line { IfOk result (λ l. l ≡ element_line_at self.now.file.now i) }
        ensures cause { Checked self.now.header.sections (element_line_at self.now.file.now i) seen.old seen.new (number_in result) }
    {
        let sections = self.header.sections;
        if self.element_kind(i) == columns::SIGNAL {
            let l = self.line(i, columns::SIGNAL)?;
            line_checks::cause_after(columns::SIGNAL, l, sections, seen)?;
            return Ok(l);
        }
        let l = self.line(i, columns::TURNOUT)?;
        line_checks::cause_after(columns::TURNOUT, l, sections, seen)?;
        Ok(l)
    }

    // Reads the entries of a part: n of them, from line `first` on, and what stands past them.
    // `as` keeps the number of a line: no file has 65,536.
    fn part<T: Entry, const N: usize>(
        &self,
        first: u32,
        n: u16,
        none: T,
        seen: &mut Seen,
    ) -> Result<[T; N], Refusal>
        requires within { IsPart self.now.header first n × (n ≤ N) }
        requires lines { let h = self.now.header in let file = self.now.file.now in
            (j : ℕ) → j < n → T.line file h.letter (first + j) ≡ file_line file h (first + j) }
        requires passed { let h = self.now.header in Passed h (file_line self.now.file.now h) (first - 1) seen.old }
        ensures { let h = self.now.header in PartRead h (file_line self.now.file.now h) first n N none T.value seen.new result }
    {
        let mut entries = [none; N];
        for k in 0..usize::from(n) {
            let i = first + k as u32;
            match T::read(self, i, seen) {
                Ok(entry) => entries[k] = entry,
                Err(cause) => {
                    return Err(Refusal {
                        cause,
                        line: (i + 1) as u16,
                    });
                }
            }
        }
        Ok(entries)
    }

    // Reads the lines after the first as a situation. It stays a call: taken into its caller, it would clear memory for its lists before the first line is tested.
    #[inline(never)]
    fn read(&self) -> Result<Situation, Refusal>
        ensures { let h = self.now.header in let lines = file_line self.now.file.now h in
            result ≡ unless_refused (refusal_of h lines) (situation_of h lines) }
    {
        let h = self.header;
        let first_element = 1 + u32::from(h.plain);
        let first_train = first_element + u32::from(h.elements);
        let mut seen = Seen::new();
        let plain = self.part(1, h.plain, NO_MOVE, &mut seen)?;
        let elements = self.part(first_element, h.elements, NO_ELEMENT, &mut seen)?;
        let trains = self.part(first_train, h.trains, NO_TRAIN, &mut seen)?;
        Ok(Situation {
            header: h,
            plain,
            elements,
            trains,
        })
    }
}

// Reads a file whose first line has been read.
fn under(file: &[u8], l: Line) -> Result<Situation, Refusal>
    requires { l.kind ≡ no_kind → ⊥ }
    ensures { result ≡ answered (reading_under_in padded file.now l) }
{
    if line_checks::out_of_range(l.first, l.second, l.third, l.fourth) {
        return Err(Refusal {
            cause: Cause::HeaderRange,
            line: 1,
        });
    }
    // `as` keeps it: a file has at most 1,345 lines.
    let n = (l.second + l.third + l.fourth + 1) as usize;
    if file.len() / LINE_BYTES != n {
        return Err(Refusal {
            cause: Cause::LineCount,
            line: 1,
        });
    }
    let lines = Body {
        file,
        header: header_of(l),
    };
    lines.read()
}

// Reads a file.
pub fn read(file: &[u8]) -> Result<Situation, Refusal>
    ensures { result ≡ reading_answer file.now }
{
    let n = file.len();
    if (n == 0) | (n % LINE_BYTES != 0) | (LONGEST_FILE < n) {
        return Err(Refusal {
            cause: Cause::FileLength,
            line: 0,
        });
    }
    let l = first_line(file).ok_or(Refusal {
        cause: Cause::LineForm,
        line: 1,
    })?;
    under(file, l)
}
