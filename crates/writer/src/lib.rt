// The writer: a situation as the bytes of its file, at the start of a lent buffer. First the ranges, then every line's causes of
// refusal, then the buffer's length; only then is anything stored.
#![tactic(auto)]

ghost use Rattle.std.specs.Prelude.{OnOk, IfErr, ◌≡◌, true, ◌++◌, ◌+◌, ◌*◌, ◌≤◌, ◌<◌, length, drop};
ghost use Rattle.std.proofs.lemmas.List.Edits.{sets};
ghost use Rattle.meaning.specs.declared.Letter.{Letter};
ghost use Rattle.meaning.specs.declared.Line.{Line};
ghost use Rattle.meaning.specs.Refusals.{number_in};
ghost use Rattle.line_checks.specs.Causes.{Checked};
ghost use Rattle.writer.specs.Parts.{Cut, Checks, Stores};
ghost use Rattle.line_writer.specs.Rows.{Printable};
ghost use Rattle.meaning.specs.Columns.{line_text};
ghost use Rattle.meaning.specs.Digits.{printed_sum};
ghost use Rattle.meaning.specs.File.{
  Limits,
  after_writing,
  file_text,
  line_count,
  line_of_element,
  line_of_header,
  line_of_move,
  line_of_train,
  kind_of_letter,
  most_under,
  counted,
  out_of_range,
  refusal,
  refusal_of,
  unless_refused,
  writing_answer,
  written_line,
};

use line_checks::Seen;
use meaning::{
    Cause, Element, Header, Kind, LINE_BYTES, Letter, Line, MAX_ELEMENTS, MAX_PLAIN, MAX_TRAINS,
    Move, Output, Refusal, Section, Situation, Train,
};

// Returns the kind of a first line with this letter. A `From` would stand beside `Letter`, below the crate that numbers the kinds; so would one for
// the line of a header.
fn kind_of_letter(letter: Letter) -> u8
    ensures { result ≡ kind_of_letter letter }
{
    match letter {
        Letter::S => columns::S_LINE,
        Letter::U => columns::U_LINE,
    }
}

// Returns the first line.
fn line_of_header(h: Header) -> Line
    ensures line { result ≡ line_of_header h }
    ensures fits { Printable result }
{
    let letter = h.letter;
    Line {
        kind: kind_of_letter(letter),
        first: u32::from(h.sections),
        second: u32::from(h.plain),
        third: u32::from(h.elements),
        fourth: u32::from(h.trains),
    }
}

// A situation whose numbers are inside their ranges: its parts, each lent as an array of its own.
#[derive(Drop)]
struct InRange<'a> {
    header: Header,
    plain: &'a [Move; MAX_PLAIN],
    elements: &'a [Element; MAX_ELEMENTS],
    trains: &'a [Train; MAX_TRAINS],
    ghost limits: { Limits header },
}

// An entry of a situation, which has a line of its own after the first line: a P line's move, an element or a train.
trait Entry: Copy {
    // The entry's line in a file that begins with a letter.
    ghost line: { Letter → Self → Line };

    // Returns that line.
    fn line(self, letter: Letter) -> Line
        ensures line { result ≡ line letter self }
        ensures fits { Printable result };

    // Returns the line's cause of refusal after the lines whose pairs have been seen. Where it has none, its own pairs are added to those.
    fn check(self, lines: &InRange, seen: &mut Seen) -> Result<(), Cause>
        ensures { let h = lines.now.header in Checked h.sections (line h.letter self) seen.old seen.new (number_in result) };

    // Stores the line in the place of line i, and returns how many subtractions its digits took.
    fn put(self, letter: Letter, buffer: &mut [u8], i: u32) -> u32
        requires { i * 22 + 22 ≤ length buffer.old }
        ensures text { buffer.new ≡ sets buffer.old (i * 22) (line_text (line letter self)) }
        ensures count { result ≡ printed_sum (line_text (line letter self)) }
        ensures few { result ≤ 360 }
    {
        line_writer::put_line(buffer, i, self.line(letter))
    }
}

impl Entry for Move {
    ghost line = { λ _ m. line_of_move m };

    fn line(self, _letter: Letter) -> Line {
        Line {
            kind: columns::P_LINE,
            first: u32::from(self.from.0),
            second: u32::from(self.to.0),
            third: 0,
            fourth: 0,
        }
    }

    fn check(self, lines: &InRange, seen: &mut Seen) -> Result<(), Cause> {
        let h = lines.header;
        line_checks::cause_after(columns::P_LINE, self.line(h.letter), h.sections, seen)
    }

    // Stores the line by code of its own, since most lines are P lines.
    fn put(self, letter: Letter, buffer: &mut [u8], i: u32) -> u32 {
        line_writer::put_plain(buffer, i, self.line(letter))
    }
}

impl Entry for Element {
    ghost line = { λ _ e. line_of_element e };

    fn line(self, _letter: Letter) -> Line {
        let x = u32::from(self.state);
        let k = self.kind;
        match k {
            Kind::Signal(m) => Line {
                kind: columns::SIGNAL,
                first: u32::from(m.from.0),
                second: u32::from(m.to.0),
                third: x,
                fourth: 0,
            },
            Kind::Turnout(t) => Line {
                kind: columns::TURNOUT,
                first: u32::from(t.stem.0),
                second: u32::from(t.straight.0),
                third: u32::from(t.diverted.0),
                fourth: x,
            },
        }
    }

    // A signal and a turnout have a call with a constant each, so that each has code of its own (what it costs as a call: `line_checks::line_cause`).
    fn check(self, lines: &InRange, seen: &mut Seen) -> Result<(), Cause> {
        let h = lines.header;
        let l = self.line(h.letter);
        let k = self.kind;
        match k {
            Kind::Signal(_) => line_checks::cause_after(columns::SIGNAL, l, h.sections, seen),
            Kind::Turnout(_) => line_checks::cause_after(columns::TURNOUT, l, h.sections, seen),
        }
    }
}

// Returns the most sections that a train has under a letter.
fn most_under(letter: Letter) -> u8
    ensures { result ≡ most_under letter }
{
    match letter {
        Letter::S => 1,
        Letter::U => 4,
    }
}

// Returns the number in field j of a T line that fills n fields: the section's, or 0 where the field is not filled.
fn counted(n: u8, j: u8, a: Section) -> u32
    ensures number { result ≡ counted n j a }
    ensures fits { result ≤ 65535 }
{
    if j < n { u32::from(a.0) } else { 0 }
}

impl Entry for Train {
    ghost line = { line_of_train };

    // Returns the T line; for a train whose count no T line has, a line that is not of the form.
    fn line(self, letter: Letter) -> Line {
        let n = self.count;
        let most = most_under(letter);
        if (n == 0) | (most < n) {
            return Line {
                kind: columns::MALFORMED,
                first: 0,
                second: 0,
                third: 0,
                fourth: 0,
            };
        }
        Line {
            kind: n + (columns::T_LINE - 1),
            first: counted(n, 0, self.first),
            second: counted(n, 1, self.second),
            third: counted(n, 2, self.third),
            fourth: counted(n, 3, self.fourth),
        }
    }

    // A T line stands over no pair. Under S it has code of its own (what it costs as a call: `line_checks::line_cause`).
    #[tactic(auto, using(crate::proofs::Lines::train_checked))]
    fn check(self, lines: &InRange, _seen: &mut Seen) -> Result<(), Cause> {
        let h = lines.header;
        let l = self.line(h.letter);
        match h.letter {
            Letter::S => line_checks::line_cause(columns::T_LINE, l, h.sections),
            Letter::U => line_checks::cause_by_table(l, h.sections),
        }
    }
}

// Returns refusal 3 where a number of the first line is outside its range.
fn check_ranges(h: Header) -> Result<(), Refusal>
    ensures inside { OnOk result (Limits h) }
    ensures outside { IfErr result (λ q. (q ≡ refusal 3 1) × (out_of_range h.sections h.plain h.elements h.trains ≡ true)) }
{
    if line_checks::out_of_range(
        u32::from(h.sections),
        u32::from(h.plain),
        u32::from(h.elements),
        u32::from(h.trains),
    ) {
        return Err(Refusal {
            cause: Cause::HeaderRange,
            line: 1,
        });
    }
    Ok(())
}

impl<'a> InRange<'a> {
    ghost use Rattle.writer.specs.InRange.{situation_of};

    // Returns how many lines the file has.
    fn line_count(&self) -> usize
        ensures { result ≡ line_count self.now.header }
    {
        let h = self.header;
        usize::from(h.plain) + usize::from(h.elements) + usize::from(h.trains) + 1
    }

    // Returns the P lines' moves, up to their count.
    // One function for the three parts would take an array and its count, and be a slice.
    fn plain(&self) -> &[Move]
        ensures { let s = situation_of self.now in Cut s.header.plain s.plain result.now }
    {
        let plain = self.plain;
        &plain[..usize::from(self.header.plain)]
    }

    // Returns the elements, up to their count.
    fn elements(&self) -> &[Element]
        ensures { let s = situation_of self.now in Cut s.header.elements s.elements result.now }
    {
        let elements = self.elements;
        &elements[..usize::from(self.header.elements)]
    }

    // Returns the trains, up to their count.
    fn trains(&self) -> &[Train]
        ensures { let s = situation_of self.now in Cut s.header.trains s.trains result.now }
    {
        let trains = self.trains;
        &trains[..usize::from(self.header.trains)]
    }

    // Returns the first refusal in the lines of a part, which come after the first line and `before` others.
    // `as` keeps the number of a line: no file has 65,536.
    fn check_part<T: Entry>(
        &self,
        before: usize,
        part: &[T],
        seen: &mut Seen,
    ) -> Result<(), Refusal>
        requires { let h = self.now.header in before + length part.now ≤ h.plain + h.elements + h.trains }
        ensures { let h = self.now.header in Checks h before part.now (T.line h.letter) seen.old seen.new result }
    {
        for (k, entry) in part.iter().enumerate() {
            if let Err(cause) = entry.check(self, seen) {
                return Err(Refusal {
                    cause,
                    line: (before + k + 2) as u16,
                });
            }
        }
        Ok(())
    }

    // Returns the first refusal in the lines after the first.
    fn check(&self) -> Result<(), Refusal>
        ensures { let s = situation_of self.now in result ≡ unless_refused (refusal_of s.header (written_line s)) tt }
    {
        let mut seen = Seen::new();
        let plain = self.plain();
        let elements = self.elements();
        self.check_part(0, plain, &mut seen)?;
        self.check_part(plain.len(), elements, &mut seen)?;
        self.check_part(plain.len() + elements.len(), self.trains(), &mut seen)
    }

    // Stores the lines of a part, the first of them in the place of line `first`, and returns how many subtractions their digits took.
    // `as` keeps the place of a line, here and in `put`: a part has at most 1,024 lines.
    fn put_part<T: Entry>(&self, first: u32, part: &[T], buffer: &mut [u8]) -> u32
        requires within { first + length part.now ≤ line_count self.now.header }
        requires room { line_count self.now.header * 22 ≤ length buffer.old }
        ensures stored { Stores first part.now (T.line self.now.header.letter) buffer.old buffer.new result }
        ensures few { result ≤ 360 * length part.now }
    {
        let letter = self.header.letter;
        let mut count: u32 = 0;
        for (k, entry) in part.iter().enumerate() {
            count += entry.put(letter, buffer, first + k as u32);
        }
        count
    }

    // Stores all lines, and returns how many subtractions their digits took.
    fn put(&self, buffer: &mut [u8]) -> u32
        requires { line_count self.now.header * 22 ≤ length buffer.old }
        ensures text { let s = situation_of self.now in buffer.new ≡ file_text s ++ drop (line_count s.header * 22) buffer.old }
        ensures count { result ≡ printed_sum (file_text (situation_of self.now)) }
    {
        let plain = self.plain();
        let elements = self.elements();
        let first_element = 1 + plain.len() as u32;
        let first_train = first_element + elements.len() as u32;
        line_writer::put_line(buffer, 0, line_of_header(self.header))
            + self.put_part(1, plain, buffer)
            + self.put_part(first_element, elements, buffer)
            + self.put_part(first_train, self.trains(), buffer)
    }
}

// Writes the file of a situation to the start of the buffer, and returns its length and how many subtractions its digits took; or refuses, and leaves
// the buffer as it was.
pub fn write(s: Situation, buffer: &mut [u8]) -> Result<Output, Refusal>
    ensures answer { result ≡ writing_answer s (length buffer.old) }
    ensures after { buffer.new ≡ after_writing s buffer.old }
{
    let h = s.header;
    check_ranges(h)?;
    // A reference to the whole situation has its arrays copied, to places behind the header that are slow to copy to.
    let plain = s.plain;
    let elements = s.elements;
    let trains = s.trains;
    let lines = InRange {
        header: h,
        plain: &plain,
        elements: &elements,
        trains: &trains,
    };
    lines.check()?;
    let length = lines.line_count() * LINE_BYTES;
    if buffer.len() < length {
        return Err(Refusal {
            cause: Cause::BufferShort,
            line: 0,
        });
    }
    let subtractions = lines.put(buffer);
    Ok(Output {
        length,
        subtractions,
    })
}
