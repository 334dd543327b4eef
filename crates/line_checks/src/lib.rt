// The causes of refusal 3 and 5 to 8, which reader and writer share. The fields of a line are tested as the table of record kinds
// says; cause 8 is tested by the pairs seen so far. A P, L or D line is tested by `cause_after`, a line that stands over no pair by `line_cause`, or by `cause_by_table` where its
// kind is known from the line alone.
#![tactic(auto)]

ghost use Rattle.std.specs.Prelude.{◌≡◌, ◌||◌, not, [], ◌∷◌, ◌++◌, ◌≤◌, length};
ghost use Rattle.meaning.specs.Columns.{having, record_kind_at, no_kind, section_field, state_field};
ghost use Rattle.meaning.specs.Paths.{once};
ghost use Rattle.meaning.specs.Station.{section, both_ways};
ghost use Rattle.meaning.specs.File.{some_outside, some_above2, line_cause, out_of_range};
ghost use Rattle.meaning.specs.Inside.{Inside};
ghost use Rattle.meaning.specs.Refusals.{number_in};
ghost use Rattle.pairs.specs.Pairs.{edge};
ghost use Rattle.line_checks.specs.Causes.{OfKind, Admitted, HasSeen, AdmittedBy, Checked};

use columns::{T_LINE, is_section, is_state};
use meaning::{
    Cause, Line, MAX_ELEMENTS, MAX_PLAIN, MAX_SECTIONS, MAX_TRAINS, RecordKind, Section,
    StationField,
};
use pairs::{Pair, PairSet, Pairs};

// The most that the fields of the first line may say. `as` keeps each: a constant calls no function.
const SECTIONS: u32 = MAX_SECTIONS as u32;

const PLAIN: u32 = MAX_PLAIN as u32;

const ELEMENTS: u32 = MAX_ELEMENTS as u32;

const TRAINS: u32 = MAX_TRAINS as u32;

// The pairs seen so far: those closed to signals, and those closed to turnouts. A pair of a P line is in both.
#[derive(Drop)]
pub struct Seen {
    pub signals: Pairs,
    pub turnouts: Pairs,
}

// Says whether an S field is outside its range: cause 3.
pub fn out_of_range(sections: u32, plain: u32, elements: u32, trains: u32) -> bool
    ensures { result ≡ out_of_range sections plain elements trains }
{
    (sections == 0)
        | (SECTIONS < sections)
        | (PLAIN < plain)
        | (ELEMENTS < elements)
        | (TRAINS < trains)
}

// A well formed line, with the entry of its kind.
// In the table a section stands only where sections alone stand before it, and a state only in the last two fields: the tests below leave
// out the other places.
// The number of sections goes beside the line: the reader has it in its `Body`, the writer in its `InRange`.
#[derive(Clone, Copy)]
struct FormedLine {
    line: Line,
    entry: RecordKind<Option<StationField>>,
    ghost formed: { line.kind ≡ no_kind → ⊥ },
    ghost of_kind: { entry ≡ record_kind_at line.kind },
}

impl FormedLine {
    // Says whether a section number is outside 1 to the number of sections: cause 5.
    #[inline(always)]
    fn some_outside(self, sections: u16) -> bool
        ensures { result ≡ some_outside sections (having section_field self.line) }
    {
        let n = u32::from(sections);
        let l = self.line;
        let m = self.entry.meaning;
        (is_section(m[0]) & ((l.first == 0) | (n < l.first)))
            | ((is_section(m[1]) & ((l.second == 0) | (n < l.second)))
                | ((is_section(m[2]) & ((l.third == 0) | (n < l.third)))
                    | (is_section(m[3]) & ((l.fourth == 0) | (n < l.fourth)))))
    }

    // Says whether a section stands twice in the line: cause 7.
    #[inline(always)]
    fn some_twice(self) -> bool
        ensures { result ≡ not (once (having section_field self.line)) }
    {
        let l = self.line;
        let m = self.entry.meaning;
        (is_section(m[1]) & (l.first == l.second))
            | ((is_section(m[2]) & ((l.first == l.third) | (l.second == l.third)))
                | (is_section(m[3])
                    & (((l.first == l.fourth) | (l.second == l.fourth)) | (l.third == l.fourth))))
    }

    // Says whether a state is above 2: cause 6.
    #[inline(always)]
    fn some_above_2(self) -> bool
        ensures { result ≡ some_above2 (having state_field self.line) }
    {
        let l = self.line;
        let m = self.entry.meaning;
        (is_state(m[2]) & (2 < l.third)) | (is_state(m[3]) & (2 < l.fourth))
    }

    // Returns the first of the causes 5, 7, 6. It stays a call: few lines have a cause, and `cause` asks first whether there is one.
    #[cold]
    #[inline(never)]
    fn first_cause(self, sections: u16) -> Result<(), Cause>
        ensures { number_in result ≡ line_cause sections self.line }
    {
        if self.some_outside(sections) {
            return Err(Cause::SectionRange);
        }
        let twice = self.some_twice();
        let above = self.some_above_2();
        if twice {
            return Err(Cause::SectionTwice);
        }
        if above {
            return Err(Cause::StateRange);
        }
        Ok(())
    }

    // Returns the first of the causes 5, 7, 6, of which most lines have none: the three tests together are one branch for each comparison.
    #[inline(always)]
    fn cause(self, sections: u16) -> Result<(), Cause>
        ensures { number_in result ≡ line_cause sections self.line }
    {
        if self.some_outside(sections) | self.some_twice() | self.some_above_2() {
            return Ok(self.first_cause(sections)?);
        }
        Ok(())
    }
}

// The kinds of a T line of more than one section.
const TWO_SECTIONS: u8 = T_LINE + 1;

const THREE_SECTIONS: u8 = T_LINE + 2;

const FOUR_SECTIONS: u8 = T_LINE + 3;

// Returns the first of the causes 2, 5, 7, 6 of a line by itself. A malformed line may come here and below: the writer makes one of a train whose count no
// T line has.
pub fn cause_by_table(l: Line, sections: u16) -> Result<(), Cause>
    ensures { number_in result ≡ line_cause sections l }
{
    // A T line of each number of sections has code of its own, which takes 35 to 53 instructions; with the entry of its kind from the table it takes 146.
    match l.kind {
        T_LINE => line_cause(T_LINE, l, sections),
        TWO_SECTIONS => line_cause(TWO_SECTIONS, l, sections),
        THREE_SECTIONS => line_cause(THREE_SECTIONS, l, sections),
        FOUR_SECTIONS => line_cause(FOUR_SECTIONS, l, sections),
        k => line_cause(k, l, sections),
    }
}

// Returns the first of the causes 2, 5, 7, 6 of a line that is of kind k or malformed. This and `cause_after` are taken into their callers, so that a kind that is a constant there has
// code of its own: as calls they cost 200,000 instructions more for the largest station, which takes 325,000 to read.
#[inline(always)]
pub fn line_cause(k: u8, l: Line, sections: u16) -> Result<(), Cause>
    requires { OfKind k l }
    ensures { number_in result ≡ line_cause sections l }
{
    if l.kind == columns::MALFORMED {
        return Err(Cause::LineForm);
    }
    let formed = FormedLine {
        line: l,
        entry: columns::record_kind(k),
    };
    formed.cause(sections)
}

// Says whether a pair or the one the other way is in the set.
fn has_either(seen: &Pairs, p: Pair) -> bool
    ensures { result ≡ (edge seen.now.rows p.from.0 p.to.0 || edge seen.now.rows p.to.0 p.from.0) }
{
    seen.has(p) | seen.has(p.back())
}

// Refuses a pair that has been seen with 8; any other is seen from here on.
fn admit_pair(seen: &mut Pairs, p: Pair) -> Result<(), Cause>
    ensures { Admitted (record { from = p.from; to = p.to } ∷ []) seen.old.rows seen.new.rows (number_in result) }
{
    if seen.has(p) {
        return Err(Cause::PairTwice);
    }
    seen.add(p);
    Ok(())
}

// Refuses with 8 a turnout of which one of the four pairs has been seen; else all four are seen from here on. All are tested before any is added.
fn admit_turnout(seen: &mut Pairs, straight: Pair, diverted: Pair) -> Result<(), Cause>
    ensures { Admitted (both_ways straight.from straight.to ++ both_ways diverted.from diverted.to) seen.old.rows seen.new.rows (number_in result) }
{
    if has_either(seen, straight) | has_either(seen, diverted) {
        return Err(Cause::PairTwice);
    }
    seen.add_both_ways(straight);
    seen.add_both_ways(diverted);
    Ok(())
}

impl Seen {
    // Returns what has been seen before the first line: no pair.
    pub fn new() -> Seen
        ensures { HasSeen result [] }
    {
        Seen {
            signals: Pairs::empty(),
            turnouts: Pairs::empty(),
        }
    }

    // Refuses with 8 the pair of a P line that is closed to signals or to turnouts; any other is closed to both from here on.
    fn admit_plain(&mut self, p: Pair) -> Result<(), Cause>
        ensures { AdmittedBy 1 (record { from = p.from; to = p.to } ∷ []) self.old self.new (number_in result) }
    {
        admit_pair(&mut self.signals, p)?;
        admit_pair(&mut self.turnouts, p)
    }

    // Refuses with 8 the pair of a signal that is closed to signals; any other is closed to them from here on. A turnout may stand over it too.
    fn admit_signal(&mut self, p: Pair) -> Result<(), Cause>
        ensures { AdmittedBy 2 (record { from = p.from; to = p.to } ∷ []) self.old self.new (number_in result) }
    {
        admit_pair(&mut self.signals, p)
    }

    // Refuses with 8 a turnout of which one of the four pairs is closed to turnouts; else all four are closed to them from here on. A signal may stand over each too.
    fn admit_legs(&mut self, straight: Pair, diverted: Pair) -> Result<(), Cause>
        ensures { AdmittedBy 3 (both_ways straight.from straight.to ++ both_ways diverted.from diverted.to) self.old self.new (number_in result) }
    {
        admit_turnout(&mut self.turnouts, straight, diverted)
    }
}

// Returns the pair of two sections. `as` keeps them: they are at most 512.
fn pair(from: u32, to: u32) -> Pair
    requires { Inside 512 from × Inside 512 to }
    ensures { (result.from ≡ section from) × (result.to ≡ section to) }
{
    Pair {
        from: Section(from as u16),
        to: Section(to as u16),
    }
}

// Returns the first of the causes 2, 5, 7, 6, 8 of a line that is of kind k or malformed, after those whose pairs have been seen; the pairs of a
// line that has none are seen from here on.
#[inline(always)]
pub fn cause_after(k: u8, l: Line, sections: u16, seen: &mut Seen) -> Result<(), Cause>
    requires { OfKind k l × (sections ≤ 512) }
    ensures { Checked sections l seen.old seen.new (number_in result) }
{
    line_cause(k, l, sections)?;
    match k {
        columns::P_LINE => seen.admit_plain(pair(l.first, l.second)),
        columns::SIGNAL => seen.admit_signal(pair(l.first, l.second)),
        columns::TURNOUT => seen.admit_legs(pair(l.first, l.second), pair(l.first, l.third)),
        _ => Ok(()),
    }
}
