// The report of a session. One walk goes over the lent records: it adds each to the session's sums and keeps its key, a number by whose
// order records are in order by candidate. The keys are put in order, and those of one candidate stand side by side.
#![tactic(auto)]

ghost use Rattle.std.specs.Prelude.{Option, Result, ◌≡◌, ◌+◌, ◌*◌, ◌<◌, ◌≤◌, min, ◌++◌, map, length, drop};
ghost use Rattle.session_meaning.specs.Report.{right_mark, totals_text, report_answer, after_report};
ghost use Rattle.sorting.specs.Sorted.{RisingBy, sorted};
ghost use Rattle.sorting.specs.Digits.{low};
ghost use Rattle.report.specs.Gathering.{
  Begun,
  key_of,
  total_at,
  joined,
  same_first,
  wrong_after,
  sums_with,
  with_all,
  nothing,
  no_keys_of,
  both,
  answer_by,
  after_by,
  answer_of,
  after_of,
};

use meaning::{Cause, LINE_BYTES, Refusal};
use session_meaning::{AnswerField, Mark};

// The most records that a report takes, and the places for their keys: one is for what is too many.
const MOST: usize = 999;

const PLACES: usize = MOST + 1;

// How many values a sum in a key can have, and how many a place; candidate, place, gained and possible stand in it from the left.
// A key is a number and no type of its own: `sorting::sort` deals numbers by their digits.
const SUMS: u64 = 131072;

const BELOW_PLACE: u64 = SUMS * SUMS;

const BELOW_CANDIDATE: u64 = 1024 * BELOW_PLACE;

// The bit at which the candidate begins. The record's place stands below it, so that keys are in order by the bits there as they are stored.
const CANDIDATE_AT: u64 = 44;

// ---- the walk
// How many records were seen, the place of the first wrong one, from 1, and the session's sums. After too many, `seen` is 1000,
// so that `with` asks nothing of what it is given.
#[derive(Clone, Copy)]
struct Sums {
    seen: usize,
    wrong: Option<u16>,
    gained: u32,
    possible: u32,
}

// What the walk has: the sums, and the key of each record. The last place is for what is too many.
// With no heap the keys are an array, and `seen` says how many stand in it.
#[derive(Clone, Copy)]
struct Gathered {
    sums: Sums,
    keys: [u64; PLACES],
}

// Tells whether a record is in the stated ranges.
#[tactic(auto, unfolding(session_meaning::specs::Report::right_mark))]
fn right_mark(m: Mark) -> bool
    ensures { result ≡ right_mark m }
{
    let candidate = answers::allowed(Some(AnswerField::Candidate), u32::from(m.candidate));
    let question = answers::allowed(Some(AnswerField::Question), u32::from(m.question));
    candidate & (question & ((m.gained <= m.possible) & (m.possible <= 100)))
}

// Returns the place of the first wrong record, once the record after `before` others is known.
// `as` keeps a place, which is at most 999.
fn wrong_after(wrong: Option<u16>, before: usize, m: Mark) -> Option<u16>
    requires { before < 999 }
    ensures { result ≡ wrong_after wrong before m }
{
    if wrong.is_some() || right_mark(m) {
        return wrong;
    }
    Some((before + 1) as u16)
}

// Returns candidate, place, gained and possible in one number.
// `as` widens the place: from a usize there is no `From`.
fn key_of(place: usize, m: Mark) -> u64
    requires { place ≤ 999 }
    ensures { result ≡ key_of place m }
{
    let line = u64::from(m.candidate) * 1024 + place as u64;
    (line * SUMS + u64::from(m.gained)) * SUMS + u64::from(m.possible)
}

// Returns the sums before the first record.
fn nothing() -> Sums
    ensures { result ≡ nothing }
{
    Sums {
        seen: 0,
        wrong: None,
        gained: 0,
        possible: 0,
    }
}

impl Sums {
    // Returns the sums with one record more. Those of 999 records do not wrap.
    #[tactic(auto, unfolding(crate::specs::Gathering::sums_with))]
    fn with(self, m: Mark) -> Sums
        ensures { result ≡ sums_with self m }
    {
        let seen = self.seen;
        if seen < MOST {
            return Sums {
                seen: seen + 1,
                wrong: wrong_after(self.wrong, seen, m),
                gained: self.gained.wrapping_add(u32::from(m.gained)),
                possible: self.possible.wrapping_add(u32::from(m.possible)),
            };
        }
        Sums {
            seen: PLACES,
            ..self
        }
    }

    // Returns the place of the next record's key.
    fn place(self) -> usize
        ensures { result ≡ min self.seen 999 }
    {
        self.seen.min(MOST)
    }
}

// Walks over the lent records: adds each by value, and stores its key.
fn gather(marks: &[Mark], start: Sums) -> Gathered
    ensures { result ≡ with_all marks.now (both start no_keys_of) }
{
    let mut keys = [0; PLACES];
    let mut sums = start;
    for m in marks {
        let place = sums.place();
        keys[place] = key_of(place, *m);
        sums = sums.with(*m);
    }
    Gathered { sums, keys }
}

// ---- the candidates' lines
// Tells whether key j, if there is one, has the candidate of x.
fn same_at(keys: &[u64], j: usize, x: u64) -> bool
    ensures { result ≡ same_first x (drop j keys.now) }
{
    match keys.get(j) {
        Some(y) => *y / BELOW_CANDIDATE == x / BELOW_CANDIDATE,
        None => false,
    }
}

// Joins neighbours with one candidate, from the last key to the first, and returns the place from which on there is one key for each candidate.
// With no heap the joined keys stay in the lent array.
fn join(keys: &mut [u64]) -> usize
    ensures within { result ≤ length keys.old }
    ensures joined { drop result keys.new ≡ joined keys.old }
{
    let mut j = keys.len();
    for i in (0..keys.len()).rev() {
        let x = keys[i];
        if same_at(keys, j, x) {
            keys[j] = keys[j].wrapping_add(x % BELOW_PLACE);
        } else {
            j -= 1;
            keys[j] = x;
        }
    }
    j
}

// Stores the M lines of the keys. `as` keeps each part of a key, which has at most 24 bits. One function for these and the C lines of a
// log would take the row as a closure, which is longer than this loop.
fn put_totals(keys: &[u64], buffer: &mut [u8])
    requires { (length keys.now ≤ 999) × (length keys.now * 22 ≤ length buffer.old) }
    ensures { buffer.new ≡ totals_text (map total_at keys.now) ++ drop (length keys.now * 22) buffer.old }
{
    for (i, x) in keys.iter().enumerate() {
        line_writer::put_row(
            buffer,
            i as u32,
            b'M',
            &[
                (*x / BELOW_CANDIDATE) as u32,
                (*x / SUMS % SUMS) as u32,
                (*x % SUMS) as u32,
            ],
        );
    }
}

// ---- the report
// Stores the report of the keys and the session's sums, and returns how many bytes it has, or refusal 9.
fn put_report(
    keys: &mut [u64],
    gained: u32,
    possible: u32,
    buffer: &mut [u8],
) -> Result<usize, Refusal>
    requires few { length keys.old ≤ 999 }
    requires begun { RisingBy (low 44) keys.old }
    ensures answer { result ≡ answer_by (joined (sorted keys.old)) (length buffer.old) }
    ensures after { buffer.new ≡ after_by (joined (sorted keys.old)) gained possible buffer.old }
{
    let mut spare = [0; MOST];
    sorting::sort(keys, CANDIDATE_AT, &mut spare);
    let from = join(keys);
    let k = keys.len() - from;
    let length = (k + 1) * LINE_BYTES;
    if buffer.len() < length {
        return Err(Refusal {
            cause: Cause::BufferShort,
            line: 0,
        });
    }
    put_totals(&keys[from..], buffer);
    line_writer::put_row(buffer, k as u32, b'Z', &[gained, possible]);
    Ok(length)
}

// Stores the report of what the walk has at the start of the buffer, or returns refusal 19, 18 or 9, in this order.
fn written(g: Gathered, buffer: &mut [u8]) -> Result<usize, Refusal>
    requires { Begun g }
    ensures answer { result ≡ answer_of g (length buffer.old) }
    ensures after { buffer.new ≡ after_of g buffer.old }
{
    let n = g.sums.seen;
    if MOST < n {
        return Err(Refusal {
            cause: Cause::TooManyMarks,
            line: 0,
        });
    }
    if let Some(line) = g.sums.wrong {
        return Err(Refusal {
            cause: Cause::MarkRange,
            line,
        });
    }
    let mut keys = g.keys;
    put_report(&mut keys[..n], g.sums.gained, g.sums.possible, buffer)
}

// Stores the report of the lent records at the start of the buffer, and returns how many bytes it has, or the refusal.
pub fn report(marks: &[Mark], buffer: &mut [u8]) -> Result<usize, Refusal>
    ensures answer { result ≡ report_answer marks.now (length buffer.old) }
    ensures after { buffer.new ≡ after_report marks.now buffer.old }
{
    written(gather(marks, nothing()), buffer)
}
