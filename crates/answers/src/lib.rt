// The standing answers of a log. Each line has a key, by whose order lines are in order by candidate, question, sequence and line; the keys are
// put in order, and a sequence already seen and the last of each candidate and question stand side by side.
#![tactic(auto)]

ghost use Rattle.std.specs.Prelude.{IfOk, IfSome, Option, Result, ◌≡◌, true, not, ◌++◌, map, ◌+◌, ◌*◌, ◌≤◌, ◌<◌, eqb, length, take, drop, get_or};
ghost use Rattle.session_meaning.specs.Answers.{
  Ranges,
  allowed,
  answers_text,
  in_range,
  standing_answer,
  after_standing,
  cut_or_long,
  log_lines,
};
ghost use Rattle.meaning.specs.declared.Field.TheVariants.{Blank, Number};
ghost use Rattle.meaning.specs.Columns.{field_at, old, step};
ghost use Rattle.line_reader.specs.Cells.{cell_value};
ghost use Rattle.answers.specs.Keys.{
  key_of,
  sent_of,
  line_of,
  answer_of,
  sequence_of,
  question_of,
  key_as,
  key_at,
  repeat_of,
  least,
  first_repeat,
  last_of_run,
  picks,
  ReadTo,
  Settled,
};

use meaning::{Cause, FieldForm, LINE_BYTES, RecordKind, Refusal};
use session_meaning::{AnswerField, Sent};

// The most lines of a log, and how many bytes they are.
const MAX_LINES: usize = 1000;

pub const LONGEST_LOG: usize = MAX_LINES * LINE_BYTES;

// ---- the C line
// The log's entry in the form of the table of record kinds: letter, filled fields, meaning of each.
const ANSWER_LINE: RecordKind<Option<AnswerField>> = RecordKind {
    letter: b'C',
    filled: 4,
    meaning: [
        Some(AnswerField::Candidate),
        Some(AnswerField::Question),
        Some(AnswerField::Sequence),
        Some(AnswerField::Answer),
    ],
};

// Tells whether a number is in the range of what its field means.
pub fn allowed(meaning: Option<AnswerField>, n: u32) -> bool
    ensures { result ≡ allowed meaning n }
{
    match meaning {
        Some(AnswerField::Candidate) => (1 <= n) & (n <= 9999),
        Some(AnswerField::Question) => (1 <= n) & (n <= 99),
        Some(AnswerField::Sequence) => (1 <= n) & (n <= 99999),
        Some(AnswerField::Answer) => n <= 4097,
        None => false,
    }
}

// Tells whether the fields are in their ranges.
#[tactic(auto, unfolding(session_meaning::specs::Answers::in_range))]
fn in_range(a: Sent) -> bool
    ensures { result ≡ in_range a }
{
    let m = ANSWER_LINE.meaning;
    allowed(m[0], a.candidate)
        & (allowed(m[1], a.question) & (allowed(m[2], a.sequence) & allowed(m[3], a.answer)))
}

// ---- the keys of the lines
// How many values a part of a key can have, from its right end: answer, line, sequence, question. The candidate stands above them.
const ANSWERS: u64 = 8192;

const LINES: u64 = 1024;

const SEQUENCES: u64 = 131072;

const QUESTIONS: u64 = 128;

// A key divided by these has sequence, question and candidate left; question and candidate.
const BELOW_SEQUENCE: u64 = ANSWERS * LINES;

const BELOW_QUESTION: u64 = BELOW_SEQUENCE * SEQUENCES;

// The bit at which the sequence begins. The line of a key stands below it, so that keys are in order by the bits there as they are read.
const SEQUENCE_AT: u64 = 23;

// Returns the key of a line, from 1: candidate, question, sequence, line and answer in one number, so that keys are in order by these. A key is no type of
// its own, since `sorting::sort` deals numbers by their digits.
// `as` widens the line's number: from a usize there is no `From`.
fn key_of(line: usize, a: Sent) -> u64
    requires { Ranges a × (line ≤ 1000) }
    ensures { result ≡ key_of line a }
{
    let question = u64::from(a.candidate) * QUESTIONS + u64::from(a.question);
    let sequence = question * SEQUENCES + u64::from(a.sequence);
    (sequence * LINES + line as u64) * ANSWERS + u64::from(a.answer)
}

// Returns what the line of a key says. `as` keeps each part, which has at most 24 bits.
fn sent_of(x: u64) -> Sent
    ensures { result ≡ sent_of x }
{
    Sent {
        candidate: (x / BELOW_QUESTION / QUESTIONS) as u32,
        question: (x / BELOW_QUESTION % QUESTIONS) as u32,
        sequence: (x / BELOW_SEQUENCE % SEQUENCES) as u32,
        answer: (x % ANSWERS) as u32,
    }
}

// Returns the line of a key. `as` keeps a number below 1024.
fn line_of(x: u64) -> u16
    ensures { result ≡ line_of x }
{
    (x / ANSWERS % LINES) as u16
}

// Tells whether a key has an answer: 0 withdraws.
fn has_answer(x: u64) -> bool
    ensures { result ≡ not (eqb (answer_of x) 0) }
{
    x % ANSWERS != 0
}

// Tells whether two keys have one candidate, question and sequence. This and the next are each a word of the definitions: `sequence_of`, `question_of`.
fn same_sequence(x: u64, y: u64) -> bool
    ensures { result ≡ eqb (sequence_of x) (sequence_of y) }
{
    x / BELOW_SEQUENCE == y / BELOW_SEQUENCE
}

// Tells whether two keys have one candidate and question.
fn same_question(x: u64, y: u64) -> bool
    ensures { result ≡ eqb (question_of x) (question_of y) }
{
    x / BELOW_QUESTION == y / BELOW_QUESTION
}

// Returns the number of a field, in the old form, that these five bytes give, where it has four or five digits.
fn long_number(a: u8, b: u8, c: u8, d: u8, e: u8) -> Option<u32>
    ensures { IfSome result (λ n. step old (step old (step old (step old (step old Blank a) b) c) d) e ≡ Number n) }
{
    let low = match (c, d, e) {
        (b'0'..=b'9', b'0'..=b'9', b'0'..=b'9') => {
            ((u32::from(c) - 48) * 10 + (u32::from(d) - 48)) * 10 + (u32::from(e) - 48)
        }
        _ => return None,
    };
    match (a, b) {
        (b'1'..=b'9', b'0'..=b'9') => {
            Some(((u32::from(a) - 48) * 10 + (u32::from(b) - 48)) * 1000 + low)
        }
        (b' ', b'1'..=b'9') => Some((u32::from(b) - 48) * 1000 + low),
        _ => None,
    }
}

// Returns the number of the field at an offset, where it has one. Sequences and answers are long, and `line_reader` reads such numbers byte by byte.
fn number_at(log: &[u8], at: usize) -> Option<u32>
    requires { at + 5 ≤ length log.now }
    ensures { result ≡ cell_value true (field_at old log.now at) }
{
    let long = long_number(log[at], log[at + 1], log[at + 2], log[at + 3], log[at + 4]);
    if long.is_some() {
        return long;
    }
    line_reader::number_at(log, at, FieldForm::Old)
}

// Returns the key of a line as line n, from 1, where the line is of the right form and range. The line is an array, in which no place of a field is to be tested.
fn key_as(n: usize, line: &[u8; LINE_BYTES]) -> Option<u64>
    requires { n ≤ 1000 }
    ensures { result ≡ key_as n line.now 0 }
{
    if (line[0] != ANSWER_LINE.letter) | (line[21] != b'\n') {
        return None;
    }
    let sent = Sent {
        candidate: line_reader::number_at(line, 1, FieldForm::Old)?,
        question: line_reader::number_at(line, 6, FieldForm::Old)?,
        sequence: number_at(line, 11)?,
        answer: number_at(line, 16)?,
    };
    if !in_range(sent) {
        return None;
    }
    Some(key_of(n, sent))
}

// Returns the key of line i, from 0, where the line is of the right form and range.
fn key_at(log: &[u8], i: usize) -> Option<u64>
    requires { (i * 22 + 22 ≤ length log.now) × (i < 1000) }
    ensures { result ≡ key_at log.now i }
{
    key_as(i + 1, log[i * LINE_BYTES..].first_chunk()?)
}

// Stores the keys of the lines up to the first of wrong form or range, and returns how many they are. With no heap they are in an array of fixed size.
#[tactic(auto, using(crate::proofs::Reading::key_none), unfolding(basics::specs::Lists::list_of))]
fn read_keys(log: &[u8], keys: &mut [u64; MAX_LINES]) -> usize
    requires { length log.now ≤ 22000 }
    ensures { ReadTo log.now keys.new result }
{
    let lines = log.len() / LINE_BYTES;
    for i in 0..lines {
        let Some(k) = key_at(log, i) else {
            return i;
        };
        keys[i] = k;
    }
    lines
}

// ---- what the keys in order say
// Returns the line of y where y repeats the sequence of x.
fn repeat_of(x: u64, y: u64) -> Option<u16>
    ensures { result ≡ repeat_of x y }
{
    if same_sequence(x, y) {
        return Some(line_of(y));
    }
    None
}

// Returns the lowest line so far, once one more is known. The `min` of two Options would take None for the lower.
fn least(first: Option<u16>, line: u16) -> Option<u16>
    ensures { result ≡ least first (Some line) }
{
    Some(first.map_or(line, |r| r.min(line)))
}

// Returns the lowest line that repeats a sequence.
#[tactic(auto, using(crate::proofs::Scans::scanned_all))]
fn first_repeat(keys: &[u64]) -> Option<u16>
    ensures { result ≡ first_repeat keys.now }
{
    let mut first = None;
    for i in 1..keys.len() {
        if let Some(line) = repeat_of(keys[i - 1], keys[i]) {
            first = least(first, line);
        }
    }
    first
}

// Tells whether key i is the last for its candidate and question.
fn last_at(keys: &[u64], i: usize) -> bool
    requires { i < length keys.now }
    ensures { result ≡ last_of_run (get_or keys.now i 0) (drop (i + 1) keys.now) }
{
    match keys.get(i + 1) {
        Some(next) => !same_question(keys[i], *next),
        None => true,
    }
}

// Moves the keys that stand to the start, and returns how many they are.
// With no heap there is no `retain`: the keys stay in the lent array.
#[tactic(auto, using(crate::proofs::Scans::kept_all))]
fn keep(keys: &mut [u64]) -> usize
    ensures count { result ≡ length (picks keys.old) }
    ensures start { take result keys.new ≡ picks keys.old }
{
    let mut k = 0;
    for i in 0..keys.len() {
        let x = keys[i];
        if last_at(keys, i) & has_answer(x) {
            keys[k] = x;
            k += 1;
        }
    }
    k
}

// Stores the C lines of the keys. `as` keeps the place of a line, which is below 1,000.
fn put_answers(keys: &[u64], buffer: &mut [u8])
    requires { (length keys.now ≤ 1000) × (length keys.now * 22 ≤ length buffer.old) }
    ensures { buffer.new ≡ answers_text (map sent_of keys.now) ++ drop (length keys.now * 22) buffer.old }
{
    for (i, x) in keys.iter().enumerate() {
        let a = sent_of(*x);
        line_writer::put_row_of::<4, false>(
            buffer,
            i as u32,
            ANSWER_LINE.letter,
            &[a.candidate, a.question, a.sequence, a.answer],
        );
    }
}

// ---- the operation
// Tells whether a log has a cut line, or too many lines.
#[tactic(auto, unfolding(session_meaning::specs::Answers::cut_or_long))]
fn cut_or_long(log: &[u8]) -> bool
    ensures { result ≡ cut_or_long log.now }
{
    (log.len() % LINE_BYTES != 0) | (LONGEST_LOG < log.len())
}

// Puts the keys of the log's lines in order, and returns how many they are, or the refusal of the log.
// `as` keeps the number of a line, which is at most 1,000.
fn settle(log: &[u8], keys: &mut [u64; MAX_LINES]) -> Result<usize, Refusal>
    ensures { Settled log.now keys.new result }
{
    if cut_or_long(log) {
        return Err(Refusal {
            cause: Cause::LogForm,
            line: 0,
        });
    }
    let n = read_keys(log, keys);
    let mut spare = [0; MAX_LINES];
    sorting::sort(&mut keys[..n], SEQUENCE_AT, &mut spare);
    if let Some(line) = first_repeat(&keys[..n]) {
        return Err(Refusal {
            cause: Cause::LogSequence,
            line,
        });
    }
    if n < log.len() / LINE_BYTES {
        return Err(Refusal {
            cause: Cause::LogForm,
            line: (n + 1) as u16,
        });
    }
    Ok(n)
}

// Stores the standing answers of a log as C lines at the start of the buffer, and returns how many bytes they are, or the refusal.
pub fn standing_answers(log: &[u8], buffer: &mut [u8]) -> Result<usize, Refusal>
    ensures answer { result ≡ standing_answer log.now (length buffer.old) }
    ensures after { buffer.new ≡ after_standing log.now buffer.old }
    ensures within { IfOk result (λ n. n ≤ length buffer.old) }
{
    // Such a log is refused before the memory of the keys is cleared, which takes some seventy-five times the instructions.
    if cut_or_long(log) {
        return Err(Refusal {
            cause: Cause::LogForm,
            line: 0,
        });
    }
    let mut keys = [0; MAX_LINES];
    let n = settle(log, &mut keys)?;
    let k = keep(&mut keys[..n]);
    if buffer.len() < k * LINE_BYTES {
        return Err(Refusal {
            cause: Cause::BufferShort,
            line: 0,
        });
    }
    put_answers(&keys[..k], buffer);
    Ok(k * LINE_BYTES)
}
