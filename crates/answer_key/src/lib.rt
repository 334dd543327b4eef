// The key of a file: the verdict or, where an element is open, the settings question, as 22-byte lines at the start of a lent buffer.
#![tactic(auto)]

ghost use Rattle.std.specs.Prelude.{Ok, ◌≡◌, List, ℕ, ◌+◌, ◌*◌, ◌≤◌, length};
ghost use Rattle.std.proofs.lemmas.List.Edits.{sets};
ghost use Rattle.meaning.specs.Station.{file_states};
ghost use Rattle.meaning.specs.Digits.{byte_sum, printed_sum};
ghost use Rattle.meaning.specs.File.{reading_answer};
ghost use Rattle.meaning.specs.Operations.{open_element};
ghost use Rattle.meaning.specs.Key.{KeyIs, danger_key, element_lines, path_lines, safe_key};
ghost use Rattle.answer_key.specs.Lines.{Put, Keyed, CountsFit, chosen_key, question_text};

use element_states::SoundSituation;
use meaning::{
    Cause, Choice, Counts, ElementNumber, LINE_BYTES, MAX_ELEMENTS, MAX_SECTIONS, Meeting, Output,
    Refusal, ShownVerdict, TrainNumber,
};

// The bytes of the longest key: a V line and two paths of 512 sections.
pub const LONGEST: usize = LINE_BYTES * (1 + 2 * MAX_SECTIONS);

// Writes a line for each section of a path, from line i on, and returns how many subtractions their digits took.
// `as` keeps the place of a line, which is at most 1,024.
fn put_path(key: &mut [u8; LONGEST], i: u32, letter: u8, train: TrainNumber, path: &[u16]) -> u32
    requires room { i + length path.now ≤ 1025 }
    requires letter { byte_sum letter ≡ 0 }
    ensures text { key.new ≡ sets key.old (i * 22) (path_lines letter train.0 path.now) }
    ensures count { result ≡ printed_sum (path_lines letter train.0 path.now) }
    ensures few { result ≤ 360 * length path.now }
{
    let t = u32::from(train.0);
    let mut count: u32 = 0;
    for (k, a) in path.iter().enumerate() {
        count += line_writer::put_row(key, i + k as u32, letter, &[t, u32::from(*a)]);
    }
    count
}

// Writes an E line for each element, from the second line on, and returns how many subtractions their digits took. A function for these and a path's lines
// would take letter, type of entry and a closure for the two numbers: no plainer than the two loops.
// `as` keeps the number of an element, which is at most 256.
fn put_elements(key: &mut [u8; LONGEST], setting: &[u8]) -> u32
    requires { length setting.now ≤ 256 }
    ensures text { key.new ≡ sets key.old 22 (element_lines 1 setting.now) }
    ensures count { result ≡ printed_sum (element_lines 1 setting.now) }
    ensures few { result ≤ 360 * length setting.now }
{
    let mut count: u32 = 0;
    for (k, state) in setting.iter().enumerate() {
        let e = ElementNumber(1 + k as u16);
        let number = u32::from(e.0);
        count += line_writer::put_row(key, number, b'E', &[number, u32::from(*state)]);
    }
    count
}

// Writes the V line of a safe situation.
fn put_safe(key: &mut [u8; LONGEST], c: Counts) -> Output
    requires { CountsFit c }
    ensures { Put (safe_key c) key.old key.new result }
{
    let subtractions = line_writer::put_row(key, 0, b'V', &[0, c.entries, c.looks]);
    Output {
        length: LINE_BYTES,
        subtractions,
    }
}

// Writes the lines of a dangerous situation: the V line, with the section where the trains meet, and a path of each.
// `as` keeps the length of a path, which is at most 512.
fn put_danger(
    key: &mut [u8; LONGEST],
    m: Meeting,
    c: Counts,
    first: &[u16],
    second: &[u16],
) -> Output
    requires paths { (length first.now ≤ 512) × (length second.now ≤ 512) }
    requires counts { CountsFit c }
    ensures { Put (danger_key m c first.now second.now) key.old key.new result }
{
    let section = u32::from(m.section.0);
    let line = line_writer::put_row(key, 0, b'V', &[1, c.entries, c.looks, section]);
    let a_lines = put_path(key, 1, b'A', m.first, first);
    let b_lines = put_path(key, 1 + first.len() as u32, b'B', m.second, second);
    Output {
        length: (1 + first.len() + second.len()) * LINE_BYTES,
        subtractions: line + a_lines + b_lines,
    }
}

// Writes the lines of a chosen setting: the Q line, and the state of each element.
fn put_chosen(key: &mut [u8; LONGEST], c: Choice, setting: &[u8]) -> Output
    requires { length setting.now ≤ 256 }
    ensures { Put (chosen_key c setting.now) key.old key.new result }
{
    let line = line_writer::put_row(key, 0, b'Q', &[1, u32::from(c.safe), u32::from(c.proceed)]);
    let e_lines = put_elements(key, setting);
    Output {
        length: (1 + setting.len()) * LINE_BYTES,
        subtractions: line + e_lines,
    }
}

// Writes the answer to the settings question of a situation. The key is defined of a file: this function and `put_verdict` say it of each file that is
// read as the situation. No field of the situation has that fact, since a situation that no file has is judged as well.
fn put_question(s: &SoundSituation, key: &mut [u8; LONGEST]) -> Output
    ensures { (file : List ℕ) → reading_answer file ≡ Ok s.now.situation
        → Put (question_text file) key.old key.new result }
{
    let mut setting = [0u8; MAX_ELEMENTS];
    match settings::of_situation(s, &mut setting) {
        Err(q) => line_writer::put_refusal(key, q),
        Ok(None) => {
            let subtractions = line_writer::put_row(key, 0, b'Q', &[0, 0, 0]);
            Output {
                length: LINE_BYTES,
                subtractions,
            }
        }
        Ok(Some(c)) => {
            let n = usize::from(s.situation.header.elements);
            put_chosen(key, c, &setting[..n])
        }
    }
}

// Writes the verdict of a situation in which no element is open.
fn put_verdict(s: &SoundSituation, key: &mut [u8; LONGEST]) -> Output
    requires read { (file : List ℕ) × (reading_answer file ≡ Ok s.now.situation) }
    requires closed { open_element 1 (file_states s.now.situation) ≡ 0 }
    ensures { (file : List ℕ) → reading_answer file ≡ Ok s.now.situation → Keyed file key.old key.new result }
{
    let mut first = [0u16; MAX_SECTIONS];
    let mut second = [0u16; MAX_SECTIONS];
    match verdict::of_situation(s, &mut first, &mut second) {
        Err(q) => line_writer::put_refusal(key, q),
        Ok(ShownVerdict::Safe(c)) => put_safe(key, c),
        Ok(ShownVerdict::Dangerous(m, c, n)) => {
            put_danger(key, m, c, &first[..n.first], &second[..n.second])
        }
    }
}

// Writes the key of a file to the start of the buffer, and returns its length and how many subtractions its digits took; or refusal 9, for a buffer that
// is too short for some key.
// The file and the buffer come as C hands them over.
pub fn answer_key(file: &[u8], buffer: &mut [u8]) -> Result<Output, Refusal>
    ensures { KeyIs file.now buffer.old buffer.new result }
{
    let Some(key) = buffer.first_chunk_mut::<LONGEST>() else {
        return Err(Refusal {
            cause: Cause::BufferShort,
            line: 0,
        });
    };
    let output = match SoundSituation::read(file) {
        Err(q) => line_writer::put_refusal(key, q),
        Ok(s) => {
            if s.is_open() {
                put_question(&s, key)
            } else {
                put_verdict(&s, key)
            }
        }
    };
    Ok(output)
}
