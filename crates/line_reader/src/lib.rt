// The 22-byte line as it is read: a field, a line. A line is read in one of two forms of a filled field. Past the end of a file
// stand zeros.
#![tactic(auto)]

ghost use Rattle.std.specs.Prelude.{IfSome, ◌≡◌, Bool, true, false, ◌&&◌, ℕ, ◌+◌, ◌-◌, ◌*◌, ◌<◌, ◌≤◌, ltb, get_or, length, take, drop, unwrap_or, MatchOption};
ghost use Rattle.meaning.specs.declared.FieldForm.{FieldForm};
ghost use Rattle.meaning.specs.declared.Field.TheVariants.{Blank, Number};
ghost use Rattle.line_reader.specs.Cells.{cell_value};
ghost use Rattle.meaning.specs.declared.Letter.TheVariants.{U};
ghost use Rattle.meaning.specs.File.{train_kind};
ghost use Rattle.meaning.specs.Columns.{
  field_at,
  fits,
  leading_zeros,
  padded,
  line_at,
  malformed,
  old,
  row_at,
  step,
  value_of,
};

use columns::T_LINE;
use meaning::{Field, FieldForm, LINE_BYTES, Line};

// The bytes of a field.
const FIELD_BYTES: usize = 5;

// Returns the byte at an offset, 0 past the end.
pub fn byte_at(file: &[u8], at: usize) -> u8
    ensures { result ≡ get_or file.now at 0 }
{
    file.get(at).copied().unwrap_or(0)
}

// Returns the value of a digit.
fn digit(b: u8) -> u32
    requires { 48 ≤ b }
    ensures { result ≡ b - 48 }
{
    u32::from(b) - 48
}

// Says whether zeros may stand before a number.
fn leading_zeros(form: FieldForm) -> bool
    ensures { result ≡ leading_zeros form }
{
    matches!(form, FieldForm::Padded)
}

// Takes one byte more, after a field of at most four digits.
fn step(f: Field, b: u8, form: FieldForm) -> Field
    requires { value_of f < 10000 }
    ensures { result ≡ step form f b }
{
    let zeros = leading_zeros(form);
    match (f, b) {
        (Field::Blank, b' ') => Field::Blank,
        (Field::Blank, b'0'..=b'9') => Field::Number(digit(b)),
        (Field::Number(n), b'0'..=b'9') if zeros | (n != 0) => Field::Number(n * 10 + digit(b)),
        _ => Field::Malformed,
    }
}

// Returns the field that five bytes give.
fn field_of(cell: &[u8; FIELD_BYTES], form: FieldForm) -> Field
    ensures { result ≡ field_at form cell.now 0 }
{
    let mut f = Field::Blank;
    for b in cell {
        f = step(f, *b, form);
    }
    f
}

// Returns the number of a field that is to be filled. It is no `From`: `Field` and `Option` are types of other crates.
fn number(f: Field) -> Option<u32>
    ensures { result ≡ cell_value true f }
{
    match f {
        Field::Number(n) => Some(n),
        Field::Blank => None,
        Field::Malformed => None,
    }
}

// Returns the number, in the old form, of a field that has two spaces and then these bytes. Most have three digits.
fn short_number(a: u8, b: u8, c: u8) -> Option<u32>
    ensures { result ≡ cell_value true (step old (step old (step old Blank a) b) c) }
{
    match (a, b, c) {
        (b'1'..=b'9', b'0'..=b'9', b'0'..=b'9') => {
            Some(digit(a) * 100 + (digit(b) * 10 + digit(c)))
        }
        (b' ', b'1'..=b'9', b'0'..=b'9') => Some(digit(b) * 10 + digit(c)),
        (b' ', b' ', b'0'..=b'9') => Some(digit(c)),
        _ => None,
    }
}

// Returns the number, in the padded form, of a field that has two zeros and then three digits. The digits are tested first: beside a test for two spaces
// the compiler makes one `switch` of both, and tests for zeros first.
fn after_zeros(a: u8, b: u8, c: u8, d: u8, e: u8) -> Option<u32>
    ensures { IfSome result (λ n. step padded (step padded (step padded (step padded (step padded Blank a) b) c) d) e ≡ Number n) }
{
    match (c, d, e, a, b) {
        (b'0'..=b'9', b'0'..=b'9', b'0'..=b'9', b'0', b'0') => {
            Some(digit(c) * 100 + (digit(d) * 10 + digit(e)))
        }
        _ => None,
    }
}

// A field's bytes and form go side by side here and below: each of the five places that have them would make a struct of them, for the sake of
// three signatures.

// Returns the number of a field of any form. It stays a call, so that `number_of` is small enough to stand wherever a number is read.
#[cold]
#[inline(never)]
fn any_number(cell: &[u8; FIELD_BYTES], form: FieldForm) -> Option<u32>
    ensures { result ≡ cell_value true (field_at form cell.now 0) }
{
    number(field_of(cell, form))
}

// Returns the number of a field, in five bytes. Most have at most three digits, after two spaces or, in the padded form, two zeros. With `?` behind the
// call each way out says whether there is a number, and the caller asks on none of them.
#[inline(always)]
fn number_of(cell: &[u8; FIELD_BYTES], form: FieldForm) -> Option<u32>
    ensures { result ≡ cell_value true (field_at form cell.now 0) }
{
    if u16::from_le_bytes([cell[0], cell[1]]) == u16::from_le_bytes([b' '; 2]) {
        let n = short_number(cell[2], cell[3], cell[4]);
        if n.is_some() {
            return n;
        }
    } else if let FieldForm::Padded = form {
        let n = after_zeros(cell[0], cell[1], cell[2], cell[3], cell[4]);
        if n.is_some() {
            return n;
        }
    }
    Some(any_number(cell, form)?)
}

// Returns the number of the field at an offset, inside the file.
pub fn number_at(file: &[u8], at: usize, form: FieldForm) -> Option<u32>
    requires { at + 5 ≤ length file.now }
    ensures { result ≡ cell_value true (field_at form file.now at) }
{
    number_of(file[at..].first_chunk()?, form)
}

// Says whether five bytes are spaces, an unused field in both forms. It compares the first four as one number.
fn is_blank(cell: &[u8; FIELD_BYTES]) -> bool
    ensures { (form : FieldForm) → result ≡ fits false (field_at form cell.now 0) }
{
    let four = u32::from_le_bytes([cell[0], cell[1], cell[2], cell[3]]);
    (four == u32::from_le_bytes([b' '; 4])) & (cell[4] == b' ')
}

// Returns the number of a field that is as its place asks: 0 for five spaces in a field that is not to be filled. This, `line_as`, `row`
// and `line` are taken into their callers, so that a kind that is a constant there has code of its own, with its letter and its fields as constants.
#[inline(always)]
fn cell_number(cell: &[u8; FIELD_BYTES], filled: bool, form: FieldForm) -> Option<u32>
    ensures { result ≡ cell_value filled (field_at form cell.now 0) }
{
    if filled {
        number_of(cell, form)
    } else {
        is_blank(cell).then_some(0)
    }
}

// Reads 22 bytes as a line of kind k, if they have this letter and their first n fields filled.
#[inline(always)]
fn line_as(line: &[u8; LINE_BYTES], k: u8, letter: u8, n: u8, form: FieldForm) -> Option<Line>
    ensures line { unwrap_or result malformed ≡ row_at form line.now 0 k letter n }
    ensures kind { IfSome result (λ l. l.kind ≡ k) }
{
    if (line[0] != letter) | (line[21] != b'\n') {
        return None;
    }
    let (cells, _) = line[1..].as_chunks::<FIELD_BYTES>();
    Some(Line {
        kind: k,
        first: cell_number(&cells[0], 0 < n, form)?,
        second: cell_number(&cells[1], 1 < n, form)?,
        third: cell_number(&cells[2], 2 < n, form)?,
        fourth: cell_number(&cells[3], 3 < n, form)?,
    })
}

// Returns the bytes of line i, from 0, if the file has them all.
// File and place go together here and below: of lines that `chunks` lends there is none past the end.
fn bytes_of(file: &[u8], i: u32) -> Option<&[u8; LINE_BYTES]>
    ensures { MatchOption result (length file.now < i * 22 + 22) (λ l. (i * 22 + 22 ≤ length file.now) × (l.now ≡ take 22 (drop (i * 22) file.now))) }
{
    let at = columns::offset(i);
    if file.len() < at + LINE_BYTES {
        return None;
    }
    file[at..at + LINE_BYTES].first_chunk()
}

// Reads line i, from 0, as a line of kind k, if it has this letter and its first n fields filled: for a file that has a table of
// its own, and for `line`, with the entry of its kind.
#[inline(always)]
pub fn row(file: &[u8], i: u32, k: u8, letter: u8, n: u8, form: FieldForm) -> Option<Line>
    ensures line { unwrap_or result malformed ≡ row_at form file.now i k letter n }
    ensures kind { IfSome result (λ l. l.kind ≡ k) }
{
    line_as(bytes_of(file, i)?, k, letter, n, form)
}

// Reads line i, from 0, as a line of kind k, if it is of that form.
#[inline(always)]
pub fn line(file: &[u8], i: u32, k: u8, form: FieldForm) -> Option<Line>
    ensures line { unwrap_or result malformed ≡ line_at form file.now i k }
    ensures kind { IfSome result (λ l. l.kind ≡ k) }
{
    let e = columns::record_kind(k);
    row(file, i, k, e.letter, e.filled, form)
}

// Returns the kind that T line i of a U file is to be of: that of as many sections as fields stand before the first blank one.
fn long_kind(file: &[u8], i: u32) -> u8
    ensures { line_at padded file.now i result ≡ line_at padded file.now i (train_kind U file.now i) }
{
    let Some(bytes) = bytes_of(file, i) else {
        return T_LINE;
    };
    let (cells, _) = bytes[1..].as_chunks::<FIELD_BYTES>();
    if is_blank(&cells[1]) {
        return T_LINE;
    }
    if is_blank(&cells[2]) {
        return T_LINE + 1;
    }
    if is_blank(&cells[3]) {
        return T_LINE + 2;
    }
    T_LINE + 3
}

// Reads T line i of a U file, if it is of its form.
// It stays a call: taken in, it costs each T line of an S file 40 instructions more.
#[inline(never)]
pub fn long_line(file: &[u8], i: u32) -> Option<Line>
    ensures { unwrap_or result malformed ≡ line_at padded file.now i (train_kind U file.now i) }
{
    line(file, i, long_kind(file, i), FieldForm::Padded)
}
