// The 22-byte line as it is written: digits by subtraction, a field, a row, a line, in the old form of a filled field. Whoever stores a line
// has room for it.
#![tactic(auto)]

ghost use Rattle.std.specs.Prelude.{All, true, Result, IfOk, IfErr, ◌≡◌, cond, ◌+◌, ◌*◌, ◌<◌, ◌≤◌, eqb, ltb, set, length};
ghost use Rattle.std.proofs.lemmas.List.Edits.{sets};
ghost use Rattle.line_writer.specs.Digits.{Divides, Above, Figured};
ghost use Rattle.line_writer.specs.Rows.{text_of, sum_of, Printable};
ghost use Rattle.meaning.specs.Digits.{digit_sum, printed_sum, output_of};
ghost use Rattle.meaning.specs.Columns.{field_text, line_text, row_text, spaces};
ghost use Rattle.meaning.specs.Key.{refusal_key};

use meaning::{LINE_BYTES, Line, Output, Refusal};

// How often a power of ten was subtracted from a number, and what is left.
#[derive(Clone, Copy)]
struct Subtracted {
    times: u32,
    rest: u32,
}

// The five lowest digits of a number, and how many subtractions it took to find them.
#[derive(Clone, Copy)]
struct Figures {
    first: u32,
    second: u32,
    third: u32,
    fourth: u32,
    fifth: u32,
    count: u32,
}

// Subtracts a power of ten from a number until less than the power is left: at most nine times where the number is below ten times the power.
// 02, Item 4, wants this in place of a division.
fn subtract(n: u32, power: u32) -> Subtracted
    requires { 1 ≤ power }
    ensures { Divides n power result }
{
    let mut rest = n;
    let mut times: u32 = 0;
    while power <= rest {
        rest -= power;
        times += 1;
    }
    Subtracted { times, rest }
}

// Subtracts what a number has above its five lowest digits: it is not printed, and its subtractions are counted.
fn above(n: u32) -> Subtracted
    ensures { Above n result }
{
    if n < 100000 {
        return Subtracted { times: 0, rest: n };
    }
    let a = subtract(n, 1000000000);
    let b = subtract(a.rest, 100000000);
    let c = subtract(b.rest, 10000000);
    let d = subtract(c.rest, 1000000);
    let e = subtract(d.rest, 100000);
    Subtracted {
        times: a.times + b.times + c.times + d.times + e.times,
        rest: e.rest,
    }
}

// Returns the five lowest digits of a number, found by subtracting the powers of ten down to 1.
fn digits_of(n: u32) -> Figures
    ensures { Figured n result }
{
    let h = above(n);
    let a = subtract(h.rest, 10000);
    let b = subtract(a.rest, 1000);
    let c = subtract(b.rest, 100);
    let d = subtract(c.rest, 10);
    let e = subtract(d.rest, 1);
    Figures {
        first: a.times,
        second: b.times,
        third: c.times,
        fourth: d.times,
        fifth: e.times,
        count: h.times + a.times + b.times + c.times + d.times + e.times,
    }
}

// Returns the byte of a digit. `as` keeps it: it is at most 57.
fn figure(digit: u32) -> u8
    requires { digit ≤ 9 }
    ensures { result ≡ digit + 48 }
{
    (digit + 48) as u8
}

// Returns the byte of a digit of n, a space where n is below the digit's power.
fn place(n: u32, power: u32, digit: u32) -> u8
    requires { digit ≤ 9 }
    ensures { result ≡ cond (ltb n power) 32 (digit + 48) }
{
    if n < power { b' ' } else { figure(digit) }
}

// Writes a number below 1000, right-justified, into the five bytes of a field, which are spaces, and returns how many subtractions its digits took. Most
// numbers are that short, and the function is small enough to be inlined into a row four times. It subtracts no power above 100, and leaves the
// spaces before the first digit.
fn put_short(cell: &mut [u8], n: u32) -> u32
    requires { (cell.old ≡ spaces) × (n < 1000) }
    ensures text { cell.new ≡ field_text n }
    ensures count { (result ≡ digit_sum n) × (result ≤ 90) }
{
    let mut times: u32 = 0;
    let mut rest = n;
    if 10 <= n {
        if 100 <= n {
            let a = subtract(n, 100);
            cell[2] = figure(a.times);
            times = a.times;
            rest = a.rest;
        }
        let b = subtract(rest, 10);
        cell[3] = figure(b.times);
        times += b.times;
        rest = b.rest;
    }
    let c = subtract(rest, 1);
    cell[4] = figure(c.times);
    times + c.times
}

// Writes any number, right-justified, into the five bytes of a field, and returns how many subtractions its digits took. Of a number above 99999 the last
// five digits are written, and the subtractions for the others are counted too. It tries the power of each place, and tests there whether the place
// has a space.
fn put_long(cell: &mut [u8], n: u32) -> u32
    requires { length cell.old ≡ 5 }
    ensures text { cell.new ≡ field_text n }
    ensures count { (result ≡ digit_sum n) × (result ≤ 90) }
{
    let f = digits_of(n);
    cell[0] = place(n, 10000, f.first);
    cell[1] = place(n, 1000, f.second);
    cell[2] = place(n, 100, f.third);
    cell[3] = place(n, 10, f.fourth);
    cell[4] = place(n, 0, f.fifth);
    f.count
}

// Writes a letter and numbers, of which the first four are kept, into the bytes of a line, and returns how many subtractions their digits took. Where all
// numbers are below 1000, SHORT says so, and the code has no call: that saves the test of each number, and the long form.
// Letter and numbers are two parameters, here and below: a struct of them would be written out in each call.
#[inline(always)]
fn put_fields<const N: usize, const SHORT: bool>(
    line: &mut [u8],
    letter: u8,
    numbers: &[u32; N],
) -> u32
    requires whole { length line.old ≡ 22 }
    requires short { SHORT ≡ true → All (λ n. n < 1000) numbers.now }
    ensures text { line.new ≡ text_of letter numbers.now }
    ensures count { result ≡ sum_of numbers.now }
    ensures few { result ≤ 360 }
{
    line.fill(b' ');
    line[0] = letter;
    line[21] = b'\n';
    let mut count: u32 = 0;
    for (k, n) in numbers[..N.min(4)].iter().enumerate() {
        let cell = &mut line[5 * k + 1..5 * k + 6];
        if SHORT | (*n < 1000) {
            count += put_short(cell, *n);
        } else {
            count += put_long(cell, *n);
        }
    }
    count
}

// Writes a letter and numbers, as `put_fields` does, into the place of line i, from 0, of a buffer. The place is a number: of lines lent by `chunks_mut` a
// proof does not know what they left in the buffer.
pub fn put_row_of<const N: usize, const SHORT: bool>(
    buffer: &mut [u8],
    i: u32,
    letter: u8,
    numbers: &[u32; N],
) -> u32
    requires room { i * 22 + 22 ≤ length buffer.old }
    requires short { SHORT ≡ true → All (λ n. n < 1000) numbers.now }
    ensures text { buffer.new ≡ sets buffer.old (i * 22) (text_of letter numbers.now) }
    ensures count { result ≡ sum_of numbers.now }
    ensures few { result ≤ 360 }
{
    let at = columns::offset(i);
    put_fields::<N, SHORT>(&mut buffer[at..at + LINE_BYTES], letter, numbers)
}

// Writes a letter and any numbers into the place of line i, and returns how many subtractions their digits took. Most rows have numbers below 1000. It is
// not inlined, so that its callers are small enough to be inlined.
#[inline(never)]
pub fn put_row<const N: usize>(buffer: &mut [u8], i: u32, letter: u8, numbers: &[u32; N]) -> u32
    requires room { i * 22 + 22 ≤ length buffer.old }
    ensures text { buffer.new ≡ sets buffer.old (i * 22) (text_of letter numbers.now) }
    ensures count { result ≡ sum_of numbers.now }
    ensures few { result ≤ 360 }
{
    if numbers.iter().all(|n| *n < 1000) {
        return put_row_of::<N, true>(buffer, i, letter, numbers);
    }
    put_row_of::<N, false>(buffer, i, letter, numbers)
}

// Writes a line into the place of line i, and returns how many subtractions its digits took: the sum of the digits that it prints, where it prints its
// numbers whole. Each number of filled fields has an arm, and so code of its own: a row that takes a slice of the numbers, and not an array, takes
// 3 % more instructions for a station file, and a report of 999 candidates 1.63 times as long as the fast program.
#[inline(always)]
pub fn put_line(buffer: &mut [u8], i: u32, l: Line) -> u32
    requires room { i * 22 + 22 ≤ length buffer.old }
    ensures text { buffer.new ≡ sets buffer.old (i * 22) (line_text l) }
    ensures count { Printable l → result ≡ printed_sum (line_text l) }
    ensures few { result ≤ 360 }
{
    let e = columns::record_kind(l.kind);
    match e.filled {
        0 => put_row(buffer, i, e.letter, &[]),
        1 => put_row(buffer, i, e.letter, &[l.first]),
        2 => put_row(buffer, i, e.letter, &[l.first, l.second]),
        3 => put_row(buffer, i, e.letter, &[l.first, l.second, l.third]),
        _ => put_row(buffer, i, e.letter, &[l.first, l.second, l.third, l.fourth]),
    }
}

// Writes a P line into the place of line i, and returns how many subtractions its digits took. Most lines of a station file are P lines, so they have code
// of their own. `KINDS[1]` is the entry of a P line.
#[tactic(auto, using(crate::proofs::Splice::plain_stored, crate::proofs::Splice::plain_summed))]
pub fn put_plain(buffer: &mut [u8], i: u32, l: Line) -> u32
    requires room { i * 22 + 22 ≤ length buffer.old }
    requires plain { l.kind ≡ 1 }
    ensures text { buffer.new ≡ sets buffer.old (i * 22) (line_text l) }
    ensures count { Printable l → result ≡ printed_sum (line_text l) }
    ensures few { result ≤ 360 }
{
    let letter = columns::KINDS[1].letter;
    let numbers = [l.first, l.second];
    if (l.first < 1000) & (l.second < 1000) {
        put_row_of::<2, true>(buffer, i, letter, &numbers)
    } else {
        put_row_of::<2, false>(buffer, i, letter, &numbers)
    }
}

// Writes the R line of a refusal into the place of the first line, and returns its length and how many subtractions its digits took.
pub fn put_refusal(buffer: &mut [u8], q: Refusal) -> Output
    requires { 22 ≤ length buffer.old }
    ensures text { buffer.new ≡ sets buffer.old 0 (refusal_key q) }
    ensures output { result ≡ output_of (refusal_key q) }
    ensures length { result.length ≡ 22 }
{
    let subtractions = put_row(
        buffer,
        0,
        b'R',
        &[u32::from(q.cause.number()), u32::from(q.line)],
    );
    Output {
        length: LINE_BYTES,
        subtractions,
    }
}

// Returns how many bytes at the start of the buffer a program is to print of an answer: those that were filled, or the R line of a refusal, which is
// written here.
pub fn put_outcome(buffer: &mut [u8], answer: Result<usize, Refusal>) -> usize
    requires { 22 ≤ length buffer.old }
    ensures filled { IfOk answer (λ n. (result ≡ n) × (buffer.new ≡ buffer.old)) }
    ensures refused { IfErr answer (λ q. (result ≡ 22) × (buffer.new ≡ sets buffer.old 0 (refusal_key q))) }
    ensures within { IfOk answer (λ n. n ≤ length buffer.old) → result ≤ length buffer.old }
{
    match answer {
        Ok(length) => length,
        Err(refusal) => put_refusal(buffer, refusal).length,
    }
}
