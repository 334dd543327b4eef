// The converter: a station file with the other first letter, for desks that read only S files, and back. Nothing but the letter changes.
#![tactic(auto)]

ghost use Rattle.std.specs.Prelude.{◌≡◌, ◌≤◌, length, IfOk};
ghost use Rattle.std.specs.List.{position};
ghost use Rattle.meaning.specs.File.{Limits, unless_refused};
ghost use Rattle.file_meaning.specs.Converter.{
  byte_of,
  long_refusal,
  conversion_answer,
  after_conversion,
};
ghost use Rattle.converter.specs.Long.{is_long};

use meaning::{Cause, Letter, Refusal, Situation, Train};

// Returns the byte of a letter, from the table of record kinds, which a `From` beside `Letter` could not read.
fn letter_byte(letter: Letter) -> u8
    ensures { result ≡ byte_of letter }
{
    match letter {
        Letter::S => columns::KINDS[usize::from(columns::S_LINE)].letter,
        Letter::U => columns::KINDS[usize::from(columns::U_LINE)].letter,
    }
}

// Returns the place, from 0, of the first train in more than one section.
fn first_long(trains: &[Train]) -> Option<usize>
    ensures { result ≡ position is_long trains.now }
{
    trains.iter().position(|train| 1 < train.count)
}

// Returns refusal 13, on the way to S, with the line of the first train in more than one section, if there is one.
// `as` keeps the place of a train, which is below 64.
fn long_refusal(letter: Letter, s: &Situation) -> Result<(), Refusal>
    requires { Limits s.now.header }
    ensures { result ≡ unless_refused (long_refusal letter s.now) tt }
{
    let long = match letter {
        Letter::S => first_long(&s.trains[..usize::from(s.header.trains)]),
        Letter::U => None,
    };
    match long {
        Some(k) => Err(Refusal {
            cause: Cause::TrainLong,
            line: 1 + s.header.plain + s.header.elements + (k as u16 + 1),
        }),
        None => Ok(()),
    }
}

// Copies bytes. `copy_from_slice` would call `memmove`, which nothing else in the library for C needs.
fn copy(from: &[u8], to: &mut [u8])
    requires { length to.old ≡ length from.now }
    ensures { to.new ≡ from.now }
{
    for i in 0..to.len() {
        to[i] = from[i];
    }
}

// Writes the file with another first letter to the start of the buffer, and returns how many bytes that are.
// The file and the buffer come as C hands them over, here and below.
fn convert(file: &[u8], letter: Letter, buffer: &mut [u8]) -> Result<usize, Refusal>
    ensures answer { result ≡ conversion_answer letter file.now (length buffer.old) }
    ensures after { buffer.new ≡ after_conversion letter file.now buffer.old }
    ensures within { IfOk result (λ n. n ≤ length buffer.old) }
{
    let s = reader::read(file)?;
    long_refusal(letter, &s)?;
    let n = file.len();
    if buffer.len() < n {
        return Err(Refusal {
            cause: Cause::BufferShort,
            line: 0,
        });
    }
    let filled = &mut buffer[..n];
    copy(file, filled);
    filled[0] = letter_byte(letter);
    Ok(n)
}

// Writes the file as an S file to the start of the buffer, and returns how many bytes that are; or refuses it, with 13 where a train is in more
// than one section.
// C has a function for each of the letters.
pub fn to_s(file: &[u8], buffer: &mut [u8]) -> Result<usize, Refusal>
    ensures answer { result ≡ conversion_answer Letter.S file.now (length buffer.old) }
    ensures after { buffer.new ≡ after_conversion Letter.S file.now buffer.old }
    ensures within { IfOk result (λ n. n ≤ length buffer.old) }
{
    convert(file, Letter::S, buffer)
}

// Writes the file as a U file to the start of the buffer, and returns how many bytes that are; or refuses it.
pub fn to_u(file: &[u8], buffer: &mut [u8]) -> Result<usize, Refusal>
    ensures answer { result ≡ conversion_answer Letter.U file.now (length buffer.old) }
    ensures after { buffer.new ≡ after_conversion Letter.U file.now buffer.old }
    ensures within { IfOk result (λ n. n ≤ length buffer.old) }
{
    convert(file, Letter::U, buffer)
}
