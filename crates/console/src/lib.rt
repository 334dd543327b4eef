// Reading standard input into a buffer, and printing what an operation makes of it: for the programs.
#![tactic(auto)]

ghost use Rattle.std.specs.Prelude.{◌≡◌, ◌<◌, ◌≤◌, ℕ, length, take, IfOk, OnOk, OnErr};
ghost use Rattle.std.specs.Io.{ReadsAtMost};
ghost use Rattle.std.specs.Io.KnownBytes.{Consumes, IsAtEnd, Appends};

use std::io;
use std::io::{Read, Write};

// Reads until the buffer is full or the input ends, and returns how many bytes at its start were read.
// No range has the places, since each read says how many bytes it gave; `read_exact` takes a shorter input for an error, and `read_to_end` fills a Vec.
pub fn read_full<R: Read>(input: &mut R, buffer: &mut [u8]) -> io::Result<usize>
    ensures bound { ReadsAtMost result buffer.new }
    ensures bytes { IfOk result (λ n. Consumes (R.remaining input.old) (R.remaining input.new) (take n buffer.new)) }
    ensures none_lost { OnErr result ((n : ℕ) × Consumes (R.remaining input.old) (R.remaining input.new) (take n buffer.new)) }
    ensures end { IfOk result (λ n. n < length buffer.new → IsAtEnd (R.remaining input.new)) }
{
    let mut filled = 0;
    while filled < buffer.len() {
        let n = input.read(&mut buffer[filled..])?;
        if n == 0 {
            break;
        }
        filled += n;
    }
    Ok(filled)
}

// Reads as much of the input as a buffer has room for, calls the operation, which fills another buffer and returns how many bytes it filled, and writes
// these bytes.
pub fn filter<R: Read, W: Write, F: FnOnce(&[u8], &mut [u8]) -> usize>(
    input: &mut R,
    output: &mut W,
    read: &mut [u8],
    made: &mut [u8],
    operation: F,
) -> io::Result<()>
    requires callable { (x : _) (y : _) → length x.now ≤ length read.old → length y.now ≡ length made.old → F.pre operation x y }
    requires within { (x : _) (y : _) (n : _) (y' : _) → F.post operation x y n y' → n ≤ length y'.now }
    ensures filtered { OnOk result ((x : _) × (y : _) × (n : ℕ) × (y' : _) × F.post operation x y n y'
        × Consumes (R.remaining input.old) (R.remaining input.new) x.now
        × (length x.now < length read.old → IsAtEnd (R.remaining input.new))
        × Appends (W.contents output.old) (W.contents output.new) (take n y'.now)) }
{
    let n = read_full(input, read)?;
    let m = operation(&read[..n], made);
    output.write_all(&made[..m])
}

#[cfg(test)]
mod tests {
    use super::*;

    #[test]
    fn reads_on_after_a_short_read(rt: HostRuntime) {
        let mut input = b"ab".chain(&b"cde"[..]);
        let mut buffer = [b'.'; 4];
        assert!(rt; matches!(read_full(&mut input, &mut buffer), Ok(4)));
        assert!(rt; buffer == *b"abcd");
        assert!(rt; matches!(read_full(&mut input, &mut buffer), Ok(1)));
        assert!(rt; buffer == *b"ebcd");
    }

    #[test]
    fn writes_what_the_operation_makes(rt: HostRuntime) {
        let mut input = b"ab".chain(&b"cde"[..]);
        let mut output = [b'.'; 6];
        let mut room = &mut output[..];
        let read = &mut [0u8; 4];
        let made = &mut [b'-'; 3];
        let written = filter(&mut input, &mut room, read, made, |x, y| {
            let n = x.len().min(y.len());
            y[..n].copy_from_slice(&x[..n]);
            n
        });
        assert!(rt; written.is_ok());
        assert!(rt; output == *b"abc...");
    }
}
