// Prints the station file on standard input with the letter S in front, or its refusal as an R line. A file of more than 29,590 bytes is
// refused whatever follows, so no more than 29,591 bytes are read.
// `to_u` differs in the operation alone: what the two do is `console::filter`, and each program has a `main`.
#![tactic(auto)]

use meaning::LONGEST_FILE;
use std::io;

fn main(rt: HostRuntime) -> io::Result<()> {
    let mut file = [0u8; LONGEST_FILE + 1];
    let mut lines = [0u8; LONGEST_FILE];
    console::filter(
        &mut rt.stdin(),
        &mut rt.stdout(),
        &mut file,
        &mut lines,
        |file, lines| {
            let answer = converter::to_s(file, lines);
            line_writer::put_outcome(lines, answer)
        },
    )
}
