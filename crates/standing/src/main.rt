// Prints the standing answers of the log on standard input as C lines, or its refusal as an R line. A log of more than 22,000 bytes is refused
// whatever follows, so no more than 22,001 bytes are read.
// `to_s` and `to_u` have such a `main` with other sizes: what they do is `console::filter`.
#![tactic(auto)]

use answers::LONGEST_LOG;
use std::io;

fn main(rt: HostRuntime) -> io::Result<()> {
    let mut log = [0u8; LONGEST_LOG + 1];
    let mut lines = [0u8; LONGEST_LOG];
    console::filter(
        &mut rt.stdin(),
        &mut rt.stdout(),
        &mut log,
        &mut lines,
        |log, lines| {
            let answer = answers::standing_answers(log, lines);
            line_writer::put_outcome(lines, answer)
        },
    )
}
