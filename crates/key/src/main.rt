// Prints the key of the station file on standard input. A file of more than 29,590 bytes is refused whatever follows, so no more than
// 29,591 bytes are read.
// With `console::filter` the `unwrap` would stand in a closure, which is no plainer.
#![tactic(auto)]

use meaning::LONGEST_FILE;
use std::io;
use std::io::Write;

fn main(rt: HostRuntime) -> io::Result<()> {
    let mut file = [0u8; LONGEST_FILE + 1];
    let n = console::read_full(&mut rt.stdin(), &mut file)?;
    let mut key = [0u8; answer_key::LONGEST];
    let output = answer_key::answer_key(&file[..n], &mut key).unwrap();
    rt.stdout().write_all(&key[..output.length])
}
