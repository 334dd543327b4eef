// Runs the examples of document 01 that have no star, and the station of document 001, through `answer_key`: for each a title and the key.
#![tactic(auto)]

use std::io;
use std::io::Write;

// The places of elements' states in the file of document 001's station. Of a signal it is the last byte of the third field in its line.
const L1: usize = 7 * 22 + 15;

const L3: usize = 9 * 22 + 15;

const L4: usize = 10 * 22 + 15;

// Of a turnout it is the last byte of the fourth field.
const D1: usize = 15 * 22 + 20;

// Writes the title and the key of the file.
fn show<W: Write>(output: &mut W, title: &[u8], file: &[u8]) -> io::Result<()> {
    output.write_all(title)?;
    let mut key = [0u8; answer_key::LONGEST];
    let answer = answer_key::answer_key(file, &mut key).unwrap();
    output.write_all(&key[..answer.length])
}

// "512 sections pass, 513 is refusal 3."
fn sections<W: Write>(output: &mut W) -> io::Result<()> {
    show(
        output,
        b"512 sections\n",
        b"S  512    0    0    0
",
    )?;
    show(
        output,
        b"513 sections\n",
        b"S  513    0    0    0
",
    )
}

// "T 5 passes in K, T 6 is refusal 5."
fn trains<W: Write>(output: &mut W) -> io::Result<()> {
    let mut file = *b"S    5    1    4    2
P    2    1          
L    1    2    1     
D    2    3    4    1
L    3    5    1     
L    4    5    1     
T    1               
T    5               
";
    show(output, b"K with a train in 5\n", &file)?;
    file[7 * 22 + 5] = b'6';
    show(output, b"K with a train in 6\n", &file)
}

// "Twelve open pass, thirteen give 11." The S line first counts all lines but the last.
fn opens<W: Write>(output: &mut W) -> io::Result<()> {
    let mut file = *b"S   13    0   12    0
L    1    2    0     
L    2    3    0     
L    3    4    0     
L    4    5    0     
L    5    6    0     
L    6    7    0     
L    7    8    0     
L    8    9    0     
L    9   10    0     
L   10   11    0     
L   11   12    0     
L   12   13    0     
L   13   14    0     
";
    show(output, b"Twelve open\n", &file[..286])?;
    file[5] = b'4';
    file[15] = b'3';
    show(output, b"Thirteen open\n", &file)
}

// The station of document 001, Figure 1, with the trains and states of Figures 2 to 4. The figures are drawings; the numbers here are
// those that its text gives of them. P lines: its set P_F (Definition 4.5). Elements: its set X, L1 to L8, D1, D2 (Definition 4.2).
// Trains: its multiset, 1 and 10 (Definition 4.7). States: g after Definition 4.3 for Figure 2, f after Definitions 4.8 and 4.10 for
// Figures 3 and 4. Of Figure 2 its section 2 says in words that only L2 and L4 are at red, where g has L3 at red as well: both are run.
fn figures<W: Write>(output: &mut W) -> io::Result<()> {
    let mut file = *b"S   11    6   10    2
P    2    1          
P    3    4          
P    5    4          
P    9   10          
P    7    8          
P    7    6          
L    1    2    1     
L    4    3    2     
L    4    5    2     
L   10    9    2     
L   10   11    1     
L   11   10    1     
L    6    7    1     
L    8    7    1     
D    2    3    9    2
D    6    5   11    1
T    1               
T   10               
";
    // "The situation [is] dangerous."
    show(output, b"001, Figure 2, by its formula\n", &file)?;
    file[L3] = b'1';
    show(output, b"001, Figure 2, by its words\n", &file)?;
    // "There is only one safe potential configuration": L1 and L4 at red.
    file[L3] = b'2';
    file[L1] = b'0';
    file[L4] = b'0';
    show(output, b"001, Figure 3\n", &file)?;
    // "There are five possibilities to ensure safety."
    file[D1] = b'0';
    show(output, b"001, Figure 4\n", &file)
}

fn main(rt: HostRuntime) -> io::Result<()> {
    let mut output = rt.stdout();
    sections(&mut output)?;
    trains(&mut output)?;
    opens(&mut output)?;
    figures(&mut output)
}
