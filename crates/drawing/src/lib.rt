// Marks a drawing: whether two lists of sections are paths of two different trains that end in one section.
#![tactic(auto)]

ghost use Rattle.std.specs.Prelude.{MatchOption, Ok, ◌≡◌, ◌||◌, List, ℕ, ◌-◌, ◌≤◌, eqb, ltb, get_or};
ghost use Rattle.meaning.specs.Station.{no_train, file_states};
ghost use Rattle.meaning.specs.Paths.{mem};
ghost use Rattle.meaning.specs.File.{reading_answer};
ghost use Rattle.meaning.specs.Drawing.{drawn, drawing_answer};
ghost use Rattle.pairs.specs.Pairs.{edge};
ghost use Rattle.moves.specs.Standing.{places_of};
ghost use Rattle.drawing.specs.Walk.{path_end};

use element_states::SoundSituation;
use meaning::{Cause, MAX_SECTIONS, Refusal, Section, Train};
use moves::Standing;
use pairs::{CountedPairs, Pair, Pairs};

// The most sections, as 16 bits. `as` keeps it: a constant calls no function.
const SECTIONS: u16 = MAX_SECTIONS as u16;

// Says whether the table has the pair (a, b). A number that no section has is in no pair.
fn permitted(table: &Pairs, a: u16, b: u16) -> bool
    ensures { result ≡ edge table.now.rows a b }
{
    if (a == 0) | (SECTIONS < a) | (b == 0) | (SECTIONS < b) {
        return false;
    }
    table.has(Pair {
        from: Section(a),
        to: Section(b),
    })
}

// Says whether a train stands in section a.
fn stands_in(train: Train, a: u16) -> bool
    ensures { result ≡ mem a (places_of train) }
{
    Standing::from(train).as_slice().contains(&a)
}

// Returns the section in which a list ends, where the list is a path: it starts where the train stands, and each step is a pair of the table.
// There is one look into the table for each step.
#[tactic(auto, using(crate::proofs::Walked::walking))]
fn path_end(table: &Pairs, train: Train, list: &[u16]) -> Option<u16>
    ensures { MatchOption result (path_end (edge table.now.rows) (places_of train) list.now ≡ 0)
        (λ a. (a ≡ path_end (edge table.now.rows) (places_of train) list.now) × (1 ≤ a)) }
{
    let (first, rest) = list.split_first()?;
    let mut a = *first;
    if (a == 0) | !stands_in(train, a) {
        return None;
    }
    for b in rest {
        if !permitted(table, a, *b) {
            return None;
        }
        a = *b;
    }
    Some(a)
}

// Returns train t.
fn train_at(s: &SoundSituation, t: u16) -> Train
    requires { (1 ≤ t) × (t ≤ 64) }
    ensures { result ≡ get_or s.now.situation.trains (t - 1) no_train }
{
    s.situation.trains[usize::from(t) - 1]
}

// Says whether the drawing is right. The table is lent and filled: a returned one may be copied, 34 KB.
fn mark(s: &SoundSituation, i: u16, j: u16, first: &[u16], second: &[u16]) -> bool
    requires first_train { (1 ≤ i) × (i ≤ s.now.situation.header.trains) }
    requires second_train { (1 ≤ j) × (j ≤ s.now.situation.header.trains) }
    ensures { result ≡ drawn s.now.situation (file_states s.now.situation) i j first.now second.now }
{
    let mut table = CountedPairs::empty();
    moves::fill(s, &mut table);
    let x = path_end(&table.pairs, train_at(s, i), first);
    let y = path_end(&table.pairs, train_at(s, j), second);
    (i != j) & x.is_some() & (x == y)
}

// Says whether none of n trains has the number t.
fn no_train(n: u16, t: u16) -> bool
    ensures { result ≡ (eqb t 0 || ltb n t) }
{
    (t == 0) | (n < t)
}

// Returns the mark of a drawing in a situation, or its refusal. The contract says it of each file that is read as the situation, since the mark is defined
// of a file. It stays a function of its own, so that its tables are not on the stack beside the reader's.
// Trains and lists come as C hands them over, in this crate.
#[inline(never)]
#[tactic(auto, using(crate::proofs::Refusals::ways_out))]
fn of_situation(
    s: &SoundSituation,
    i: u16,
    j: u16,
    first: &[u16],
    second: &[u16],
) -> Result<bool, Refusal>
    ensures { (file : List ℕ) → reading_answer file ≡ Ok s.now.situation
        → result ≡ drawing_answer file i j first.now second.now }
{
    let n = s.situation.header.trains;
    let none = no_train(n, i) | no_train(n, j);
    let call = s.verdict_call(false);
    call?;
    if none {
        return Err(Refusal {
            cause: Cause::NoTrain,
            line: 0,
        });
    }
    Ok(mark(s, i, j, first, second))
}

// Returns the mark of a drawing, or its refusal: `first` is drawn for train i, `second` for train j.
#[tactic(auto, using(crate::proofs::Refusals::ways_out))]
pub fn drawing(file: &[u8], i: u16, j: u16, first: &[u16], second: &[u16]) -> Result<bool, Refusal>
    ensures { result ≡ drawing_answer file.now i j first.now second.now }
{
    let s = SoundSituation::read(file)?;
    of_situation(&s, i, j, first, second)
}
