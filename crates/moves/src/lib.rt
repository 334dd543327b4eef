// The moves that a situation permits, as a set of pairs with how many leave each section; and where a train stands.
#![tactic(auto)]

ghost use Rattle.std.specs.Prelude.{◌≡◌, true, [], ◌≤◌, length};
ghost use Rattle.meaning.specs.Station.{plain_moves, both_ways, moves_of, elements_of, permitted, forbids, file_states, moves};
ghost use Rattle.meaning.specs.Inside.{sections_of, all_inside};
ghost use Rattle.pairs.specs.Pairs.{Represents, Gains, AreSections};
ghost use Rattle.moves.specs.Moves.{Loses};
ghost use Rattle.moves.specs.Standing.{places_of};

use element_states::SoundSituation;
use meaning::{Element, Kind, MAX_STANDING, Move, Train};
use pairs::{CountedPairs, Pair, PairSet};
use std::marker::Model;

// The sections where a train stands: the first `count` of four, with no heap.
#[derive(Drop)]
pub struct Standing {
    sections: [u16; MAX_STANDING],
    count: usize,
}

impl Model for Standing {
    ghost use Rattle.std.specs.Prelude.{List, ℕ, ◌≤◌, take};

    ghost Value = { List ℕ };

    ghost view = { λ s. take s.count s.sections };

    ghost invariant = { λ s. s.count ≤ 4 };
}

// A count above four means the four sections that there are.
impl From<Train> for Standing {
    ghost from_gives = { λ t s. s ≡ places_of t };

    fn from(t: Train) -> Standing {
        Standing {
            sections: [t.first.0, t.second.0, t.third.0, t.fourth.0],
            count: usize::from(t.count).min(MAX_STANDING),
        }
    }
}

impl Standing {
    // Returns the numbers of the sections.
    pub fn as_slice(&self) -> &[u16]
        ensures { result.now ≡ self.now }
    {
        &self.sections[..self.count]
    }
}

// The kind of an element whose sections are those of the largest station. A `Kind` may have any, which the writer refuses.
#[derive(Clone, Copy)]
pub struct InsideKind {
    pub kind: Kind,
    pub ghost inside: { all_inside 512 (sections_of kind) ≡ true },
}

// Returns the P lines of a situation.
pub fn plain_moves(s: &SoundSituation) -> &[Move]
    ensures are { result.now ≡ plain_moves s.now.situation }
    ensures sections { AreSections result.now }
{
    &s.situation.plain[..usize::from(s.situation.header.plain)]
}

// Returns the elements of a situation. One function for this and `plain_moves` would take the list and its count, and be a slice.
pub fn elements(s: &SoundSituation) -> &[Element]
    ensures { result.now ≡ elements_of s.now.situation }
{
    &s.situation.elements[..usize::from(s.situation.header.elements)]
}

// Adds the moves that an element permits in a state. An open element permits none.
#[tactic(auto, using(crate::proofs::Element::sections_inside))]
fn add_element(e: InsideKind, state: u8, table: &mut CountedPairs)
    ensures { Gains table.old.pairs.rows (moves_of e.kind state) table.new.pairs.rows }
{
    match e.kind {
        Kind::Signal(m) => {
            if state == 1 {
                table.add(Pair::of(m));
            }
        }
        Kind::Turnout(t) => {
            if state == 1 {
                table.add_both_ways(Pair {
                    from: t.stem,
                    to: t.straight,
                });
            } else if state == 2 {
                table.add_both_ways(Pair {
                    from: t.stem,
                    to: t.diverted,
                });
            }
        }
    }
}

// Removes a pair and the pair the other way.
fn drop_both_ways(p: Pair, table: &mut CountedPairs)
    ensures { Loses table.old.pairs.rows (permitted (both_ways p.from p.to)) table.new.pairs.rows }
{
    table.remove(p);
    table.remove(p.back());
}

// Removes the pairs that an element forbids in state `x`: those that it stands over and does not permit. Where both legs are one section, both
// states permit the same two pairs, and none is removed. Numbers are compared: a derived equality of sections would be used here alone.
#[tactic(auto, using(crate::proofs::Element::sections_inside))]
fn drop_element(e: InsideKind, x: u8, table: &mut CountedPairs)
    ensures { Loses table.old.pairs.rows (forbids e.kind x) table.new.pairs.rows }
{
    match e.kind {
        Kind::Signal(m) => {
            if x != 1 {
                table.remove(Pair::of(m));
            }
        }
        Kind::Turnout(t) => {
            let straight = Pair {
                from: t.stem,
                to: t.straight,
            };
            let diverted = Pair {
                from: t.stem,
                to: t.diverted,
            };
            if x == 1 {
                if t.straight.0 != t.diverted.0 {
                    drop_both_ways(diverted, table);
                }
            } else if x == 2 {
                if t.straight.0 != t.diverted.0 {
                    drop_both_ways(straight, table);
                }
            } else {
                drop_both_ways(straight, table);
                drop_both_ways(diverted, table);
            }
        }
    }
}

// Fills an empty set of pairs with the moves that the situation permits with its elements in the file's states: the pairs that some element
// permits and none forbids, and the P lines. An open element permits nothing.
#[tactic(auto, using(crate::proofs::Loses::filling), unfolding(meaning::specs::Station::element_moves, meaning::specs::Station::forbidden))]
pub fn fill(s: &SoundSituation, table: &mut CountedPairs)
    requires { Represents table.old.pairs.rows [] }
    ensures { Represents table.new.pairs.rows (moves s.now.situation (file_states s.now.situation)) }
{
    for e in elements(s) {
        add_element(InsideKind { kind: e.kind }, e.state, table);
    }
    for f in elements(s) {
        drop_element(InsideKind { kind: f.kind }, f.state, table);
    }
    table.add_all(plain_moves(s));
}
