// Ordered pairs of sections: for each section the set of those to which a pair leads from it.
#![tactic(auto)]

ghost use Rattle.std.specs.Prelude.{◌≡◌, [], ◌-◌};
ghost use Rattle.meaning.specs.Sections.{IsSection};
ghost use Rattle.meaning.specs.Station.{both_ways};
ghost use Rattle.pairs.specs.Pairs.{Rows, edge, Represents, Adds, Removes, Gains, AreSections, Outdegrees};

use meaning::{MAX_SECTIONS, Move, Section};
use reach::Reach;

// An ordered pair of sections of the largest station.
#[derive(Clone, Copy)]
pub struct Pair {
    pub from: Section,
    pub to: Section,
    pub ghost are_sections: { IsSection from × IsSection to },
}

impl Pair {
    // Returns the pair of a move.
    // It is no `From`: a move may have any sections.
    pub fn of(m: Move) -> Pair
        requires { IsSection m.from × IsSection m.to }
        ensures { (result.from ≡ m.from) × (result.to ≡ m.to) }
    {
        Pair {
            from: m.from,
            to: m.to,
        }
    }

    // Returns the pair the other way.
    pub fn back(self) -> Pair
        ensures { (result.from ≡ self.to) × (result.to ≡ self.from) }
    {
        Pair {
            from: self.to,
            to: self.from,
        }
    }

    // Returns the place of its first section, from 0.
    fn row(self) -> usize
        ensures { result ≡ self.from.0 - 1 }
    {
        usize::from(self.from.0) - 1
    }
}

// A set to which pairs are added.
pub trait PairSet {
    ghost rows: { Self → Rows };

    // Adds a pair.
    fn add(&mut self, p: Pair)
        ensures { Adds (rows self.old) p.from.0 p.to.0 (rows self.new) };

    // Adds a pair, and the one the other way.
    fn add_both_ways(&mut self, p: Pair)
        ensures { Gains (rows self.old) (both_ways p.from p.to) (rows self.new) }
    {
        self.add(p);
        self.add(p.back());
    }

    // Adds the pairs of moves.
    fn add_all(&mut self, ms: &[Move])
        requires { AreSections ms.now }
        ensures { Gains (rows self.old) ms.now (rows self.new) }
    {
        for m in ms {
            self.add(Pair::of(*m));
        }
    }
}

// A set of pairs: row a - 1 has the sections to which a pair leads from section a.
#[derive(Drop)]
pub struct Pairs {
    pub rows: [Reach; MAX_SECTIONS],
}

impl Pairs {
    // Returns the set of no pair.
    pub fn empty() -> Pairs
        ensures { Represents result.rows [] }
    {
        Pairs {
            rows: [Reach::empty(); MAX_SECTIONS],
        }
    }

    // Says whether a pair is in the set.
    pub fn has(&self, p: Pair) -> bool
        ensures { result ≡ edge self.now.rows p.from.0 p.to.0 }
    {
        self.rows[p.row()].has_inside(p.to)
    }

    // Takes away a pair.
    fn remove(&mut self, p: Pair)
        ensures { Removes self.old.rows p.from.0 p.to.0 self.new.rows }
    {
        self.rows[p.row()].remove(p.to);
    }
}

impl PairSet for Pairs {
    ghost rows = { λ s. s.rows };

    fn add(&mut self, p: Pair) {
        self.rows[p.row()].insert(p.to);
    }
}

// A set of pairs, and how many of them leave each section: `Reach::total` reads one number for each section, where the size of its row is eight words.
#[derive(Drop)]
pub struct CountedPairs {
    pub pairs: Pairs,
    pub outdegree: [u16; MAX_SECTIONS],
    ghost counted: { Outdegrees pairs.rows outdegree },
}

impl CountedPairs {
    // Returns the set of no pair.
    pub fn empty() -> CountedPairs
        ensures { Represents result.pairs.rows [] }
    {
        CountedPairs {
            pairs: Pairs::empty(),
            outdegree: [0u16; MAX_SECTIONS],
        }
    }

    // Takes away a pair; where it was there, it is no longer counted with those that leave its first section. `add` differs in the test, the
    // change and the sign: one function for both would ask for each which it is.
    pub fn remove(&mut self, p: Pair)
        ensures { Removes self.old.pairs.rows p.from.0 p.to.0 self.new.pairs.rows }
    {
        if self.pairs.has(p) {
            self.pairs.remove(p);
            self.outdegree[p.row()] -= 1;
        }
    }
}

impl PairSet for CountedPairs {
    ghost rows = { λ s. s.pairs.rows };

    // A pair that is new is counted with those that leave its first section.
    fn add(&mut self, p: Pair) {
        if !self.pairs.has(p) {
            self.pairs.add(p);
            self.outdegree[p.row()] += 1;
        }
    }
}
