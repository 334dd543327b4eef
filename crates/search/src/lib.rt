// Breadth-first search: the sections that a set of moves reaches from some sections, and a path to each.
#![tactic(auto)]

ghost use Rattle.std.specs.Prelude.{MatchOption, ◌≡◌, ◌++◌, ℕ, ◌+◌, ◌≤◌, ◌<◌, length, get_or, drop};
ghost use Rattle.basics.specs.Numbers.{count};
ghost use Rattle.reach.specs.Reach.{memb};
ghost use Rattle.pairs.specs.Pairs.{edge};
ghost use Rattle.search.specs.Search.{Sections, Queue, AllFound, Searched};
ghost use Rattle.search.specs.Steps.{in_word, Pushed, Begun, Followed, KeptPaths};
ghost use Rattle.search.specs.Read.{path_back, Back};

use bits::SetBits;
use meaning::{MAX_SECTIONS, Section};
use pairs::Pairs;
use reach::Reach;

// The predecessor of each section found: entry k is the section from which section k is found, 0 for a start, for which `before` returns None. An
// array of Option<Section>, or of Option<NonZeroU16>, has 2,052 bytes in place of 1,026, and no such element says that Some has no section 0: that
// would be a ghost field, to be shown again after each write.
#[derive(Drop)]
pub struct Predecessors {
    pub of: [u16; MAX_SECTIONS + 1],
}

// The sections in the order in which they are found, and their predecessors.
// With no heap the queue is an array, and `Found` says how many it holds.
#[derive(Drop)]
pub struct Search {
    pub queue: [u16; MAX_SECTIONS],
    pub before: Predecessors,
}

// The sections where a search starts.
#[derive(Clone, Copy)]
pub struct Starts<'a> {
    pub sections: &'a [u16],
    pub ghost are_sections: { Sections (length sections.now) sections.now },
}

// The sections found, as a set, and how many they are.
#[derive(Clone, Copy)]
pub struct Found {
    pub reach: Reach,
    pub count: usize,
}

impl Search {
    // Returns a search that has found no section.
    pub fn new() -> Search
        ensures queue { (k : ℕ) → get_or result.queue k 0 ≡ 0 }
        ensures before { (k : ℕ) → get_or result.before.of k 0 ≡ 0 }
    {
        Search {
            queue: [0; MAX_SECTIONS],
            before: Predecessors::new(),
        }
    }

    // Appends the sections of the set bits of `w`, which is word `i` of a reach, to the `n` entries of the queue, with section `a` as predecessor.
    // Returns how many entries the queue then has.
    // `as` keeps a section, which is at most 512.
    fn push(&mut self, n: usize, w: u64, i: usize, a: u16) -> usize
        requires { (n + count 512 (in_word i w) ≤ 512) × (i < 8) }
        ensures { Pushed (in_word i w) a self.old.queue self.old.before.of n self.new.queue self.new.before.of result }
    {
        let mut m = n;
        for b in SetBits(w) {
            let k = i * Reach::BITS + b + 1;
            self.queue[m] = k as u16;
            self.before.of[k] = a;
            m += 1;
        }
        m
    }

    // Puts the starts into the queue, each once, and returns them as the sections found.
    fn begin(&mut self, starts: Starts) -> Found
        ensures { Begun starts.entry.sections.now (length starts.entry.sections.now) result.reach.words self.new.queue self.new.before.of
            result.count }
    {
        let mut reach = Reach::empty();
        let mut n: usize = 0;
        for s in starts.sections {
            if !reach.has(Section(*s)) {
                reach = reach.with(Section(*s));
                self.queue[n] = *s;
                self.before.of[usize::from(*s)] = 0;
                n += 1;
            }
        }
        Found { reach, count: n }
    }

    // Appends the sections to which a move leads from the section at place `head` of the queue, and returns all sections found so far.
    fn follow(&mut self, pairs: &Pairs, found: Found, head: usize) -> Found
        requires { (head < found.count) × Queue (memb found.reach.words) self.old.queue found.count
            × AllFound (edge pairs.now.rows) (memb found.reach.words) self.old.before.of }
        ensures { Followed pairs.now.rows (get_or self.old.queue head 0) 512
            found.reach.words self.old.queue self.old.before.of found.count
            result.reach.words self.new.queue self.new.before.of result.count }
    {
        let mut reach = found.reach;
        let mut n = found.count;
        let a = self.queue[head];
        let row = &pairs.rows[usize::from(a) - 1];
        for i in 0..Reach::WORDS {
            let fresh = row.words[i] & !reach.words[i];
            if fresh != 0 {
                reach.words[i] |= fresh;
                n = self.push(n, fresh, i, a);
            }
        }
        Found { reach, count: n }
    }

    // Returns the sections that the moves of `pairs` reach from the starts. The queue grows while the loop runs, so its end is in no range.
    pub fn run(&mut self, pairs: &Pairs, starts: Starts) -> Found
        ensures { Searched pairs.now.rows starts.entry.sections.now result.reach.words self.new.queue self.new.before.of
            result.count }
    {
        let mut found = self.begin(starts);
        let mut head: usize = 0;
        while head < found.count {
            found = self.follow(pairs, found, head);
            head += 1;
        }
        found
    }
}

// Two of the three functions that read a path require more than a path: its number of moves, or room for it. A type with `Back` as a ghost field
// would not spare them the clause.
impl Predecessors {
    // Returns predecessors that are all 0.
    pub fn new() -> Predecessors
        ensures { (k : ℕ) → get_or result.of k 0 ≡ 0 }
    {
        Predecessors {
            of: [0; MAX_SECTIONS + 1],
        }
    }

    // Copies the predecessors, and so the paths, of the sections that a search found.
    pub fn keep(&mut self, found: &[u16], own: &Predecessors)
        requires { Sections (length found.now) found.now }
        ensures { KeptPaths found.now own.now.of self.old.of (length found.now) self.new.of }
    {
        for s in found {
            let k = usize::from(*s);
            self.of[k] = own.of[k];
        }
    }

    // Returns the section from which section `k` is found; None for a start.
    fn before(&self, k: Section) -> Option<Section>
        requires { k.0 ≤ 512 }
        ensures { MatchOption result (get_or self.now.of k.0 0 ≡ 0) (λ p. (get_or self.now.of k.0 0 ≡ p.0) × (1 ≤ p.0)) }
    {
        let p = self.of[usize::from(k.0)];
        (p != 0).then_some(Section(p))
    }

    // Returns how many moves the path to section `k` has. The walk goes by predecessors: no range has its end, and an iterator over them would have to
    // be shown to end, which `Back` says.
    fn count_moves(&self, k: Section) -> usize
        requires { (m : ℕ) × (m < 512) × Back self.now.of m k.0 }
        ensures { Back self.now.of result k.0 }
    {
        let mut moves: usize = 0;
        let mut at = k;
        while let Some(p) = self.before(at) {
            at = p;
            moves += 1;
        }
        moves
    }

    // Writes the path of `n` moves to section `k` to the start of `out`, its last section first.
    fn put_path(&self, k: Section, n: usize, out: &mut [u16])
        requires { Back self.now.of n k.0 × (n < length out.old) × (n < 512) }
        ensures { out.new ≡ path_back self.now.of n k.0 ++ drop (n + 1) out.old }
    {
        let mut place = k.0;
        for m in (0..n).rev() {
            out[m + 1] = place;
            place = self.of[usize::from(place)];
        }
        out[0] = place;
    }

    // Writes the path to section `k` to the start of `out`, and returns its length.
    pub fn path_to(&self, k: Section, out: &mut [u16]) -> usize
        requires { (m : ℕ) × (m < 512) × (m < length out.old) × Back self.now.of m k.0 }
        ensures { (m : ℕ) → Back self.now.of m k.0 → (result ≡ m + 1)
            × (out.new ≡ path_back self.now.of m k.0 ++ drop (m + 1) out.old) }
    {
        let n = self.count_moves(k);
        self.put_path(k, n, out);
        n + 1
    }
}
