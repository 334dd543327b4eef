// The safe settings, a block at a time: the first open elements say which block it is, and bit x of a word stands for its setting in which the last open
// elements, at most six, are at place x. The open moves that a train follows in all settings of a block are found together, by words alone.
#![tactic(auto)]

ghost use Rattle.std.specs.Prelude.{◌≡◌, true, false, not, ◌&&◌, cond, ℕ, ◌+◌, ◌^◌, ◌≤◌, ◌<◌, get_or};
ghost use Rattle.meaning.specs.declared.Situation.{Situation as Station};
ghost use Rattle.bits.specs.Bits.{bit};
ghost use Rattle.reach.specs.Reach.{memb};
ghost use Rattle.setting_tables.specs.Prepared.{Prepared};
ghost use Rattle.setting_tables.specs.Sections.{word_bit};
ghost use Rattle.setting_safety.specs.Table.{Filled, enabled_from, Meeting, ClosuresBySection, Ready, SafeIn};
ghost use Rattle.setting_safety.specs.Followed.{in_setting, Empty, IsFollowed, leads_of, Listed, InDanger, Gathered, Joins, Added, left_over};

use bits::SetBits;
use meaning::MAX_TRAINS;
use reach::Reach;
use setting_order::Question;
use setting_tables::{BySection, FixedReach, Masks, OPEN_MOVES, Tables};

// ---- the open moves of all settings
// At most six open elements are the last ones.
const LAST: usize = 6;

// The most settings of a block, and the most blocks.
pub const PLACES: usize = 1 << LAST;

// Returns the table of the open moves that `n` open elements leave, of which the q-th is the first, and the fixed elements with them.
fn fill(masks: &Masks, q: usize, n: usize) -> [u64; PLACES]
    requires { (n ≤ 6) × (q + n ≤ 12) }
    ensures { Filled masks.now q n result }
{
    let mut enabled = [masks.fixed; PLACES];
    for i in 0..n {
        let [one, two] = masks.opens[q + (n - 1 - i)];
        setting_order::double(&mut enabled, 1 << i, |e| e & one, |e| e & two);
    }
    enabled
}

// Returns a word, or 0 where open move `e` is not in a mask.
fn if_left(mask: u64, e: usize, word: u64) -> u64
    requires { e < 64 }
    ensures { result ≡ cond (bit mask e) word 0 }
{
    if (mask >> e) & 1 == 1 { word } else { 0 }
}

// Returns for open move `e` alone what `fill` has for all: bit x says whether it is left at place x.
fn plane(masks: &Masks, q: usize, n: usize, e: usize) -> u64
    requires { (n ≤ 6) × (q + n ≤ 12) × (e < 64) }
    ensures { (x : ℕ) → x < 2 ^ n → bit result x ≡ bit (enabled_from masks.now q n x) e }
{
    let mut plane = (masks.fixed >> e) & 1;
    for i in 0..n {
        let [one, two] = masks.opens[q + (n - 1 - i)];
        let half: usize = 1 << i;
        let low = if_left(one, e, plane);
        let high = if_left(two, e, plane << half);
        plane = low | high;
    }
    plane
}

// ---- the open moves that trains follow
// Bit x of `settings[e]` says whether open move e is followed in setting x of a block, and bit e of `moves` whether it is followed in some setting.
// The open moves of `waiting` are followed in more settings than when what they bring was looked at.
#[derive(Drop)]
struct Followed {
    pub settings: [u64; OPEN_MOVES],
    pub moves: u64,
    pub waiting: u64,
}

impl Followed {
    const NONE: Followed = Followed {
        settings: [0; OPEN_MOVES],
        moves: 0,
        waiting: 0,
    };

    // Follows open move `e` in these settings too, and returns whether that is news.
    fn add(&mut self, e: usize, settings: u64) -> bool
        requires { e < 48 }
        ensures added { Added self.old e settings self.new }
        ensures left { left_over self.new ≤ left_over self.old }
    {
        let more = settings & !self.settings[e];
        if more == 0 {
            return false;
        }
        self.settings[e] |= more;
        self.moves |= 1u64 << e;
        self.waiting |= 1u64 << e;
        true
    }

    // Follows the open moves `exits`, and those that lead onward from one that is followed, in the settings `among` of a block: `first` are the open
    // moves that the first open elements leave, and row e of `planes` says in which of its settings the last ones leave open move e. One that harms the
    // train leads no further: the setting is then in danger, whatever comes after.
    fn follow(
        &mut self,
        exits: u64,
        first: u64,
        among: u64,
        harms: u64,
        planes: &[u64; OPEN_MOVES],
        onward: &[u64; OPEN_MOVES],
    )
        requires none { Empty self.old }
        requires few { (e : ℕ) → bit first e ≡ true → e < 48 }
        ensures { IsFollowed exits first among planes.now (leads_of onward.now harms) self.new }
    {
        for e in SetBits(exits & first) {
            self.add(e, planes[e] & among);
        }
        // The open moves that are not yet followed in all settings that leave them: no other is asked again.
        let mut open = first & !exits;
        // Round by round: what a round brings waits for the next one, so that an open move is reached in many settings before it is served.
        while self.waiting != 0 {
            let round = self.waiting;
            self.waiting = 0;
            for d in SetBits(round & !harms) {
                let settings = self.settings[d];
                for f in SetBits(onward[d] & open) {
                    let news = self.add(f, planes[f] & settings);
                    if news && self.settings[f] == planes[f] & among {
                        open &= !(1u64 << f);
                    }
                }
            }
        }
    }

    // Returns the settings in which one of some open moves is followed.
    fn any(&self, moves: u64) -> u64
        requires { (e : ℕ) → bit moves e ≡ true → e < 48 }
        ensures { Gathered (λ f x. in_setting self.now.settings x f ≡ true) moves 0 result }
    {
        let mut settings: u64 = 0;
        for f in SetBits(moves) {
            settings |= self.settings[f];
        }
        settings
    }

    // Returns the settings in which an open move is followed that harms the train, or whose closure overlaps the closure of one that an earlier train follows.
    fn dangers(&self, earlier: &Followed, harms: u64, overlaps: &[u64; OPEN_MOVES]) -> u64
        requires { Listed self.now × Listed earlier.now }
        ensures { Gathered (InDanger self.now earlier.now harms overlaps.now) self.now.moves 0 result }
    {
        let mut settings: u64 = 0;
        for e in SetBits(self.moves) {
            let some = if (harms >> e) & 1 == 1 {
                self.settings[e]
            } else {
                self.settings[e] & earlier.any(overlaps[e] & earlier.moves)
            };
            settings |= some;
        }
        settings
    }

    // Adds what another train follows.
    fn join(&mut self, other: &Followed)
        requires { Listed other.now }
        ensures { Joins self.old other.now 0 self.new }
    {
        self.moves |= other.moves;
        for e in SetBits(other.moves) {
            self.settings[e] |= other.settings[e];
        }
    }
}

// ---- what of a situation is the same in all blocks
// Returns the open moves among `moves` whose closures meet a set: each is compared with it.
fn compared(set: Reach, moves: u64, closures: &[FixedReach; OPEN_MOVES]) -> u64
    requires { (e : ℕ) → bit moves e ≡ true → e < 48 }
    ensures { Meeting (memb set.words) moves closures.now result }
{
    let mut bits: u64 = 0;
    for e in SetBits(moves) {
        if set.meets(closures[e].reach) {
            bits |= 1u64 << e;
        }
    }
    bits
}

// A set of more sections is compared with each closure: to look up its sections one by one takes longer.
const FEW: u32 = 32;

// Notes the open moves in the words of the sections of their closures, and returns those whose closures have too many sections for that.
fn put_by_section(tables: &Tables, by_section: &mut BySection) -> u64
    requires none { (c e : ℕ) → word_bit by_section.old c e ≡ false }
    requires below { (e : ℕ) → bit tables.now.moves e ≡ true → e < 48 }
    ensures { ClosuresBySection tables.now.moves tables.now.closures result by_section.new }
{
    let mut wide: u64 = 0;
    for e in SetBits(tables.moves) {
        let closure = tables.closures[e].reach;
        if closure.size() > FEW {
            wide |= 1u64 << e;
        } else {
            by_section.add(closure, e);
        }
    }
    wide
}

// Returns the open moves whose closures meet a set.
fn meeting(set: Reach, tables: &Tables, by_section: &BySection, wide: u64) -> u64
    requires below { (e : ℕ) → bit tables.now.moves e ≡ true → e < 48 }
    requires noted { ClosuresBySection tables.now.moves tables.now.closures wide by_section.now }
    ensures { Meeting (memb set.words) tables.now.moves tables.now.closures result }
{
    if set.size() > FEW {
        return compared(set, tables.moves, &tables.closures);
    }
    by_section.over(set) | compared(set, wide, &tables.closures)
}

// Returns the sections of a set without those of a part of it.
fn without(mut set: Reach, part: Reach) -> Reach
    ensures { (c : ℕ) → (memb part.words c ≡ true → memb set.words c ≡ true) → memb result.words c ≡ (memb set.words c && not (memb part.words c)) }
{
    for i in 0..Reach::WORDS {
        set.words[i] ^= part.words[i];
    }
    set
}

// What is the same in all blocks. `first` has the open moves that the first open elements leave in each block, `planes` those that the last ones leave in its
// settings, and `all` a bit for each of these. Row e of `overlaps` has the open
// moves whose closures meet that of open move e; row t of `harms`, for a train that an open move affects, those whose closures meet the base of
// another train.
#[derive(Drop)]
pub struct Blocks {
    pub count: usize,
    pub all: u64,
    pub first: [u64; PLACES],
    pub planes: [u64; OPEN_MOVES],
    pub overlaps: [u64; OPEN_MOVES],
    pub harms: [u64; MAX_TRAINS],
}

impl Blocks {
    // Returns the blocks of a situation, from its tables.
    pub fn of(q: Question, tables: &Tables) -> Blocks
        requires { Prepared q.s.now.situation tables.now }
        ensures { Ready q.entry.s.now.situation tables.now result }
    {
        let opens = q.s.open_count();
        let last = opens.min(LAST);
        let mut planes = [0u64; OPEN_MOVES];
        let mut overlaps = [0u64; OPEN_MOVES];
        let mut by_section = BySection::empty();
        let wide = put_by_section(tables, &mut by_section);
        for e in SetBits(tables.moves) {
            planes[e] = plane(&tables.masks, opens - last, last, e);
            overlaps[e] = meeting(tables.closures[e].reach, tables, &by_section, wide);
        }
        let mut harms = [0u64; MAX_TRAINS];
        for t in SetBits(tables.trains.affected) {
            let others = without(tables.trains.reach, tables.bases[t].reach);
            harms[t] = meeting(others, tables, &by_section, wide);
        }
        let places: usize = 1 << last;
        Blocks {
            count: 1 << (opens - last),
            all: u64::MAX >> (PLACES - places),
            first: fill(&tables.masks, 0, opens - last),
            planes,
            overlaps,
            harms,
        }
    }

    // Returns the safe settings of block `z`: for one train after another that an open move affects, the settings in which it is in danger are left out.
    pub fn safe(&self, z: usize, tables: &Tables) -> u64
        requires { (z < 64) × ((e : ℕ) → bit (get_or self.now.first z 0) e ≡ true → e < 48) }
        ensures { (s : Station) → Ready s tables.now self.now → z < self.now.count → SafeIn s z result }
    {
        let first = self.first[z];
        let mut good = self.all;
        let mut earlier = Followed::NONE;
        for t in SetBits(tables.trains.affected) {
            let exits = tables.bases[t].exits;
            let mut followed = Followed::NONE;
            followed.follow(
                exits,
                first,
                good,
                self.harms[t],
                &self.planes,
                &tables.onward,
            );
            good &= !followed.dangers(&earlier, self.harms[t], &self.overlaps);
            if good == 0 {
                return 0;
            }
            earlier.join(&followed);
        }
        good
    }
}
