// The table of conflicts of a route file (02, item 7). The file is read line by line, with a place by value. No two routes are compared: each
// section, and each turnout in each state, has a word with a bit for each route that has or wants it. A line joins the word of its section,
// or of the other state of its turnout, to the conflicts of its route: so each route's conflicts with the earlier ones are there at its end.
// `as` keeps each value: `usize` has room for 32 bits, the number of a kind is at most 2, and a line past those of 64 routes is refused.
#![tactic(auto)]

ghost use Rattle.std.specs.Prelude.{Result, Ok, MatchOption, MatchResult, IfOk, IfErr, ◌≡◌, true, false, not, ◌||◌, List, [], ◌++◌, ℕ, suc, ◌+◌, ◌*◌, ◌≤◌, ◌<◌, eqb, ltb, length, drop};
ghost use Rattle.meaning.specs.Refusals.{number_of};
ghost use Rattle.meaning.specs.Sections.{IsSection};
ghost use Rattle.meaning.specs.Station.{section, pairs_over};
ghost use Rattle.basics.specs.Lists.{list_of};
ghost use Rattle.meaning.specs.File.{reading_answer, refusal};
ghost use Rattle.route_meaning.specs.Routes.{
  Route,
  after_routes,
  pair_byte,
  route_line,
  routes_answer,
  sort_at,
  sort_of,
  stood_over,
  table_of,
};
ghost use Rattle.meaning.specs.Columns.{no_kind};
ghost use Rattle.pairs.specs.Pairs.{edge, Represents, Gains};
ghost use Rattle.routes.specs.declared.RouteWords.{RouteWords};
ghost use Rattle.routes.specs.Sets.{
  Held,
  RefusedWith,
  RoutesAre,
  Takes,
  add_section,
  add_want,
  is_outside,
  kind_of,
  number_of_line,
  state_of,
  to_last,
};

mod place;

use element_states::SoundSituation;
use meaning::{
    Cause, FieldForm, Kind, LINE_BYTES, Line, MAX_ELEMENTS, MAX_SECTIONS, RecordKind, Refusal,
    Section,
};
use moves::InsideKind;
use pairs::{Pair, PairSet, Pairs};
use place::{Place, RouteLine};
use route_meaning::RouteField;

// "0 to 64 routes .., 2 to 32 sections and 0 to 16 turnouts a route".
const MAX_ROUTES: usize = 64;

const MIN_ROUTE_SECTIONS: u32 = 2;

const MAX_ROUTE_SECTIONS: u32 = 32;

const MAX_ROUTE_TURNOUTS: u32 = 16;

// The table gives each kind's letter, how many fields it fills, and what they mean.
const KINDS: [RecordKind<Option<RouteField>>; 3] = [
    RecordKind {
        letter: b'R',
        filled: 4,
        meaning: [
            Some(RouteField::Route),
            Some(RouteField::StartSignal),
            Some(RouteField::SectionCount),
            Some(RouteField::TurnoutCount),
        ],
    },
    RecordKind {
        letter: b'K',
        filled: 1,
        meaning: [Some(RouteField::Section), None, None, None],
    },
    RecordKind {
        letter: b'W',
        filled: 2,
        meaning: [
            Some(RouteField::Turnout),
            Some(RouteField::State),
            None,
            None,
        ],
    },
];

// Returns the refusal of line i, from 0.
// `as` keeps the line's number, as the condition says.
fn on_line(cause: Cause, i: usize) -> Refusal
    requires { i < 65535 }
    ensures { result ≡ refusal (number_of cause) (i + 1) }
{
    Refusal {
        cause,
        line: i as u16 + 1,
    }
}

// ---- the station
// Adds the pairs that an element's line stands over.
#[tactic(auto, using(moves::proofs::Element::sections_inside))]
fn add_element(e: InsideKind, over: &mut Pairs)
    ensures { Gains over.old.rows (pairs_over e.kind) over.new.rows }
{
    match e.kind {
        Kind::Signal(m) => over.add(Pair::of(m)),
        Kind::Turnout(t) => {
            over.add_both_ways(Pair {
                from: t.stem,
                to: t.straight,
            });
            over.add_both_ways(Pair {
                from: t.stem,
                to: t.diverted,
            });
        }
    }
}

// The pairs that the station's lines stand over.
#[tactic(auto, using(moves::proofs::Station::kind_inside))]
fn put_over(s: &SoundSituation, over: &mut Pairs)
    requires { Represents over.old.rows [] }
    ensures { Represents over.new.rows (stood_over s.now.situation) }
{
    over.add_all(moves::plain_moves(s));
    for e in moves::elements(s) {
        add_element(InsideKind { kind: e.kind }, over);
    }
}

// What is asked of a station: its sections and elements, and the pairs that its lines stand over.
#[derive(Drop)]
struct Station<'a> {
    situation: &'a SoundSituation,
    over: &'a Pairs,
    ghost over_is: { Represents over.now.rows (stood_over situation.now.situation) },
}

impl Station<'_> {
    ghost use Rattle.routes.specs.Sets.{number_of_section};

    // Returns section n, if the station has it.
    // `as` keeps the number: a station has at most 512 sections.
    fn section(&self, n: u32) -> Result<Section, Cause>
        ensures { MatchResult result (λ a. (is_outside self.now.situation.now.situation n ≡ false) × (a ≡ section n) × IsSection a)
            (λ e. (is_outside self.now.situation.now.situation n ≡ true) × (number_of e ≡ 14)) }
    {
        if (n == 0) | (u32::from(self.situation.situation.header.sections) < n) {
            return Err(Cause::RouteLine);
        }
        Ok(Section(n as u16))
    }

    // Returns the kind of element e, from 1, if the station has it.
    #[tactic(auto, using(route_meaning::proofs::Sorts::sort_none, route_meaning::proofs::Sorts::sort_here))]
    fn kind(&self, e: u32) -> Option<Kind>
        ensures { MatchOption result (sort_at self.now.situation.now.situation e ≡ 0) (λ k. sort_at self.now.situation.now.situation e ≡ sort_of k) }
    {
        let e = moves::elements(self.situation).get((e as usize).checked_sub(1)?)?;
        Some(e.kind)
    }

    // Tells whether element e is a signal of the station. It and `is_turnout` are two functions, since a pattern is no parameter.
    fn is_signal(&self, e: u32) -> bool
        ensures { result ≡ eqb (sort_at self.now.situation.now.situation e) 1 }
    {
        matches!(self.kind(e), Some(Kind::Signal(_)))
    }

    // Tells whether element e is a turnout of the station.
    fn is_turnout(&self, e: u32) -> bool
        ensures { result ≡ eqb (sort_at self.now.situation.now.situation e) 2 }
    {
        matches!(self.kind(e), Some(Kind::Turnout(_)))
    }

    // Tells whether the step to a section stands under a station line. No step leads to a route's first section, and that one passes.
    fn steps_on(&self, p: Place, to: Section) -> bool
        requires { IsSection to }
        ensures { result ≡ (eqb (number_of_section p.last) 0 || edge self.now.over.now.rows (number_of_section p.last) to.0) }
    {
        match p.last {
            Some(from) => self.over.has(Pair { from, to }),
            None => true,
        }
    }
}

// ---- the words
// The routes of a file: bit k of a word is that of route k, from 0. That the words are those of a list of routes (`Held`) is said by the methods below of every
// list, and asked by none: the routes are not in memory, and a ghost field would be given another list by each method.
#[derive(Drop)]
struct RouteWords {
    // The routes that have each section.
    sections: [u64; MAX_SECTIONS],
    // The routes that want each element at 1, and those that want it at 2.
    wants: [[u64; 2]; MAX_ELEMENTS],
    // The earlier routes that each route conflicts with.
    conflicts: [u64; MAX_ROUTES],
}

impl RouteWords {
    // Returns the words of no route.
    fn empty() -> RouteWords
        ensures { Held result [] }
    {
        RouteWords {
            sections: [0u64; MAX_SECTIONS],
            wants: [[0u64; 2]; MAX_ELEMENTS],
            conflicts: [0u64; MAX_ROUTES],
        }
    }

    // Gives section a to route k, which then conflicts with the routes that have it. Here and below the number of a route is below 64:
    // `Place` has the bound (`few`), and a type for the number would be made by both callers and in two loops, and unwrapped at each use.
    #[tactic(auto, using(bits::proofs::Bits::one_shl, crate::proofs::Words::held_passed))]
    fn pass(&mut self, k: usize, a: Section)
        requires { (k < 64) × IsSection a }
        ensures { (rs : List Route) → suc k ≡ length rs → Held self.old rs → Held self.new (to_last (add_section a.0) rs) }
    {
        let i = usize::from(a.0) - 1;
        self.conflicts[k] |= self.sections[i];
        self.sections[i] |= 1u64 << k;
    }

    // Notes that route k wants turnout e, from 1, diverted or straight, and conflicts with the routes that want it the other way.
    fn want(&mut self, k: usize, e: usize, diverted: bool)
        requires { (k < 64) × (1 ≤ e) × (e ≤ 256) }
        ensures { (rs : List Route) → suc k ≡ length rs → Held self.old rs → Held self.new (to_last (add_want e (state_of diverted)) rs) }
    {
        self.conflicts[k] |= self.wants[e - 1][usize::from(!diverted)];
        self.wants[e - 1][usize::from(diverted)] |= 1u64 << k;
    }

    // The byte of any two routes: the table is symmetric, and no route conflicts with itself.
    #[tactic(auto, using(crate::proofs::Conflict::bytes))]
    fn byte(&self, a: usize, b: usize) -> u8
        requires { (a < 64) × (b < 64) }
        ensures { (rs : List Route) → Held self.now rs → result ≡ pair_byte rs (a + 1) (b + 1) }
    {
        if b < a {
            return u8::from((self.conflicts[a] >> b) & 1 == 1);
        }
        if a < b {
            return u8::from((self.conflicts[b] >> a) & 1 == 1);
        }
        0
    }

    // Writes the bytes of route a with each route.
    #[tactic(auto, using(crate::proofs::Table::storing))]
    fn fill_row(&self, a: usize, row: &mut [u8])
        requires { (a < 64) × (length row.old ≤ 64) }
        ensures { (rs : List Route) → Held self.now rs → row.new ≡ list_of (length row.old) (λ b. pair_byte rs (a + 1) (b + 1)) }
    {
        for (b, byte) in row.iter_mut().enumerate() {
            *byte = self.byte(a, b);
        }
    }

    // Writes the bytes of all pairs of n routes.
    #[tactic(auto, using(crate::proofs::Table::storing))]
    fn fill(&self, n: usize, table: &mut [u8])
        requires { (n ≤ 64) × (length table.old ≡ n * n) }
        ensures { (rs : List Route) → length rs ≡ n → Held self.now rs → table.new ≡ table_of rs }
    {
        for a in 0..n {
            self.fill_row(a, &mut table[a * n..(a + 1) * n]);
        }
    }
}

// ---- one line
// Returns line i, if it is of this kind.
#[inline(always)]
fn line_of(file: &[u8], i: u32, kind: RouteLine) -> Result<Line, Cause>
    ensures { MatchResult result (λ l. (l ≡ route_line file.now i (number_of_line kind)) × (l.kind ≡ number_of_line kind))
        (λ e. (number_of e ≡ 14) × ((route_line file.now i (number_of_line kind)).kind ≡ no_kind)) }
{
    // An arm for each kind, so that each has code of its own: with `KINDS[kind as usize]` the rows of `bench` go from 1.4 to 1.9.
    let e = match kind {
        RouteLine::R => KINDS[0],
        RouteLine::K => KINDS[1],
        RouteLine::W => KINDS[2],
    };
    line_reader::row(file, i, kind as u8, e.letter, e.filled, FieldForm::Old).ok_or(
        Cause::RouteLine,
    )
}

// Tells whether a number of an R line is wrong; `signal` says that its start signal is one.
fn wrong_r(l: Line, routes: u32, signal: bool) -> bool
    requires { routes ≤ 64 }
    ensures { result ≡ (not (eqb l.first (routes + 1)) || ltb 64 l.first || not signal
        || ltb l.third 2 || ltb 32 l.third || ltb 16 l.fourth) }
{
    let next = routes + 1;
    (l.first != next)
        | ((MAX_ROUTES as u32) < l.first)
        | !signal
        | (l.third < MIN_ROUTE_SECTIONS)
        | (MAX_ROUTE_SECTIONS < l.third)
        | (MAX_ROUTE_TURNOUTS < l.fourth)
}

// A place goes by value and the words by reference. With the words in a struct beside the station, which a K line changes, each contract would say
// besides that the station stays.
impl Station<'_> {
    // Takes an R line, which begins a route.
    fn take_r(&self, l: Line, p: Place) -> Result<Place, Cause>
        requires { l.kind ≡ 0 }
        ensures { (words : RouteWords) → Takes self.now.situation.now.situation l p words words result }
    {
        if wrong_r(l, p.routes, self.is_signal(l.second)) {
            return Err(Cause::RouteLine);
        }
        Ok(Place {
            routes: p.routes + 1,
            sections: l.third,
            turnouts: l.fourth,
            last: None,
        })
    }

    // Takes a K line: its route has the section, and conflicts with the routes that have it.
    fn take_k(&self, l: Line, p: Place, words: &mut RouteWords) -> Result<Place, Cause>
        requires { (l.kind ≡ 1) × (1 ≤ p.sections) }
        ensures { Takes self.now.situation.now.situation l p words.old words.new result }
    {
        let a = self.section(l.first)?;
        if !self.steps_on(p, a) {
            return Err(Cause::RouteStep);
        }
        words.pass(p.routes as usize - 1, a);
        Ok(Place {
            routes: p.routes,
            sections: p.sections - 1,
            turnouts: p.turnouts,
            last: Some(a),
        })
    }

    // Takes a W line: its route wants the turnout in one state, and conflicts with the routes that want it in the other.
    fn take_w(&self, l: Line, p: Place, words: &mut RouteWords) -> Result<Place, Cause>
        requires { (l.kind ≡ 2) × (1 ≤ p.turnouts) }
        ensures { Takes self.now.situation.now.situation l p words.old words.new result }
    {
        if !self.is_turnout(l.first) | (l.second == 0) | (2 < l.second) {
            return Err(Cause::RouteLine);
        }
        words.want(p.routes as usize - 1, l.first as usize, l.second == 2);
        Ok(Place {
            routes: p.routes,
            sections: p.sections,
            turnouts: p.turnouts - 1,
            last: p.last,
        })
    }

    // Takes line i, which is of the kind that is to come.
    fn take(&self, file: &[u8], i: u32, p: Place, words: &mut RouteWords) -> Result<Place, Cause>
        ensures { Takes self.now.situation.now.situation (route_line file.now i (kind_of p)) p words.old words.new result }
    {
        match p.next_line() {
            RouteLine::R => self.take_r(line_of(file, i, RouteLine::R)?, p),
            RouteLine::K => self.take_k(line_of(file, i, RouteLine::K)?, p, words),
            RouteLine::W => self.take_w(line_of(file, i, RouteLine::W)?, p, words),
        }
    }

    // Returns how many routes the lines of a file make, up to the first that has a cause; `words` are theirs then.
    #[tactic(auto, using(crate::proofs::Reading::going_start, crate::proofs::Reading::going_more))]
    fn read_lines(&self, file: &[u8], words: &mut RouteWords) -> Result<usize, Refusal>
        requires { Held words.old [] }
        ensures accepted { IfOk result (RoutesAre self.now.situation.now.situation file.now words.new) }
        ensures refused { IfErr result (RefusedWith self.now.situation.now.situation file.now) }
    {
        let lines = file.len().div_ceil(LINE_BYTES);
        let mut p = Place::start();
        for i in 0..lines {
            match self.take(file, i as u32, p, words) {
                Ok(next) => p = next,
                Err(cause) => return Err(on_line(cause, i)),
            }
        }
        match p.next_line() {
            RouteLine::R => Ok(p.routes as usize),
            _ => Err(on_line(Cause::RouteLine, lines)),
        }
    }
}

// ---- the file
// Returns how many routes a file has in a station; `words` are theirs then. The set of pairs of the station's lines is off the stack when this returns.
fn read_routes(file: &[u8], s: &SoundSituation, words: &mut RouteWords) -> Result<usize, Refusal>
    requires { Held words.old [] }
    ensures accepted { IfOk result (RoutesAre s.now.situation file.now words.new) }
    ensures refused { IfErr result (RefusedWith s.now.situation file.now) }
{
    let mut over = Pairs::empty();
    put_over(s, &mut over);
    let station = Station {
        situation: s,
        over: &over,
    };
    station.read_lines(file, words)
}

// ---- the operation
// Answers in a station, as its contract says of each file that is read as that station, since the answer is defined of a file. It stays a function of its own, so
// that its tables are not on the stack beside the reader's. The route file and the table come as C has them.
#[inline(never)]
#[tactic(auto, using(crate::proofs::Answered::ways_out))]
fn of_station(s: &SoundSituation, routes: &[u8], table: &mut [u8]) -> Result<usize, Refusal>
    ensures answer { (file : List ℕ) → reading_answer file ≡ Ok s.now.situation → result ≡ routes_answer file routes.now (length table.old) }
    ensures after { (file : List ℕ) → reading_answer file ≡ Ok s.now.situation → table.new ≡ after_routes file routes.now table.old }
{
    let mut words = RouteWords::empty();
    let n = read_routes(routes, s, &mut words)?;
    let bytes = n * n;
    if table.len() < bytes {
        return Err(Refusal {
            cause: Cause::BufferShort,
            line: 0,
        });
    }
    words.fill(n, &mut table[..bytes]);
    Ok(bytes)
}

// Stores the table of conflicts of a route file in the station of a station file at the start of a lent table, and returns how many bytes it has, or the refusal.
#[tactic(auto, using(crate::proofs::Answered::ways_out))]
pub fn conflicts(station: &[u8], routes: &[u8], table: &mut [u8]) -> Result<usize, Refusal>
    ensures answer { result ≡ routes_answer station.now routes.now (length table.old) }
    ensures after { table.new ≡ after_routes station.now routes.now table.old }
{
    let s = SoundSituation::read(station)?;
    of_station(&s, routes, table)
}
