// The ready-made sets from which the settings of a situation are tried: what each train reaches by the fixed moves alone, and what the
// fixed moves reach from the target of each move that an open element can permit. With each set goes which of these moves leave it. And
// the masks that say which of these moves each open element leaves, and the fixed ones together: those that it does not forbid in its state.
#![tactic(auto)]

ghost use Rattle.std.specs.Prelude.{◌≡◌, true, false, List, [], ◌∷◌, ℕ, ◌≤◌, ◌<◌, length, get_or, Option, None, MatchOption};
ghost use Rattle.meaning.specs.declared.Move.{Move as Step};
ghost use Rattle.meaning.specs.declared.Situation.{Situation as Filed};
ghost use Rattle.meaning.specs.Station.{file_states, both_ways, permitted, forbids, moves};
ghost use Rattle.meaning.specs.Paths.{mem, reach};
ghost use Rattle.bits.specs.Bits.{bit};
ghost use Rattle.reach.specs.Reach.{memb};
ghost use Rattle.pairs.specs.Pairs.{Represents};
ghost use Rattle.search.specs.Search.{Sections};
ghost use Rattle.setting_tables.specs.OpenMoves.{AreOpenKinds, MovesOf, open_move_of, source, at, IsOpenMoves, AreInside};
ghost use Rattle.setting_tables.specs.Sections.{word_bit, Adds, Over};
ghost use Rattle.setting_tables.specs.Trains.{FixedShared};
ghost use Rattle.setting_tables.specs.Prepared.{PutBases, PutExits, PutClosures, WaysBack, Onward, Prepared};
ghost use Rattle.setting_tables.specs.Masks.{Indexed, Selects, Masked};

use bits::SetBits;
use element_states::SoundSituation;
use meaning::{Kind, MAX_OPEN, MAX_SECTIONS, MAX_TRAINS, Move, Section};
use moves::{InsideKind, Standing};
use pairs::{CountedPairs, Pair, Pairs};
use reach::Reach;
use search::{Search, Starts};
use setting_order::Question;

// ---- the open elements
// Returns the kinds of the open elements of a situation, in element order.
fn open_kinds(q: Question) -> [Option<Kind>; MAX_OPEN]
    ensures { AreOpenKinds q.entry.s.now.situation result }
{
    let mut kinds = [None; MAX_OPEN];
    for (i, e) in moves::elements(q.s)
        .iter()
        .filter(|e| e.state == 0)
        .enumerate()
    {
        kinds[i] = Some(e.kind);
    }
    kinds
}

// ---- the open moves
// The most open moves of one element: two for each of its states.
const EACH: usize = 4;

pub const OPEN_MOVES: usize = EACH * MAX_OPEN;

// Returns the open moves of an element: its moves at 1, then its moves at 2; no move where there is no element.
fn moves_of(kind: Option<Kind>) -> [Option<Move>; EACH]
    ensures { MovesOf kind result }
{
    let Some(kind) = kind else {
        return [None; EACH];
    };
    match kind {
        Kind::Signal(m) => [Some(m), None, None, None],
        Kind::Turnout(t) => [
            Some(Move {
                from: t.stem,
                to: t.straight,
            }),
            Some(Move {
                from: t.straight,
                to: t.stem,
            }),
            Some(Move {
                from: t.stem,
                to: t.diverted,
            }),
            Some(Move {
                from: t.diverted,
                to: t.stem,
            }),
        ],
    }
}

// The open moves of all open elements of a situation: a row for each element, in element order.
#[derive(Drop)]
pub struct OpenMoves {
    pub rows: [[Option<Move>; EACH]; MAX_OPEN],
    pub ghost inside: { AreInside rows },
}

impl OpenMoves {
    fn of(q: Question) -> OpenMoves
        ensures { IsOpenMoves q.entry.s.now.situation result.rows }
    {
        OpenMoves {
            rows: open_kinds(q).map(moves_of),
        }
    }

    // Returns open move `e`.
    fn at(&self, e: usize) -> Option<Move>
        requires { e < 48 }
        ensures { result ≡ at self.now.rows e }
    {
        self.rows[e / EACH][e % EACH]
    }
}

// ---- open moves by section
// For each section a word with bits of open moves, at its number; `some` are the sections whose word is not 0.
#[derive(Drop)]
pub struct BySection {
    pub words: [u64; MAX_SECTIONS + 1],
    pub some: Reach,
}

impl BySection {
    // Returns the table without a bit.
    pub fn empty() -> BySection
        ensures { (c e : ℕ) → word_bit result c e ≡ false }
    {
        BySection {
            words: [0; MAX_SECTIONS + 1],
            some: Reach::empty(),
        }
    }

    // Sets bit `e` in the words of the sections of a set.
    pub fn add(&mut self, set: Reach, e: usize)
        requires { e < 64 }
        ensures { Adds set.words e self.old self.new }
    {
        self.some = self.some.union(set);
        for i in 0..Reach::WORDS {
            for b in SetBits(set.words[i]) {
                self.words[i * Reach::BITS + b + 1] |= 1u64 << e;
            }
        }
    }

    // Joins the words of the sections of a set: those that are 0 are passed over.
    pub fn over(&self, set: Reach) -> u64
        ensures { Over self.now set.words result }
    {
        let mut bits: u64 = 0;
        for i in 0..Reach::WORDS {
            for b in SetBits(set.words[i] & self.some.words[i]) {
                bits |= self.words[i * Reach::BITS + b + 1];
            }
        }
        bits
    }
}

// Bit e of word a of `from` is set where open move e starts at section a, and of `to[b]` where it ends at section b.
// Two arrays: an array of pairs would bring together the two numbers of one section, which nothing asks for together (`along`).
#[derive(Drop)]
struct Ends {
    pub from: BySection,
    pub to: [u64; MAX_SECTIONS + 1],
}

impl Ends {
    // Returns the tables of no open move.
    fn empty() -> Ends
        ensures { (f : ℕ → Option Move) → Indexed f 0 result }
    {
        Ends {
            from: BySection::empty(),
            to: [0; MAX_SECTIONS + 1],
        }
    }

    // Notes all open moves, in place: a table of 8 KB that is returned is copied.
    fn note(&mut self, open_moves: &OpenMoves)
        requires { Indexed (at open_moves.now.rows) 0 self.old }
        ensures { Indexed (at open_moves.now.rows) 48 self.new }
    {
        for e in 0..OPEN_MOVES {
            if let Some(m) = open_moves.at(e) {
                self.from.words[usize::from(m.from.0)] |= 1u64 << e;
                self.from.some.insert(m.from);
                self.to[usize::from(m.to.0)] |= 1u64 << e;
            }
        }
    }

    // Returns the open moves that start in a set.
    fn leaving(&self, set: Reach) -> u64
        ensures { (f : ℕ → Option Move) → Indexed f 48 self.now → (e : ℕ) → e < 48 → bit result e ≡ memb set.words (source (f e)) }
    {
        self.from.over(set)
    }
}

// ---- the sets
// What the fixed moves reach from some sections, and the open moves that leave it: bit e for open move e.
#[derive(Clone, Copy)]
pub struct FixedReach {
    pub reach: Reach,
    pub exits: u64,
}

impl FixedReach {
    // A row that is not filled in yet.
    const NONE: FixedReach = FixedReach {
        reach: Reach {
            words: [0; Reach::WORDS],
        },
        exits: 0,
    };
}

// The sections that the trains reach by the fixed moves, and bit t of `affected` is set for each train, from 0, that an open move affects.
#[derive(Clone, Copy)]
pub struct AllTrains {
    pub reach: Reach,
    pub affected: u64,
}

// The tables from which the settings are tried: what each train reaches by the fixed moves, and what the fixed moves reach from the target of each open move. Bit e
// of `moves` is set where there is an open move e, and row d of `onward` has the exits of closure d but the ways back. The masks are made here too, where the tables of the open moves' sources and targets are.
#[derive(Drop)]
pub struct Tables {
    pub trains: AllTrains,
    pub bases: [FixedReach; MAX_TRAINS],
    pub moves: u64,
    pub closures: [FixedReach; OPEN_MOVES],
    pub onward: [u64; OPEN_MOVES],
    pub masks: Masks,
}

// Returns what a set of moves reaches from some sections. The memory of a search serves the next one too: none is cleared for each.
fn reached(search: &mut Search, starts: Starts, pairs: &Pairs) -> Reach
    ensures { (ms : List Step) → Represents pairs.now.rows ms → (c : ℕ) → memb result.words c ≡ mem c (reach ms starts.entry.sections.now) }
{
    search.run(pairs, starts).reach
}

// Puts what each train reaches into `bases`, and returns what all of them reach; None as soon as two of them meet. It is not taken into its caller, so that its
// search is off the stack when it returns; so it is with `put_closures`.
#[inline(never)]
fn put_bases(
    s: &SoundSituation,
    pairs: &Pairs,
    bases: &mut [FixedReach; MAX_TRAINS],
) -> Option<Reach>
    requires { Represents pairs.now.rows (moves s.now.situation (file_states s.now.situation)) }
    ensures { MatchOption result (FixedShared s.now.situation)
        (PutBases s.now.situation s.now.situation.header.trains bases.new) }
{
    let mut all = Reach::empty();
    let mut search = Search::new();
    for t in 0..usize::from(s.situation.header.trains) {
        let standing = Standing::from(s.situation.trains[t]);
        let sections = standing.as_slice();
        let reach = reached(&mut search, Starts { sections }, pairs);
        if reach.meets(all) {
            return None;
        }
        all = all.union(reach);
        bases[t] = FixedReach { reach, exits: 0 };
    }
    Some(all)
}

// Puts what the fixed moves reach beyond each open move into `closures`, and returns which open moves there are.
#[inline(never)]
fn put_closures(
    open_moves: &OpenMoves,
    pairs: &Pairs,
    closures: &mut [FixedReach; OPEN_MOVES],
) -> u64
    ensures { (s : Filed) → IsOpenMoves s open_moves.now.rows → Represents pairs.now.rows (moves s (file_states s)) → PutClosures s 48 closures.new result }
{
    let mut search = Search::new();
    let mut moves: u64 = 0;
    for e in 0..OPEN_MOVES {
        closures[e] = match open_moves.at(e) {
            Some(m) => {
                moves |= 1u64 << e;
                let sections = &[m.to.0];
                FixedReach {
                    reach: reached(&mut search, Starts { sections }, pairs),
                    exits: 0,
                }
            }
            None => FixedReach::NONE,
        };
    }
    moves
}

// Puts the exits into the first `n` rows of a table, and returns which of these rows have some.
fn put_exits<const N: usize>(ends: &Ends, n: usize, rows: &mut [FixedReach; N]) -> u64
    requires { (n ≤ N) × (n ≤ 64) }
    ensures { (f : ℕ → Option Move) → Indexed f 48 ends.now → PutExits f n rows.old rows.new result }
{
    let mut some: u64 = 0;
    for t in 0..n {
        let reach = rows[t].reach;
        let exits = ends.leaving(reach);
        rows[t] = FixedReach { reach, exits };
        if exits != 0 {
            some |= 1u64 << t;
        }
    }
    some
}

// Returns the exits of a row but the ways back, which end in its set and bring nothing more. `moves` are the open moves that there are.
fn row_onward(open_moves: &OpenMoves, moves: u64, row: FixedReach) -> u64
    requires below { (e : ℕ) → bit moves e ≡ true → e < 48 }
    ensures { WaysBack (at open_moves.now.rows) row.reach.words row.exits result }
{
    let mut exits = row.exits;
    for e in SetBits(row.exits & moves) {
        if let Some(m) = open_moves.at(e) {
            if row.reach.has(m.to) {
                exits &= !(1u64 << e);
            }
        }
    }
    exits
}

// Returns the exits of each closure but its ways back. In a dense net nearly all exits are ways back, and a train that follows them is led to the
// same open moves again and again.
fn onward(
    open_moves: &OpenMoves,
    moves: u64,
    closures: &[FixedReach; OPEN_MOVES],
) -> [u64; OPEN_MOVES]
    requires below { (e : ℕ) → bit moves e ≡ true → e < 48 }
    ensures { Onward (at open_moves.now.rows) closures.now 48 result }
{
    let mut rows = [0; OPEN_MOVES];
    for d in 0..OPEN_MOVES {
        rows[d] = row_onward(open_moves, moves, closures[d]);
    }
    rows
}

impl Tables {
    // The tables of a situation; None where two trains meet by the fixed moves alone, which is known before any open move is looked at.
    pub fn of(q: Question) -> Option<Tables>
        ensures { MatchOption result (FixedShared q.entry.s.now.situation) (Prepared q.entry.s.now.situation) }
    {
        // How many moves leave each section is asked by the verdict alone.
        let mut fixed = CountedPairs::empty();
        moves::fill(q.s, &mut fixed);
        let mut bases = [FixedReach::NONE; MAX_TRAINS];
        let reach = put_bases(q.s, &fixed.pairs, &mut bases)?;
        let open_moves = OpenMoves::of(q);
        let mut closures = [FixedReach::NONE; OPEN_MOVES];
        let moves = put_closures(&open_moves, &fixed.pairs, &mut closures);
        let mut ends = Ends::empty();
        ends.note(&open_moves);
        let affected = put_exits(&ends, usize::from(q.s.situation.header.trains), &mut bases);
        put_exits(&ends, OPEN_MOVES, &mut closures);
        Some(Tables {
            trains: AllTrains { reach, affected },
            bases,
            moves,
            onward: onward(&open_moves, moves, &closures),
            closures,
            masks: Masks::of(q, &open_moves, &ends),
        })
    }
}

// ---- the open moves that an element leaves
impl Ends {
    // Returns the open moves of a pair.
    fn along(&self, p: Pair) -> u64
        ensures { Selects self.now (permitted (record { from = p.from; to = p.to } ∷ [])) result }
    {
        self.from.words[usize::from(p.from.0)] & self.to[usize::from(p.to.0)]
    }

    // Returns the open moves of a pair, both ways.
    fn between(&self, p: Pair) -> u64
        ensures { Selects self.now (permitted (both_ways p.from p.to)) result }
    {
        self.along(p) | self.along(p.back())
    }

    // Returns the open moves that an element forbids in a state.
    #[tactic(auto, using(moves::proofs::Element::sections_inside))]
    fn forbidden_by(&self, e: InsideKind, state: u8) -> u64
        ensures { Selects self.now (forbids e.kind state) result }
    {
        match e.kind {
            Kind::Signal(m) => {
                if state == 1 {
                    return 0;
                }
                self.along(Pair::of(m))
            }
            Kind::Turnout(t) => {
                let first = self.between(Pair {
                    from: t.stem,
                    to: t.straight,
                });
                let second = self.between(Pair {
                    from: t.stem,
                    to: t.diverted,
                });
                if state == 1 {
                    return second & !first;
                }
                if state == 2 {
                    return first & !second;
                }
                first | second
            }
        }
    }
}

// The open moves that the elements leave: row q has those that the q-th open element leaves, at 1 and at 2, and `fixed` those that the fixed elements leave.
#[derive(Drop)]
pub struct Masks {
    pub opens: [[u64; 2]; MAX_OPEN],
    pub fixed: u64,
}

impl Masks {
    fn of(q: Question, open_moves: &OpenMoves, ends: &Ends) -> Masks
        requires { IsOpenMoves q.s.now.situation open_moves.now.rows × Indexed (at open_moves.now.rows) 48 ends.now }
        ensures { Masked q.entry.s.now.situation result }
    {
        let mut opens = [[0u64; 2]; MAX_OPEN];
        for (i, kind) in open_kinds(q).iter().enumerate() {
            if let Some(kind) = *kind {
                let inside = InsideKind { kind };
                opens[i] = [!ends.forbidden_by(inside, 1), !ends.forbidden_by(inside, 2)];
            }
        }
        let mut blocked: u64 = 0;
        for e in moves::elements(q.s) {
            if e.state != 0 {
                blocked |= ends.forbidden_by(InsideKind { kind: e.kind }, e.state);
            }
        }
        // The open moves are those of the open elements.
        let all = (1u64 << (q.s.open_count() * EACH)) - 1;
        Masks {
            opens,
            fixed: all & !blocked,
        }
    }
}
