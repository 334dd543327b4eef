// The verdict of a file: trains i and j, the section where they meet, the two counts, and a path of each train in the lent lists; or a refusal.
#![tactic(auto)]

ghost use Rattle.std.specs.Prelude.{Ok, ◌≤◌, length};
ghost use Rattle.meaning.specs.Station.{file_states, moves};
ghost use Rattle.meaning.specs.Verdict.{verdict};
ghost use Rattle.meaning.specs.Operations.{Answers, VerdictIs};
ghost use Rattle.pairs.specs.Pairs.{Represents};
ghost use Rattle.moves.specs.Standing.{places_of};
ghost use Rattle.search.specs.Search.{Sections, Searched};
ghost use Rattle.verdict.specs.Judged.{VerdictOf};

use element_states::SoundSituation;
use meaning::{
    Counts, MAX_TRAINS, Meeting, PathLengths, Refusal, ShownVerdict, Train, TrainNumber,
};
use moves::Standing;
use pairs::{CountedPairs, Pairs};
use reach::Reach;
use search::{Found, Predecessors, Search, Starts};

// Returns the reach of a train, searched from all its sections at once.
fn search_train(train: Train, pairs: &Pairs, search: &mut Search) -> Found
    requires { Sections (length (places_of train)) (places_of train) }
    ensures { Searched pairs.now.rows (places_of train) result.reach.words search.new.queue search.new.before.of result.count }
{
    let standing = Standing::from(train);
    search.run(
        pairs,
        Starts {
            sections: standing.as_slice(),
        },
    )
}

// Returns the verdict, and writes the paths of a dangerous one to the lent lists. Train by train it searches the reach, counts its sections,
// compares it with the reaches of the earlier trains, and keeps it with the paths to its sections. The reaches kept share no section, so one list has
// the predecessors of them all, and their looks are those of their union, counted once at the end; a train that meets an earlier one adds its own
// looks. The two lists come as C hands them over, here and below.
// That the table has the situation's moves is required here and by a function of setting_tables: a set of pairs serves routes with other pairs, and
// a field with the situation would make it another type.
// `as` keeps the number of a train, which is at most 64.
#[tactic(auto, using(search::proofs::Laws::searched_count, search::proofs::Laws::searched_sections, crate::proofs::Turn::known_entries))]
fn decide(
    s: &SoundSituation,
    table: &CountedPairs,
    first: &mut [u16],
    second: &mut [u16],
) -> ShownVerdict
    requires represents { Represents table.now.pairs.rows (moves s.now.situation (file_states s.now.situation)) }
    requires room { (s.now.situation.header.sections ≤ length first.old) × (s.now.situation.header.sections ≤ length second.old) }
    ensures { Answers s.now.situation (file_states s.now.situation) (verdict s.now.situation (file_states s.now.situation))
        first.old second.old first.new second.new (Ok result) }
{
    let mut reaches = [Reach::empty(); MAX_TRAINS];
    let mut search = Search::new();
    let mut before = Predecessors::new();
    let mut earlier = Reach::empty();
    let mut entries: u32 = 0;
    let trains = usize::from(s.situation.header.trains);
    for (j, train) in s.situation.trains[..trains].iter().enumerate() {
        let found = search_train(*train, &table.pairs, &mut search);
        let reach = found.reach;
        entries += reach.size();
        if reach.meets(earlier) {
            let met = meeting::first_meeting(&reaches[..j], reach).unwrap();
            let t = met.train;
            let u = TrainNumber((j + 1) as u16);
            let k = met.section;
            let lengths = PathLengths {
                first: before.path_to(k, first),
                second: search.before.path_to(k, second),
            };
            let looks = earlier.total(&table.outdegree) + reach.total(&table.outdegree);
            return ShownVerdict::Dangerous(
                Meeting {
                    first: t,
                    second: u,
                    section: k,
                },
                Counts { entries, looks },
                lengths,
            );
        }
        reaches[j] = reach;
        before.keep(&search.queue[..found.count], &search.before);
        earlier = earlier.union(reach);
    }
    let looks = earlier.total(&table.outdegree);
    ShownVerdict::Safe(Counts { entries, looks })
}

// Returns the verdict of a situation; the lists are long enough for its paths. The table is lent and filled: a returned one may be copied, 34 KB.
fn judge(s: &SoundSituation, first: &mut [u16], second: &mut [u16]) -> ShownVerdict
    requires { (s.now.situation.header.sections ≤ length first.old) × (s.now.situation.header.sections ≤ length second.old) }
    ensures { Answers s.now.situation (file_states s.now.situation) (verdict s.now.situation (file_states s.now.situation))
        first.old second.old first.new second.new (Ok result) }
{
    let mut table = CountedPairs::empty();
    moves::fill(s, &mut table);
    decide(s, &table, first, second)
}

// Returns the verdict of a situation, or its refusal. "Then 10 or 11; then 9": an open element comes before a lent list that is too short.
#[tactic(auto, using(crate::proofs::Refusals::ways_out))]
pub fn of_situation(
    s: &SoundSituation,
    first: &mut [u16],
    second: &mut [u16],
) -> Result<ShownVerdict, Refusal>
    ensures { VerdictOf s.now.situation first.old second.old first.new second.new result }
{
    let n = usize::from(s.situation.header.sections);
    let short = (first.len() < n) | (second.len() < n);
    let call = s.verdict_call(short);
    call?;
    Ok(judge(s, first, second))
}

// Returns the verdict of a file, or its refusal.
#[tactic(auto, using(crate::proofs::Refusals::ways_out))]
pub fn verdict(file: &[u8], first: &mut [u16], second: &mut [u16]) -> Result<ShownVerdict, Refusal>
    ensures { VerdictIs file.now first.old second.old first.new second.new result }
{
    let s = SoundSituation::read(file)?;
    of_situation(&s, first, second)
}
