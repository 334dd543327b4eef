// Placing trains: train sections drawn from a 64-bit paper number.
#![tactic(auto)]

ghost use Rattle.std.specs.Prelude.{◌≡◌, ◌≤◌, ◌++◌, length, drop};
ghost use Rattle.session_meaning.specs.Placement.{grown, draw, free_from, gives_way, state_after, placement, placement_answer, after_placement};
ghost use Rattle.reach.specs.Reach.{memb};
ghost use Rattle.placement.specs.Placing.{Asked, IsNumbered};

use meaning::{Cause, MAX_SECTIONS, MAX_TRAINS, Refusal, Section};
use reach::Reach;

// `as` keeps both: a constant calls no function.
const SECTIONS: u16 = MAX_SECTIONS as u16;

const TRAINS: u16 = MAX_TRAINS as u16;

const GROWTH: u64 = 0x9E3779B97F4A7C15;

// Returns the next state: "the carry out of 64 bits is dropped".
fn grow(state: u64) -> u64
    ensures { result ≡ grown state }
{
    std::num::wrapping_add_u64(state, GROWTH)
}

// Returns the section drawn: the upper 32 bits of the state, scaled to the number of sections.
// `as` keeps the scaled number, which is at most that of the sections.
#[tactic(auto, using(session_meaning::proofs::Placement::product))]
fn draw(state: u64, sections: u16) -> Section
    ensures { result.0 ≡ draw state sections }
{
    Section(((state >> 32) * u64::from(sections) >> 32) as u16 + 1)
}

// Returns the lowest section from `from` to `sections` that is not taken, if there is one. `sections` is at most 512, here and below: `place` has tested it.
#[tactic(auto, using(crate::proofs::Searching::passed_start, crate::proofs::Searching::passed_more, crate::proofs::Searching::free_none))]
fn free_from(taken: Reach, from: Section, sections: u16) -> Option<Section>
    requires { (1 ≤ from.0) × (sections ≤ 512) }
    ensures { IsNumbered result (free_from sections (memb taken.words) from.0) }
{
    for k in from.0..=sections {
        if !taken.has(Section(k)) {
            return Some(Section(k));
        }
    }
    None
}

// Returns the section itself where it is not taken, else the next free one above it, with section 1 after the last.
fn give_way(taken: Reach, section: Section, sections: u16) -> Option<Section>
    requires { (1 ≤ section.0) × (sections ≤ 512) }
    ensures { IsNumbered result (gives_way sections (memb taken.words) section.0) }
{
    free_from(taken, section, sections).or_else(|| free_from(taken, Section(1), sections))
}

// Fills the list, one draw a train, and returns the last state.
fn fill(paper: u64, sections: u16, trains: u16, list: &mut [u16]) -> u64
    requires { Asked sections trains (length list.old) }
    ensures state { result ≡ state_after paper trains }
    ensures filled { list.new ≡ placement paper sections trains ++ drop trains list.old }
{
    let mut taken = Reach::empty();
    let mut state = paper;
    let places = &mut list[..usize::from(trains)];
    for place in places.iter_mut() {
        state = grow(state);
        let section = give_way(taken, draw(state, sections), sections).unwrap();
        *place = section.0;
        taken = taken.with(section);
    }
    state
}

// Places the trains of a paper number: stores their sections at the start of the list, and returns the state after the last draw, or the refusal.
// The numbers and the list come as C has them.
#[tactic(auto, unfolding(session_meaning::specs::Placement::placement_answer, session_meaning::specs::Placement::after_placement, session_meaning::specs::Placement::placement_refusal))]
pub fn place(paper: u64, sections: u16, trains: u16, list: &mut [u16]) -> Result<u64, Refusal>
    ensures answer { result ≡ placement_answer paper sections trains (length list.old) }
    ensures after { list.new ≡ after_placement paper sections trains list.old }
{
    let unplaceable = (sections < 1)
        | (SECTIONS < sections)
        | (sections < trains)
        | (TRAINS < trains);
    let short = list.len() < usize::from(trains);
    if unplaceable {
        return Err(Refusal {
            cause: Cause::PlacementRange,
            line: 0,
        });
    }
    if short {
        return Err(Refusal {
            cause: Cause::BufferShort,
            line: 0,
        });
    }
    Ok(fill(paper, sections, trains, list))
}
