// The proceed counts of the settings at all places: signal step and turnout step call each other down the element list.
#![tactic(auto)]

ghost use Rattle.std.specs.Prelude.{◌≡◌, ◌∷◌, ◌≤◌};
ghost use Rattle.meaning.specs.declared.Move.{Move as Pair};
ghost use Rattle.meaning.specs.declared.Situation.{Situation as Filed};
ghost use Rattle.meaning.specs.declared.Turnout.{Turnout as Points};
ghost use Rattle.meaning.specs.Station.{elements_of};
ghost use Rattle.meaning.specs.Settings.{open_count};
ghost use Rattle.element_states.specs.Collected.{states_of};
ghost use Rattle.proceed_counts.specs.Proceed.{Roomy, Opened, Counted, Counts};

use meaning::{Element, Kind};
use setting_order::PLACES;

// Adds to the table one element more, in front of those that the table is for, in its state of the file. Where it is open, it adds `more` in the first half of
// the places, where it is at 1. Returns how many places there are then. With no heap the table is an array, and `places` says how many of it are filled.
fn opened(state: u8, counts: &mut [u8; PLACES], places: usize, more: u8) -> usize
    requires { (more ≤ 1) × (state ≡ 0 → Roomy counts.old places) }
    ensures { Opened state more places counts.old result counts.new }
{
    if state != 0 {
        return places;
    }
    setting_order::double(counts, places, |n| n + more, |n| n);
    places * 2
}

// Makes the table of a signal in this file state and of the elements left behind it: where the signal is open, it adds one. Returns how many places there are.
// Document 01 names the form: two steps that call each other, so the two are not one function.
#[cycle(signal_step_turnout_step)]
fn signal_step(state: u8, rest: &[Element], counts: &mut [u8; PLACES]) -> usize
    requires { open_count (state ∷ states_of rest.now) ≤ 12 }
    ensures { (pair : Pair) → Counted (record { kind = Kind.Signal pair; state = state } ∷ rest.now) counts.old counts.new result }
{
    let places = match rest {
        [] => {
            counts[0] = 0;
            1
        }
        [e, rest @ ..] => match e.kind {
            Kind::Signal(_) => signal_step(e.state, rest, counts),
            Kind::Turnout(_) => turnout_step(e.state, rest, counts),
        },
    };
    opened(state, counts, places, 1)
}

// Makes the table of a turnout and of the elements left behind it: open or not, a turnout never adds. Returns how many places there are.
#[cycle(signal_step_turnout_step)]
fn turnout_step(state: u8, rest: &[Element], counts: &mut [u8; PLACES]) -> usize
    requires { open_count (state ∷ states_of rest.now) ≤ 12 }
    ensures { (points : Points) → Counted (record { kind = Kind.Turnout points; state = state } ∷ rest.now) counts.old counts.new result }
{
    let places = match rest {
        [] => {
            counts[0] = 0;
            1
        }
        [e, rest @ ..] => match e.kind {
            Kind::Signal(_) => signal_step(e.state, rest, counts),
            Kind::Turnout(_) => turnout_step(e.state, rest, counts),
        },
    };
    opened(state, counts, places, 0)
}

// Returns the proceed count of the setting at every place, for the elements of a situation. The kind of the first says which of the two steps begins, as in the steps themselves.
pub fn counts_of(elements: &[Element]) -> [u8; PLACES]
    requires { open_count (states_of elements.now) ≤ 12 }
    ensures { (s : Filed) → elements.now ≡ elements_of s → Counts s result }
{
    let mut counts = [0u8; PLACES];
    match elements {
        [] => counts[0] = 0,
        [first, rest @ ..] => match first.kind {
            Kind::Signal(_) => {
                signal_step(first.state, rest, &mut counts);
            }
            Kind::Turnout(_) => {
                turnout_step(first.state, rest, &mut counts);
            }
        },
    }
    counts
}
