// Can it be saved at all? Whether some setting of the open elements is safe. Turnouts alone are tried, with all open signals at stop.
#![tactic(auto)]

ghost use Rattle.std.specs.Prelude.{◌≡◌};
ghost use Rattle.meaning.specs.CanBeSafe.{can_be_safe_answer};
ghost use Rattle.meaning.specs.Stopped.{at_stop, AtStop};

use element_states::SoundSituation;
use meaning::{Element, Kind, Refusal};
use setting_order::Question;

// Returns the state of an element in the file, 2 where it is an open signal.
fn stop_state(kind: Kind, state: u8) -> u8
    ensures { result ≡ at_stop kind state state }
{
    match kind {
        Kind::Signal(_) => if state == 0 { 2 } else { state },
        Kind::Turnout(_) => state,
    }
}

// Returns the situation with every open signal at stop.
fn at_stop(s: &SoundSituation) -> SoundSituation
    ensures { AtStop s.now.situation result.situation }
{
    let mut situation = s.situation;
    for k in 0..usize::from(s.situation.header.elements) {
        let e = s.situation.elements[k];
        situation.elements[k] = Element {
            kind: e.kind,
            state: stop_state(e.kind, e.state),
        };
    }
    let states = element_states::file_states(situation);
    SoundSituation { situation, states }
}

// Says yes exactly when some setting of all the open elements is safe; or refuses.
pub fn can_be_safe(file: &[u8]) -> Result<bool, Refusal>
    ensures { result ≡ can_be_safe_answer file.now }
{
    let s = SoundSituation::read(file)?;
    let halted = at_stop(&s);
    halted.settings_call(false)?;
    Ok(settings::some_safe(Question { s: &halted }))
}
