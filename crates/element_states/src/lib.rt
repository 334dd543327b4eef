// A situation that can be judged, with the states of its elements collected once; the open ones among them: how many there are, which is the m-th,
// and in which line it stands; and the refusal of a call that goes by them.
#![tactic(auto)]

ghost use Rattle.std.specs.Prelude.{Result, Ok, Err, MatchOption, IfOk, IfErr, IsTrue, ◌↔◌, ◌≢◌, ◌≡◌, ◌+◌, ◌≤◌, length, take};
ghost use Rattle.meaning.specs.Station.{file_states};
ghost use Rattle.meaning.specs.Settings.{open_count};
ghost use Rattle.meaning.specs.declared.Situation.{Situation as Filed};
ghost use Rattle.meaning.specs.File.{Limits, reading_answer, unless_refused};
ghost use Rattle.meaning.specs.Refusals.{number_of};
ghost use Rattle.meaning.specs.Operations.{open_element, call_refusal};
ghost use Rattle.element_states.specs.Collected.{Collected};
ghost use Rattle.element_states.specs.Sound.{Sound};

use meaning::{Cause, ElementNumber, Header, MAX_ELEMENTS, MAX_OPEN, Refusal, Situation};

// A situation that can be judged, and the states of its elements. The states lie together, so that loops read them fast; settings and the desk take
// them as a list.
#[derive(Drop)]
pub struct SoundSituation {
    pub situation: Situation,
    pub states: [u8; MAX_ELEMENTS],
    pub ghost sound: { Sound situation },
    pub ghost collected: { Collected situation states },
}

// Returns the states of all elements, those past the count too.
pub fn file_states(s: Situation) -> [u8; MAX_ELEMENTS]
    ensures { Collected s result }
{
    let mut states = [0u8; MAX_ELEMENTS];
    for k in 0..MAX_ELEMENTS {
        states[k] = s.elements[k].state;
    }
    states
}

// Returns how many of the states are open.
pub fn open_count(states: &[u8]) -> usize
    ensures { result ≡ open_count states.now }
{
    states.iter().filter(|state| **state == 0).count()
}

// Returns the m-th open element, if there are so many. m counts from 1, here and below, as the numbers of elements do.
// `as` keeps a place, which is below 256.
pub fn open_element(states: &[u8], m: usize) -> Option<ElementNumber>
    requires { (length states.now ≤ 256) × (1 ≤ m) }
    ensures { MatchOption result (open_element m states.now ≡ 0) (λ e. (e.0 ≡ open_element m states.now) × (1 ≤ e.0)) }
{
    let (k, _) = states
        .iter()
        .enumerate()
        .filter(|(_, state)| **state == 0)
        .nth(m - 1)?;
    Some(ElementNumber(k as u16 + 1))
}

// Returns the line of element `e`: elements come after the first line and the P lines.
fn element_line(plain: u16, e: ElementNumber) -> u16
    requires { (plain ≤ 1024) × (e.0 ≤ 256) }
    ensures { result ≡ 1 + plain + e.0 }
{
    1 + plain + e.0
}

// Returns the refusal of a call, if it is refused: `cause`, on the line of the m-th open element; then 9, where the lent memory is too short.
// The states of the elements are at the start of the list.
pub fn call_refusal(
    header: Header,
    states: &[u8],
    cause: Cause,
    m: usize,
    short: bool,
) -> Result<(), Refusal>
    requires { Limits header × (header.elements ≤ length states.now) × (1 ≤ m) }
    ensures { (s : Filed) → s.header ≡ header → take s.header.elements states.now ≡ file_states s
        → result ≡ unless_refused (call_refusal s (number_of cause) m short) tt }
{
    if let Some(e) = open_element(&states[..usize::from(header.elements)], m) {
        return Err(Refusal {
            cause,
            line: element_line(header.plain, e),
        });
    }
    if short {
        return Err(Refusal {
            cause: Cause::BufferShort,
            line: 0,
        });
    }
    Ok(())
}

impl SoundSituation {
    // Reads a file: returns its situation, or the file's refusal.
    pub fn read(file: &[u8]) -> Result<SoundSituation, Refusal>
        ensures accepted { IfOk result (λ s. reading_answer file.now ≡ Ok s.situation) }
        ensures refused { IfErr result (λ q. reading_answer file.now ≡ Err q) }
    {
        let situation = reader::read(file)?;
        let states = file_states(situation);
        Ok(SoundSituation { situation, states })
    }

    // Returns the states of the situation's elements, up to their count.
    pub fn elements(&self) -> &[u8]
        ensures are { result.now ≡ file_states self.now.situation }
        ensures few { length result.now ≤ 256 }
    {
        &self.states[..usize::from(self.situation.header.elements)]
    }

    // Returns how many elements are open.
    pub fn open_count(&self) -> usize
        ensures { result ≡ open_count (file_states self.now.situation) }
    {
        open_count(self.elements())
    }

    // Returns the m-th open element, if there are so many.
    pub fn open_element(&self, m: usize) -> Option<ElementNumber>
        requires { 1 ≤ m }
        ensures { MatchOption result (open_element m (file_states self.now.situation) ≡ 0)
            (λ e. (e.0 ≡ open_element m (file_states self.now.situation)) × (1 ≤ e.0)) }
    {
        open_element(self.elements(), m)
    }

    // Says whether some element is open.
    pub fn is_open(&self) -> bool
        ensures { IsTrue result ↔ (open_element 1 (file_states self.now.situation) ≢ 0) }
    {
        self.open_element(1).is_some()
    }

    // Returns the refusal of a call, if it is refused: `cause`, on the line of the m-th open element; then 9, where the lent memory is too short.
    #[tactic(auto, using(crate::proofs::States::first_states))]
    pub fn call(&self, cause: Cause, m: usize, short: bool) -> Result<(), Refusal>
        requires { 1 ≤ m }
        ensures { result ≡ unless_refused (call_refusal self.now.situation (number_of cause) m short) tt }
    {
        call_refusal(self.situation.header, &self.states, cause, m, short)
    }

    // Returns the refusal of a question that takes no open element: 10, then 9.
    pub fn verdict_call(&self, short: bool) -> Result<(), Refusal>
        ensures { result ≡ unless_refused (call_refusal self.now.situation 10 1 short) tt }
    {
        self.call(Cause::ElementOpen, 1, short)
    }

    // Returns the refusal of a question over the settings of at most twelve open elements: 11, then 9.
    pub fn settings_call(&self, short: bool) -> Result<(), Refusal>
        ensures { result ≡ unless_refused (call_refusal self.now.situation 11 13 short) tt }
    {
        self.call(Cause::TooManyOpen, MAX_OPEN + 1, short)
    }
}
