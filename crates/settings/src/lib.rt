// The settings question: every setting of the open elements is tried, in the order of frames (02, item 11). Whether one is safe at all (02, item 6) is
// asked of blocks of settings, in 01's order.
#![tactic(auto)]

ghost use Rattle.std.specs.Prelude.{◌≡◌, ◌+◌, ◌<◌, length};
ghost use Rattle.meaning.specs.CanBeSafe.{can_be_safe};
ghost use Rattle.meaning.specs.Operations.{settings_answer, after_settings};
ghost use Rattle.setting_tables.specs.Prepared.{Prepared};
ghost use Rattle.settings.specs.Question.{question_answer, after_question};
ghost use Rattle.settings.specs.Tried.{Better, IsBest};

use element_states::SoundSituation;
use meaning::{Choice, Refusal};
use setting_order::Question;
use setting_safety::{Blocks, PLACES};
use setting_tables::Tables;

// What is kept of some safe settings: how many they are, the highest proceed count among them, and the lowest place that has it. `safe` is no flag: where no
// setting is safe, there is no `Best`.
#[derive(Clone, Copy)]
pub struct Best {
    pub safe: u16,
    pub proceed: u16,
    pub place: usize,
}

impl Best {
    // Adds one safe setting more.
    // A derived order would compare `safe` first, and take the higher place for the better.
    fn with(self, proceed: u16, place: usize) -> Best
        requires { self.safe < 65535 }
        ensures one_more { result.safe ≡ self.safe + 1 }
        ensures better { Better self proceed place → (result.proceed ≡ proceed) × (result.place ≡ place) }
        ensures kept { (Better self proceed place → ⊥) → (result.proceed ≡ self.proceed) × (result.place ≡ self.place) }
    {
        let safe = self.safe + 1;
        let higher = self.proceed < proceed;
        let earlier = self.proceed == proceed && place < self.place;
        if higher || earlier {
            Best {
                safe,
                proceed,
                place,
            }
        } else {
            Best { safe, ..self }
        }
    }
}

// Tries the settings in the order of frames, from the tables of the situation: `x` is the place of frame `n`. The frames of a block have the places of
// a block: at the first of them it is asked which are safe. It is not taken into its caller, where its tables would stand on the stack beside those that
// `Tables::of` needs; so it is with `any_safe`.
#[inline(never)]
fn try_places(q: Question, tables: &Tables) -> Option<Best>
    requires { Prepared q.s.now.situation tables.now }
    ensures { IsBest q.entry.s.now.situation result }
{
    let blocks = Blocks::of(q, tables);
    let counts = proceed_counts::counts_of(moves::elements(q.s));
    let places: usize = 1 << q.s.open_count();
    let mut best: Option<Best> = None;
    let mut safe: u64 = 0;
    for n in 0..places {
        let x = setting_order::gray_code(n);
        if n % PLACES == 0 {
            safe = blocks.safe(x / PLACES, tables);
        }
        if (safe >> (x % PLACES)) & 1 == 1 {
            let proceed = u16::from(counts[x]);
            best = Some(match best {
                None => Best {
                    safe: 1,
                    proceed,
                    place: x,
                },
                Some(b) => b.with(proceed, x),
            });
        }
    }
    best
}

// Tells whether some setting is safe, from the tables of the situation: asks one block after another, in 01's order.
#[inline(never)]
fn any_safe(q: Question, tables: &Tables) -> bool
    requires { Prepared q.s.now.situation tables.now }
    ensures { result ≡ can_be_safe q.entry.s.now.situation }
{
    let blocks = Blocks::of(q, tables);
    (0..blocks.count).any(|z| blocks.safe(z, tables) != 0)
}

// Returns the best of the safe settings. Where two trains meet by the fixed moves alone, no setting is safe: none is tried.
pub fn try_settings(q: Question) -> Option<Best>
    ensures { IsBest q.entry.s.now.situation result }
{
    let tables = Tables::of(q)?;
    try_places(q, &tables)
}

// Tells whether some setting is safe. It is not taken into its caller, where its tables would stand on the stack beside those of the reader.
#[inline(never)]
pub fn some_safe(q: Question) -> bool
    ensures { result ≡ can_be_safe q.entry.s.now.situation }
{
    match Tables::of(q) {
        None => false,
        Some(tables) => any_safe(q, &tables),
    }
}

// Answers the settings question for a situation, and writes the chosen setting at the start of the buffer.
pub fn of_situation(s: &SoundSituation, buffer: &mut [u8]) -> Result<Option<Choice>, Refusal>
    ensures answer { result ≡ question_answer s.now.situation (length buffer.old) }
    ensures after { buffer.new ≡ after_question s.now.situation buffer.old }
{
    let states = s.elements();
    s.settings_call(buffer.len() < states.len())?;
    match try_settings(Question { s }) {
        None => Ok(None),
        Some(best) => {
            setting_order::put_setting(states, s.open_count(), best.place, buffer);
            Ok(Some(Choice {
                safe: best.safe,
                proceed: best.proceed,
            }))
        }
    }
}

// The number of safe settings and the proceed count of the chosen one, which is written at the start of the buffer; or a refusal.
// The file and the buffer come as C hands them over.
pub fn settings(file: &[u8], buffer: &mut [u8]) -> Result<Option<Choice>, Refusal>
    ensures answer { result ≡ settings_answer file.now (length buffer.old) }
    ensures after { buffer.new ≡ after_settings file.now buffer.old }
{
    let s = SoundSituation::read(file)?;
    of_situation(&s, buffer)
}
