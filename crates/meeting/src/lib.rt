// The search for the first earlier train whose reach shares a section with a given one. Train i has its reach at place i - 1 of a list.
#![tactic(auto)]

ghost use Rattle.std.specs.Prelude.{◌≤◌, length};
ghost use Rattle.meeting.specs.Meeting.{FirstMeeting};

use meaning::{Section, TrainNumber};
use reach::Reach;

// An earlier train, and the lowest section that its reach shares.
#[derive(Clone, Copy)]
pub struct EarlierMeeting {
    pub train: TrainNumber,
    pub section: Section,
}

// Returns the first train whose reach shares a section with `r`, and the lowest section shared.
// Document 01 names the form: a nested search, left by a label.
// `as` keeps a train, which is at most 64, a section, and a place: `usize` has no `From` of 32 bits.
pub fn first_meeting(reaches: &[Reach], r: Reach) -> Option<EarlierMeeting>
    requires { length reaches.now ≤ 64 }
    ensures { FirstMeeting reaches.now r.words result }
{
    let mut met = None;
    'trains: for (i, reach) in reaches.iter().enumerate() {
        for k in 0..Reach::WORDS {
            let both = reach.words[k] & r.words[k];
            if both != 0 {
                let section = k * Reach::BITS + both.trailing_zeros() as usize + 1;
                met = Some(EarlierMeeting {
                    train: TrainNumber((i + 1) as u16),
                    section: Section(section as u16),
                });
                break 'trains;
            }
        }
    }
    met
}
