// The settings question of a situation; the setting at a place of 01's order, written out; and the place of a frame.
#![tactic(auto)]

ghost use Rattle.std.specs.Prelude.{◌≡◌, ℕ, ◌++◌, ◌+◌, ◌≤◌, ◌<◌, ◌^◌, ◌%◌, length, get_or, drop};
ghost use Rattle.meaning.specs.Station.{file_states};
ghost use Rattle.meaning.specs.Settings.{open_count};
ghost use Rattle.meaning.specs.Frames.{halved_xor};
ghost use Rattle.setting_order.specs.Doubled.{Doubled};
ghost use Rattle.setting_order.specs.Order.{setting_at};

use element_states::SoundSituation;
use meaning::MAX_OPEN;

// How many places the settings of the most open elements have.
pub const PLACES: usize = 1 << MAX_OPEN;

// The settings question of a situation: at most twelve of its elements are open.
#[derive(Clone, Copy)]
pub struct Question<'a> {
    pub s: &'a SoundSituation,
    pub ghost few: { open_count (file_states s.now.situation) ≤ 12 },
}

// Writes the setting at place `x` of the file states, `opens` of which are open, at the start of `out`. Of the `p` places that are left, an
// open element is at 1 in the first half and at 2 in the second.
pub fn put_setting(states: &[u8], opens: usize, x: usize, out: &mut [u8])
    requires room { length states.now ≤ length out.old }
    requires place { (opens ≡ open_count states.now) × (opens ≤ 12) × (x < 2 ^ opens) }
    ensures { out.new ≡ setting_at states.now x ++ drop (length states.now) out.old }
{
    let mut p: usize = 1 << opens;
    let mut place = x;
    for (i, state) in states.iter().enumerate() {
        if *state == 0 {
            p /= 2;
            if place < p {
                out[i] = 1;
            } else {
                out[i] = 2;
                place -= p;
            }
        } else {
            out[i] = *state;
        }
    }
}

// Returns the place of frame `n`, where there are so many frames: its Gray code.
#[tactic(auto, unfolding(meaning::specs::Frames::halved_xor))]
pub fn gray_code(n: usize) -> usize
    ensures { result ≡ halved_xor n }
{
    n ^ (n >> 1)
}

// Returns the place of frame `n` of `opens` open elements.
// `as` keeps what is left of the number, which is below 4,096.
pub fn frame_place(opens: usize, n: u64) -> usize
    requires { opens ≤ 12 }
    ensures { result ≡ halved_xor (n % 2 ^ opens) }
{
    let round: u64 = 1 << opens;
    let m = n % round;
    gray_code(m as usize)
}

// Doubles a table that has a value for each of `half` places: one open element more stands in front of those that it is for. It is at 1 in
// the first half of the places, where `one` gives the value, and at 2 in the second, where `two` does.
pub fn double<T: Copy, F: Fn(T) -> T, G: Fn(T) -> T, const N: usize>(
    table: &mut [T; N],
    half: usize,
    one: F,
    two: G,
)
    requires half_in_bounds { half + half ≤ N }
    requires may_call { (x : ℕ) (d : T) → x < half → F.pre one (get_or table.old x d) × G.pre two (get_or table.old x d) }
    ensures { Doubled (F.post one) (G.post two) half table.old table.new }
{
    for x in 0..half {
        let value = table[x];
        table[half + x] = two(value);
        table[x] = one(value);
    }
}
