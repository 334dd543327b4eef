// The push-button desk: a start from a file, writes and reads by address, and the interrupt line. Every value of a desk has a meaning, also
// one that no start gave.
#![tactic(auto)]

ghost use Rattle.std.specs.Prelude.{◌≡◌, ◌+◌, ◌/◌, ◌<◌, ◌≤◌, false, true, length, MatchOption};
ghost use Rattle.meaning.specs.File.{reading};
ghost use Rattle.session_meaning.specs.Desk.{
  element_number,
  desk_states,
  settable,
  start_answer,
  written,
  write_answer,
  read_answer,
  interrupt_of,
};

use meaning::{Cause, MAX_ELEMENTS, Refusal};
use session_meaning::Desk;

// The addresses, of all numbers of 16 bits. C may give any number: an enum would be matched twice, by its `TryFrom` and by who asks.
const CONTROL: u16 = 0;

const STATUS: u16 = 1;

const LOW: u16 = 2;

const HIGH: u16 = 3;

const STATE: u16 = 4;

const COMMAND: u16 = 5;

// The commands, of all bytes. They are no enum, for the same reason.
const SET: u8 = 1;

const CLEAR: u8 = 2;

const NO_ADDRESS: Refusal = Refusal {
    cause: Cause::DeskAddress,
    line: 0,
};

// Returns the desk of a file, or the reader's refusal.
pub fn start(file: &[u8]) -> Result<Desk, Refusal>
    ensures { result ≡ start_answer (reading file.now) }
{
    let s = reader::read(file)?;
    let states = element_states::file_states(s);
    Ok(Desk {
        control: 0,
        status: 0,
        number_low: 0,
        number_high: 0,
        state: 0,
        elements: s.header.elements,
        file_state: states,
        element_state: states,
    })
}

// Returns the file's states of the elements: of all that there is room for, where the desk says that there are more.
fn filed_states(desk: &Desk) -> &[u8]
    ensures are { result.now ≡ desk_states desk.now }
    ensures few { length result.now ≤ 256 }
{
    &desk.file_state[..usize::from(desk.elements).min(MAX_ELEMENTS)]
}

// Returns the element number, low byte first.
fn number(desk: &Desk) -> u16
    ensures { result ≡ element_number desk.now.number_low desk.now.number_high }
{
    u16::from_le_bytes([desk.number_low, desk.number_high])
}

// Returns the place of the element that command 1 sets, if it can: the element was open in the file, and the state is 1 or 2.
fn set_place(desk: &Desk) -> Option<usize>
    ensures { MatchOption result (settable desk.now ≡ false)
        (λ k. (settable desk.now ≡ true) × (k + 1 ≡ element_number desk.now.number_low desk.now.number_high) × (k < 256)) }
{
    let k = usize::from(number(desk)).checked_sub(1)?;
    let open = *filed_states(desk).get(k)? == 0;
    let first = desk.state == 1;
    let second = desk.state == 2;
    if open & (first | second) {
        Some(k)
    } else {
        None
    }
}

// Carries out a command.
#[tactic(auto, unfolding(session_meaning::specs::Desk::written, session_meaning::specs::Desk::status_after, session_meaning::specs::Desk::states_after))]
fn command(desk: &mut Desk, command: u8)
    ensures { desk.new ≡ written desk.old 5 command }
{
    match command {
        SET => match set_place(desk) {
            Some(k) => {
                desk.element_state[k] = desk.state;
                desk.status = 1;
            }
            None => desk.status = desk.status % 2 + 2,
        },
        CLEAR => desk.status = 0,
        _ => {}
    }
}

// Writes a byte at an address. A refused write changes nothing.
#[tactic(auto, unfolding(session_meaning::specs::Desk::written))]
pub fn write(desk: &mut Desk, address: u16, byte: u8) -> Result<(), Refusal>
    ensures answer { result ≡ write_answer address }
    ensures after { desk.new ≡ written desk.old address byte }
{
    match address {
        CONTROL => desk.control = byte,
        STATUS => {}
        LOW => desk.number_low = byte,
        HIGH => desk.number_high = byte,
        STATE => desk.state = byte,
        COMMAND => command(desk, byte),
        _ => return Err(NO_ADDRESS),
    }
    Ok(())
}

// Returns the byte at an address.
#[tactic(auto, unfolding(session_meaning::specs::Desk::read_answer, session_meaning::specs::Desk::byte_at))]
pub fn read(desk: &Desk, address: u16) -> Result<u8, Refusal>
    ensures { result ≡ read_answer desk.now address }
{
    match address {
        CONTROL => Ok(desk.control),
        STATUS => Ok(desk.status % 4),
        LOW => Ok(desk.number_low),
        HIGH => Ok(desk.number_high),
        STATE => Ok(desk.state),
        COMMAND => Ok(0),
        _ => Err(NO_ADDRESS),
    }
}

// Tells whether the interrupt is high: enabled and pending.
#[tactic(auto, unfolding(session_meaning::specs::Desk::interrupt_of))]
pub fn interrupt(desk: &Desk) -> bool
    ensures { result ≡ interrupt_of desk.now }
{
    let enabled = desk.control % 2 == 1;
    let pending = desk.status % 2 == 1;
    enabled & pending
}
