// A frame of the walk through all settings, in which one open element changes from each to the next.
#![tactic(auto)]

ghost use Rattle.std.specs.Prelude.{◌≡◌, length};
ghost use Rattle.meaning.specs.File.{unless_refused};
ghost use Rattle.meaning.specs.Operations.{settings_refusal, after_frame};

use element_states::SoundSituation;
use meaning::Refusal;

// Writes frame `n`, counted from 0, as a setting at the start of the buffer.
pub fn frame(file: &[u8], n: u64, buffer: &mut [u8]) -> Result<(), Refusal>
    ensures refusal { result ≡ unless_refused (settings_refusal file.now (length buffer.old)) tt }
    ensures after { buffer.new ≡ after_frame file.now n buffer.old }
{
    let s = SoundSituation::read(file)?;
    let states = s.elements();
    s.settings_call(buffer.len() < states.len())?;
    let opens = s.open_count();
    let place = setting_order::frame_place(opens, n);
    setting_order::put_setting(states, opens, place, buffer);
    Ok(())
}
