// The operations open to callers, for C: include/judge.h declares them. None asks anything of its caller, and each states its result and
// the later content of all lent memory.
// C hands over each number and each list by itself, so that files, buffers, lists and numbers are parameters of their own.
#![tactic(auto)]

ghost use Rattle.std.specs.Prelude.{◌≡◌, ◌≤◌, ℕ, Result, cond, length, take};
ghost use Rattle.meaning.specs.declared.Letter.TheVariants as letter;
ghost use Rattle.meaning.specs.declared.ShownVerdict.{ShownVerdict};
ghost use Rattle.meaning.specs.declared.Refusal.{Refusal};
ghost use Rattle.meaning.specs.declared.Output.{Output};
ghost use Rattle.meaning.specs.File.{reading, writing_answer, after_writing, up_to_counts};
ghost use Rattle.meaning.specs.Operations.{
  VerdictIs,
  settings_refusal,
  settings_answer,
  after_settings,
  after_frame,
};
ghost use Rattle.meaning.specs.Key.{KeyIs};
ghost use Rattle.session_meaning.specs.Desk.{start_answer, written, write_answer, read_answer, interrupt_of};
ghost use Rattle.session_meaning.specs.Placement.{placement_answer, after_placement};
ghost use Rattle.meaning.specs.Drawing.{drawing_answer};
ghost use Rattle.session_meaning.specs.Answers.{standing_answer, after_standing};
ghost use Rattle.route_meaning.specs.Routes.{routes_answer, after_routes};
ghost use Rattle.session_meaning.specs.Report.{report_answer, after_report};
ghost use Rattle.meaning.specs.CanBeSafe.{can_be_safe_answer};
ghost use Rattle.file_meaning.specs.Converter.{conversion_answer, after_conversion};
ghost use Rattle.c_layout.specs.Flat.{
  no_refusal,
  flat_refusal,
  flat_reading,
  situation_from_c,
  flat_verdict,
  flat_reply,
  flat_output,
  flat_placed,
  flat_filled,
  flat_shorter,
  flat_start,
  flat_desk,
  flat_desk_byte,
  flat_yes_no,
};
ghost use Rattle.demands.specs.Demand1.{Demand1Read, Demand1Write};
ghost use Rattle.demands.specs.OfVerdict.{VerdictStatement, Demand2, Item2Verdict, Item13Verdict};
ghost use Rattle.demands.specs.OfSettings.{SettingsStatement, Demand3, Item2Settings, Item13Settings};
ghost use Rattle.demands.specs.Demand2.{Demand2Read, Demand2Write};
ghost use Rattle.demands.specs.Item02.{Item2Read, Item2Write};
ghost use Rattle.demands.specs.Item03.{Item3Read};
ghost use Rattle.demands.specs.Keys.{Demand1Key, Prints};
ghost use Rattle.demands.specs.Others.{DemandShorter};
ghost use Rattle.demands.specs.Item10.{Item10Start, Item10Write, Item10Read, Item10Interrupt};
ghost use Rattle.demands.specs.Item14.{Item14};
ghost use Rattle.demands.specs.Item01.{Item1};
ghost use Rattle.demands.specs.Item08.{Item8};
ghost use Rattle.demands.specs.Item07.{Item7};
ghost use Rattle.demands.specs.Item11.{Item11};
ghost use Rattle.demands.specs.Item09.{Item9};
ghost use Rattle.demands.specs.Item06.{Item6};
ghost use Rattle.demands.specs.Item05.{Item5};

use c_layout::{
    FlatDeskAnswer, FlatDeskByte, FlatFilled, FlatOutput, FlatPart, FlatPlaced, FlatReading,
    FlatRefusal, FlatReply, FlatSituation, FlatVerdict, FlatYesNo,
};
use meaning::Situation;
use session_meaning::{Desk, Mark};

// Reads a file: returns its situation as values, or its refusal.
#[unsafe(no_mangle)]
pub extern "C" fn judge_read(file: &[u8]) -> FlatReading
    ensures answer { result ≡ flat_reading (reading file.now) }
    ensures demand1 { Demand1Read file.now result }
    ensures demand2 { Demand2Read file.now result }
    ensures item2 { Item2Read file.now result }
    ensures item3 { Item3Read file.now result }
{
    // `into` would copy the situation, beside the reader's stack.
    FlatReading::from(reader::read(file))
}

// Writes the file of a situation to the start of the lent buffer, and returns how many bytes it has and how many subtractions their digits took.
#[unsafe(no_mangle)]
pub extern "C" fn judge_write(situation: FlatSituation, buffer: &mut [u8]) -> FlatOutput
    ensures answer { result ≡ flat_output (writing_answer (situation_from_c situation) (length buffer.old)) }
    ensures after { buffer.new ≡ after_writing (situation_from_c situation) buffer.old }
    ensures demand1 { Demand1Write situation buffer.old buffer.new result }
    ensures demand2 { Demand2Write situation buffer.old buffer.new result.refusal }
    ensures demand_counts { (other : FlatSituation) → up_to_counts (situation_from_c other) ≡ up_to_counts (situation_from_c situation)
        → Demand1Write other buffer.old buffer.new result }
    ensures item2 { Item2Write situation buffer.old buffer.new result.refusal }
{
    writer::write(Situation::from(&situation), buffer).into()
}

// Returns the verdict of a file, and writes the two paths of a dangerous one to the lent lists.
#[unsafe(no_mangle)]
pub extern "C" fn judge_verdict(file: &[u8], first: &mut [u16], second: &mut [u16]) -> FlatVerdict
    ensures answer { (v : Result ShownVerdict Refusal)
        × VerdictIs file.now first.old second.old first.new second.new v
        × (result ≡ flat_verdict v) }
    ensures demand1 { VerdictStatement file.now first.old second.old first.new second.new result }
    ensures demand2 { Demand2 file.now first.old second.old first.new second.new result }
    ensures item2 { Item2Verdict file.now result }
    ensures item13 { Item13Verdict file.now first.old second.old first.new second.new result }
{
    verdict::verdict(file, first, second).into()
}

// Answers the settings question of a file, and writes the chosen setting to the start of the lent buffer, a byte for each element.
#[unsafe(no_mangle)]
pub extern "C" fn judge_settings(file: &[u8], buffer: &mut [u8]) -> FlatReply
    ensures answer { result ≡ flat_reply (settings_answer file.now (length buffer.old)) }
    ensures after { buffer.new ≡ after_settings file.now buffer.old }
    ensures demand1 { SettingsStatement file.now buffer.old buffer.new result }
    ensures demand3 { Demand3 file.now buffer.old buffer.new result }
    ensures item2 { Item2Settings file.now result }
    ensures item13 { Item13Settings file.now buffer.old buffer.new result }
{
    settings::settings(file, buffer).into()
}

// Writes the key that the key program prints to the start of the lent buffer, and returns how many bytes it has and how many subtractions their digits
// took.
#[unsafe(no_mangle)]
pub extern "C" fn judge_key(file: &[u8], buffer: &mut [u8]) -> FlatOutput
    ensures answer { (k : Result Output Refusal) × KeyIs file.now buffer.old buffer.new k × (result ≡ flat_output k) }
    ensures demand1 { Demand1Key file.now buffer.old buffer.new result }
    ensures demand_key { 22550 ≤ length buffer.old → (result.refusal ≡ no_refusal) × Prints file.now buffer.old buffer.new result }
{
    answer_key::answer_key(file, buffer).into()
}

// Returns the shorter of two lent paths, the first where they are equally long. A result of an exported function holds no reference, so it says
// which list has the path, and how many of its first numbers are the path.
#[unsafe(no_mangle)]
pub extern "C" fn judge_shorter<'a>(
    first: &'a [u16],
    n: usize,
    second: &'a [u16],
    m: usize,
) -> FlatPart
    ensures answer { result ≡ flat_shorter (take n first.now) (take m second.now) }
    ensures demand_shorter { DemandShorter first.now n second.now m result }
{
    let length = shorter::shorter(first, n, second, m).len();
    let list = if length < shorter::path(first, n).len() {
        2
    } else {
        1
    };
    FlatPart { list, length }
}

// ---- the push-button desk
// Returns the desk of a file at its start, or the file's refusal. A desk is given and returned by value.
#[unsafe(no_mangle)]
pub extern "C" fn judge_desk_start(file: &[u8]) -> FlatDeskAnswer
    ensures answer { result ≡ flat_start (start_answer (reading file.now)) }
    ensures item10 { Item10Start file.now result }
{
    desk::start(file).into()
}

// Writes a byte at an address of a desk, and returns the desk after that.
#[unsafe(no_mangle)]
pub extern "C" fn judge_desk_write(mut desk: Desk, address: u16, byte: u8) -> FlatDeskAnswer
    ensures answer { result ≡ flat_desk (write_answer address) (written desk address byte) }
    ensures item10 { Item10Write desk address byte result }
{
    let refusal = desk::write(&mut desk, address, byte).into();
    FlatDeskAnswer { refusal, desk }
}

// Returns the byte at an address of a desk.
#[unsafe(no_mangle)]
pub extern "C" fn judge_desk_read(desk: Desk, address: u16) -> FlatDeskByte
    ensures answer { result ≡ flat_desk_byte (read_answer desk address) }
    ensures item10 { Item10Read desk address result }
{
    desk::read(&desk, address).into()
}

// Returns the state of a desk's interrupt line: 1 is high, 0 is low.
#[unsafe(no_mangle)]
pub extern "C" fn judge_desk_interrupt(desk: Desk) -> u16
    ensures answer { result ≡ cond (interrupt_of desk) 1 0 }
    ensures item10 { Item10Interrupt desk result }
{
    desk::interrupt(&desk).into()
}

// Places the trains of a paper number: writes their sections to the start of the lent list, and returns the state after the last draw.
#[unsafe(no_mangle)]
pub extern "C" fn judge_place(
    paper: u64,
    sections: u16,
    trains: u16,
    list: &mut [u16],
) -> FlatPlaced
    ensures answer { result ≡ flat_placed (placement_answer paper sections trains (length list.old)) }
    ensures after { list.new ≡ after_placement paper sections trains list.old }
    ensures item14 { Item14 paper sections trains list.old list.new result }
{
    placement::place(paper, sections, trains, list).into()
}

// Marks a drawing: `first` is drawn for train `first_train`, `second` for train `second_train`.
#[unsafe(no_mangle)]
pub extern "C" fn judge_drawing(
    file: &[u8],
    first_train: u16,
    second_train: u16,
    first: &[u16],
    second: &[u16],
) -> FlatYesNo
    ensures answer { result ≡ flat_yes_no (drawing_answer file.now first_train second_train first.now second.now) }
    ensures item1 { Item1 file.now first_train second_train first.now second.now result }
{
    drawing::drawing(file, first_train, second_train, first, second).into()
}

// Writes the standing answers of a log, as C lines, to the start of the lent buffer, and returns how many bytes they fill.
#[unsafe(no_mangle)]
pub extern "C" fn judge_standing_answers(log: &[u8], buffer: &mut [u8]) -> FlatFilled
    ensures answer { result ≡ flat_filled (standing_answer log.now (length buffer.old)) }
    ensures after { buffer.new ≡ after_standing log.now buffer.old }
    ensures item8 { Item8 log.now buffer.old buffer.new result }
{
    answers::standing_answers(log, buffer).into()
}

// Writes the conflicts of a route file's routes in a station to the start of the lent table, a byte for each ordered pair of routes, and returns how many
// bytes that are.
#[unsafe(no_mangle)]
pub extern "C" fn judge_routes(station: &[u8], routes: &[u8], table: &mut [u8]) -> FlatFilled
    ensures answer { result ≡ flat_filled (routes_answer station.now routes.now (length table.old)) }
    ensures after { table.new ≡ after_routes station.now routes.now table.old }
    ensures item7 { Item7 station.now routes.now table.old table.new result }
{
    routes::conflicts(station, routes, table).into()
}

// Writes frame `n` of the walk through all settings, in which one open element changes from each frame to the next, to the start of the lent buffer, a
// byte for each element.
#[unsafe(no_mangle)]
pub extern "C" fn judge_frame(file: &[u8], n: u64, buffer: &mut [u8]) -> FlatRefusal
    ensures answer { result ≡ flat_refusal (settings_refusal file.now (length buffer.old)) }
    ensures after { buffer.new ≡ after_frame file.now n buffer.old }
    ensures item11 { Item11 file.now n buffer.old buffer.new result }
{
    frame::frame(file, n, buffer).into()
}

// ---- the session report
// Writes the report of a session's mark records, M lines and a Z line, to the start of the lent buffer, and returns how many bytes it fills.
#[unsafe(no_mangle)]
pub extern "C" fn judge_report(marks: &[Mark], buffer: &mut [u8]) -> FlatFilled
    ensures answer { result ≡ flat_filled (report_answer marks.now (length buffer.old)) }
    ensures after { buffer.new ≡ after_report marks.now buffer.old }
    ensures item9 { Item9 marks.now buffer.old buffer.new result }
{
    report::report(marks, buffer).into()
}

// Says whether some setting of a file's open elements is safe, however many signals are open.
#[unsafe(no_mangle)]
pub extern "C" fn judge_can_be_safe(file: &[u8]) -> FlatYesNo
    ensures answer { result ≡ flat_yes_no (can_be_safe_answer file.now) }
    ensures item6 { Item6 file.now result }
{
    can_be_safe::can_be_safe(file).into()
}

// Writes the file with the letter S in front to the start of the lent buffer, for desks that read only S files, and returns how many bytes that are.
#[unsafe(no_mangle)]
pub extern "C" fn judge_to_s(file: &[u8], buffer: &mut [u8]) -> FlatFilled
    ensures answer { result ≡ flat_filled (conversion_answer letter.S file.now (length buffer.old)) }
    ensures after { buffer.new ≡ after_conversion letter.S file.now buffer.old }
    ensures item5 { Item5 letter.S file.now buffer.old buffer.new result }
{
    converter::to_s(file, buffer).into()
}

// Writes the file with the letter U in front to the start of the lent buffer, and returns how many bytes that are.
#[unsafe(no_mangle)]
pub extern "C" fn judge_to_u(file: &[u8], buffer: &mut [u8]) -> FlatFilled
    ensures answer { result ≡ flat_filled (conversion_answer letter.U file.now (length buffer.old)) }
    ensures after { buffer.new ≡ after_conversion letter.U file.now buffer.old }
    ensures item5 { Item5 letter.U file.now buffer.old buffer.new result }
{
    converter::to_u(file, buffer).into()
}
