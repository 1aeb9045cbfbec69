// The plant beside the terminal: a line of the program's own brings the plant's pins to the controller in one scan.
ghost use Rattle.std.specs.Prelude.{◌≡◌, ◌≤◌, length};
ghost use Rattle.terminal.specs.Terminal.{outcome_of};
ghost use Rattle.handheld.specs.Plant.{pins_in, reading_after, scan_input, scan_outcome, outcome_for};

use controller::Controller;
use rights::Writer;
use signals::Input;
use terminal::LineResult;

// `pins`, one blank and a number from 0 to 255; any other line is the terminal's. The contract rules out one of the
// terminal's that is taken, and a number beyond eight bits.
#[tactic(auto, unfolding(crate::specs::Plant::pins_in, text::specs::Arguments::natural_in), using(text::specs::Words::same_pointwise))]
fn parse(line: &[u8]) -> Option<u8>
    ensures { result ≡ pins_in line.now }
{
    let digits = line.strip_prefix(b"pins ".as_slice())?;
    let pins = numerals::number(digits, 18)?;
    u8::try_from(pins).ok()
}

// 36 ms after the last scan; the first at 36. At the end of 64 bits the clock stands still.
fn reading_after(last: Option<u64>) -> u64
    ensures { result ≡ reading_after last }
{
    match last {
        None => 36,
        Some(milliseconds) => milliseconds.checked_add(36).unwrap_or(milliseconds),
    }
}

// These pins, channel 1 at half of its range, the others at 0, no button pressed, the sensors good.
fn scan_input(last: Option<u64>, pins: u8) -> Input
    ensures { result ≡ scan_input last pins }
{
    Input {
        pins,
        sample1: 5000,
        sample2: 0,
        sample3: 0,
        buttons: 0,
        sensors: 0,
        milliseconds: reading_after(last),
    }
}

// One scan, answered `ok` or with its refusal. The contract rules out a scan with other pins, and a controller other
// than the one that the scan returned.
fn scan(controller: Controller, pins: u8, reply: &mut [u8]) -> LineResult
    requires { 2 ≤ length reply.old }
    ensures { outcome_of result reply.new ≡ scan_outcome controller pins reply.old }
{
    let r = controller.scan(scan_input(controller.last_reading(), pins));
    match r.answer {
        Ok(_) => LineResult {
            controller: r.controller,
            answer: Ok(crate::ok::write(reply)),
        },
        Err(refusal) => LineResult {
            controller: r.controller,
            answer: Err(refusal),
        },
    }
}

// What comes of a writer's line that is the terminal's or the plant's. The contract rules out a line of the terminal's
// that makes a scan, and the other way round; and a line of the terminal's with another writer.
#[tactic(auto, unfolding(crate::specs::Plant::outcome_for))]
pub fn answer(controller: Controller, writer: Writer, line: &[u8], reply: &mut [u8]) -> LineResult
    requires { 2 ≤ length reply.old }
    ensures { outcome_of result reply.new ≡ outcome_for controller writer line.now reply.old }
{
    match parse(line) {
        Some(pins) => scan(controller, pins, reply),
        None => terminal::answer(controller, writer, line, reply),
    }
}
