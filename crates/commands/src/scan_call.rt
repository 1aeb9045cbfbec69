// A scan, as a line has it.
ghost use Rattle.std.specs.Prelude.{◌≡◌, ◌≤◌, length};
ghost use Rattle.commands.specs.Commands.{scan_of, scan_command};

use crate::{Call, Command};
use signals::Input;
use text::arguments;
use text::arguments::natural_in;

// The scan of six numbers and a reading of the clock. The contract rules out a scan with another count of numbers.
#[tactic(auto, unfolding(crate::specs::Commands::scan_of))]
fn scan_of(numbers: &[i64], milliseconds: u64) -> Option<Command>
    ensures { result ≡ scan_of numbers.now milliseconds }
{
    let &[pins, sample1, sample2, sample3, buttons, sensors] = numbers else {
        return None;
    };
    let pins = natural_in(pins, 0, 255)?;
    let sample1 = natural_in(sample1, 0, 65535)?;
    let sample2 = natural_in(sample2, 0, 65535)?;
    let sample3 = natural_in(sample3, 0, 65535)?;
    let buttons = natural_in(buttons, 0, 255)?;
    let sensors = natural_in(sensors, 0, 255)?;
    Some(Command::Call(Call::Scan(Input {
        pins: pins as u8,
        sample1: sample1 as u16,
        sample2: sample2 as u16,
        sample3: sample3 as u16,
        buttons: buttons as u8,
        sensors: sensors as u8,
        milliseconds,
    })))
}

// scan PINS S1 S2 S3 BUTTONS SENSORS MS. The reading has up to 64 bits, more than the numbers of other calls, so it is
// read apart from the six in front of it. The contract rules out a scan without a reading, a reading of another word,
// and a word behind it.
#[tactic(auto, unfolding(crate::specs::Commands::scan_command))]
pub fn scan(line: &[u8], start: usize) -> Option<Command>
    requires { start ≤ length line.now }
    ensures { result ≡ scan_command line.now start }
{
    let sixth = text::after_words(line, start, 6);
    let numbers = arguments::parse(&line[..sixth], start).ok()?;
    let last = text::only_word(line, sixth);
    let milliseconds = numerals::natural(&line[last.from..last.to])?;
    scan_of(numbers.as_slice(), milliseconds)
}
