// README's first use, listing by listing: the calls of a controller, of a sheet and of the hand-held terminal. No
// function here has a proof file.
#![tactic(auto)]

use answers::ScanValues;
use controller::Controller;
use rights::Writer;
use sheet::Sheet;
use signals::Input;

mod print;

fn main(rt: HostRuntime) {
    let first = Controller::fresh(0); // any 16-bit switch word
    let r = first.scan(Input {
        pins: 0x91,
        sample1: 5000,
        sample2: 0,
        sample3: 0,
        buttons: 2,
        sensors: 0,
        milliseconds: 1000, // the host's clock; the next scan is due at 1030 to 1042
    });
    let second = r.controller; // the controller for the next call
    match r.answer {
        Ok(values) => keep_sheet(&rt, values), // md 1002h, ds 913Fh, op 0, electrical 0, mode Auto, pv 500
        Err(refusal) => print::refusal(&rt, refusal),
    }
    print::reading(&rt, second.last_reading()); // Some(1000); None before the first scan
    let may = second.write_access(Writer::Operator, parameters::XP); // refused with 20: offer no field for editing
    print::verdict(&rt, may);
    let w = second.write(Writer::Operator, parameters::SL, 650);
    let third = w.controller;
    print::verdict(&rt, w.verdict); // Ok(()), or Err(refusal)
    let fourth = type_line(&rt, third);
    print::answer(&rt, b"SL", fourth.read(parameters::SL)); // 650
    let mut image = [0u8; fields::IMAGE_LENGTH];
    let saved = fourth.save(&mut image); // keep the bytes where a power cut leaves them
    print::verdict(&rt, saved);
    let back = Controller::fresh(0).restart(&image);
    print::verdict(&rt, back.verdict); // where it is refused the controller is as it was
    let restarted = back.controller; // MD bit 8 tells whether the image brought the memory fault
    print::answer(&rt, b"XP", restarted.read(parameters::XP)); // 500
}

fn keep_sheet(rt: &impl Print, values: ScanValues) {
    print::word(rt, b"MD", values.md);
    print::word(rt, b"DS", values.ds);
    let e = Sheet::empty().enter(values); // the next sheet, and Ok(()) or Err(Full)
    let lot = e.sheet;
    let mean = lot.mean_pv(); // mean.sum over mean.count
    print::decimal(rt, b"sum of PV", mean.sum);
    let kept = lot.values(); // plain numbers, to be kept over a power cut
    let k = Sheet::kept(kept); // k.verdict: Ok(()), or Err(Invalid) where the numbers can't be a sheet's
    print::decimal(rt, b"scans", k.sheet.scans() as i64); // where they are refused the sheet is an empty one
}

fn type_line(rt: &impl Print, controller: Controller) -> Controller {
    let mut reply = [0u8; terminal::REPLY_LENGTH]; // nine bytes hold every reply
    let t = terminal::answer(controller, Writer::Engineer, b"XP>500", &mut reply);
    match t.answer {
        Ok(length) => print::front(rt, &reply, length), // XP>500; the bytes behind it stay
        Err(refusal) => print::refusal(rt, refusal), // nothing has changed, in the controller or the buffer
    }
    t.controller // the write is made
}
