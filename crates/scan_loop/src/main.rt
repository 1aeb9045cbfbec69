// A host's loop, in which every call that returns a controller or a sheet is made; both stand in a struct. That each
// can take the next call is in their types, so no function here has a contract or a proof file.
#![tactic(auto)]

use controller::Controller;
use rights::Writer;
use sheet::Sheet;
use signals::Input;

#[derive(Clone, Copy)]
struct Dryer {
    controller: Controller,
    sheet: Sheet,
}

// When the next scan is due: 36 ms after the last one, or at once. A real host reads its own clock.
fn due(controller: Controller) -> u64 {
    controller
        .last_reading()
        .map_or(0, |last| last.wrapping_add(36))
}

// A scan, and its answer entered in the sheet.
fn scanned(dryer: Dryer) -> Dryer {
    let r = dryer.controller.scan(Input {
        pins: 0x80,
        sample1: 5000,
        sample2: 0,
        sample3: 0,
        buttons: 2,
        sensors: 0,
        milliseconds: due(dryer.controller),
    });
    match r.answer {
        Ok(values) => Dryer {
            controller: r.controller,
            sheet: dryer.sheet.enter(values).sheet,
        },
        Err(_) => Dryer {
            controller: r.controller,
            ..dryer
        },
    }
}

// A write where it is free, and a line of the hand-held terminal.
fn adjusted(controller: Controller) -> Controller {
    match controller.write_access(Writer::Operator, parameters::SL) {
        Ok(()) => {
            let w = controller.write(Writer::Operator, parameters::SL, 650);
            let mut reply = [0u8; terminal::REPLY_LENGTH];
            terminal::answer(w.controller, Writer::Engineer, b"TI>10", &mut reply).controller
        }
        Err(_) => controller,
    }
}

// Saved, and restarted with the image. A save is refused only for want of room, so its verdict isn't looked at.
fn restarted(controller: Controller) -> Controller {
    let mut image = [0u8; fields::IMAGE_LENGTH];
    let _ = controller.save(&mut image);
    controller.restart(&image).controller
}

// The power fails once.
fn after_power(controller: Controller, turn: u64) -> Controller {
    if turn == 50 {
        restarted(controller)
    } else {
        controller
    }
}

// What is done in a turn.
fn turned(dryer: Dryer, turn: u64) -> Dryer {
    let after = scanned(dryer);
    Dryer {
        controller: after_power(adjusted(after.controller), turn),
        ..after
    }
}

fn dry(turns: u64) -> Dryer {
    let mut dryer = Dryer {
        controller: Controller::fresh(0),
        sheet: Sheet::empty(),
    };
    for turn in 0..turns {
        dryer = turned(dryer, turn);
    }
    dryer
}

// A failed write is not told apart.
fn print(rt: &impl Print, number: u64) {
    let _ = println!(rt; "{number}");
}

// OP and the scans of the sheet after a hundred turns.
fn main(rt: HostRuntime) {
    let dryer = dry(100);
    match dryer.controller.read(parameters::OP) {
        Ok(op) => print(&rt, u64::from(op.unsigned_abs())),
        Err(refusal) => print(&rt, u64::from(u8::from(refusal))),
    }
    print(&rt, dryer.sheet.scans() as u64);
}
