// What a run holds for the drying sheet, and what comes of the sheet's commands.
#![tactic(auto)]

ghost use Rattle.std.specs.Prelude.{◌≡◌};
ghost use Rattle.sheet.specs.Valid.{Valid};
ghost use Rattle.sheet_session.specs.SheetSessions.{first_session, last_after, after_reply, reply_to_entry, entered_step};
ghost use Rattle.sheet_session.specs.SheetSessions.{last_step, number_step, kept_step, sheet_step};

use answers::ScanValues;
use commands::SheetCall;
use replies::Reply;
use sheet::{Full, Sheet};

// The sheet, the numbers of a kept one as lines set them, and the answer of the last accepted scan, if there was one,
// which is entered next.
#[derive(Clone, Copy)]
pub struct SheetSession {
    pub sheet: Sheet,
    pub numbers: [i64; 16],
    pub last: Option<ScanValues>,
}

// The session after a command, and the reply to it.
#[derive(Clone, Copy)]
pub struct SheetStep {
    pub session: SheetSession,
    pub reply: Reply,
}

// Before the first line: an empty sheet, all numbers 0, and no answer. The contract rules out others, and a sheet that
// the next command could not take.
#[tactic(auto, unfolding(crate::specs::SheetSessions::first_session))]
pub fn first() -> SheetSession
    ensures session { result ≡ first_session }
    ensures valid { Valid result.sheet }
{
    SheetSession {
        sheet: Sheet::empty(),
        numbers: sheet_numbers::no_numbers(),
        last: None,
    }
}

// The contract rules out that anything but an accepted scan changes the last answer.
fn last_after(last: Option<ScanValues>, reply: Reply) -> Option<ScanValues>
    ensures { result ≡ last_after last reply }
{
    match reply {
        Reply::Answer(values) => Some(values),
        _ => last,
    }
}

// After a call of the controller with this reply. The contract rules out that the sheet or its numbers change.
#[tactic(auto, unfolding(crate::specs::SheetSessions::after_reply))]
pub fn after_reply(session: SheetSession, reply: Reply) -> SheetSession
    ensures { result ≡ after_reply session reply }
{
    SheetSession {
        last: last_after(session.last, reply),
        ..session
    }
}

// The contract rules out that a full sheet says it took an answer.
fn reply_to_entry(entry: Result<(), Full>) -> Reply
    ensures { result ≡ reply_to_entry entry }
{
    match entry {
        Ok(()) => Reply::Accepted,
        Err(Full) => Reply::Full,
    }
}

// Enters an answer. The contract rules out a sheet that isn't handed on, and the reply of another entry.
#[tactic(auto, unfolding(crate::specs::SheetSessions::entered_step))]
fn enter(session: SheetSession, values: ScanValues) -> SheetStep
    ensures { result ≡ entered_step session values }
{
    let entered = session.sheet.enter(values);
    SheetStep {
        session: SheetSession {
            sheet: entered.sheet,
            ..session
        },
        reply: reply_to_entry(entered.entry),
    }
}

// Enters the answer of the last accepted scan; where there is none, that is an error.
fn enter_last(session: SheetSession) -> SheetStep
    ensures { result ≡ last_step session session.last }
{
    match session.last {
        Some(values) => enter(session, values),
        None => SheetStep {
            session,
            reply: Reply::Error,
        },
    }
}

// Sets one of the numbers of a kept sheet. The contract rules out another number's place, and a change of the sheet.
#[tactic(auto, unfolding(crate::specs::SheetSessions::number_step))]
fn set_number(session: SheetSession, place: usize, value: i64) -> SheetStep
    ensures { result ≡ number_step session place value }
{
    SheetStep {
        session: SheetSession {
            numbers: sheet_numbers::with_number(session.numbers, place, value),
            ..session
        },
        reply: Reply::Accepted,
    }
}

// Begins with the sheet whose numbers were set. The contract rules out a sheet with other numbers, and that anything of
// an invalid one is taken.
#[tactic(auto, unfolding(crate::specs::SheetSessions::kept_step))]
fn keep(session: SheetSession) -> SheetStep
    ensures { result ≡ kept_step session }
{
    match sheet_numbers::values_in(session.numbers)
        .ok()
        .map(Sheet::kept)
    {
        Some(kept) if kept.verdict.is_ok() => SheetStep {
            session: SheetSession {
                sheet: kept.sheet,
                ..session
            },
            reply: Reply::Accepted,
        },
        _ => SheetStep {
            session,
            reply: Reply::InvalidSheet,
        },
    }
}

// Performs a command of the sheet. The contract gives the whole next session and the reply, so it rules out a command
// that is taken for another; and a sheet that the next command could not take.
#[tactic(auto, unfolding(crate::specs::SheetSessions::sheet_step))]
pub fn perform(session: SheetSession, call: SheetCall) -> SheetStep
    ensures step { result ≡ sheet_step session call }
    ensures valid { Valid result.session.sheet }
{
    match call {
        SheetCall::New => SheetStep {
            session: SheetSession {
                sheet: Sheet::empty(),
                ..session
            },
            reply: Reply::Accepted,
        },
        SheetCall::Last => enter_last(session),
        SheetCall::Feed(values) => enter(session, values),
        SheetCall::Read => SheetStep {
            session,
            reply: Reply::WholeSheet,
        },
        SheetCall::Number(place, value) => set_number(session, place, value),
        SheetCall::Kept => keep(session),
    }
}
