// What a run holds from line to line, and what comes of a command.
ghost use Rattle.std.specs.Prelude.{◌≡◌};
ghost use Rattle.sheet_session.specs.SheetSessions.{sheet_step};
ghost use Rattle.console.specs.Sessions.{first_session, after_call, after_sheet_call, session_step, session_buffer};

use commands::{Command, SheetCall};
use controller::Controller;
use controller_calls::Step;
use replies::Reply;
use sheet_session::SheetSession;

// The state of a run.
#[derive(Clone, Copy)]
pub struct Session {
    pub controller: Controller,
    pub sheet: SheetSession,
}

// The session after a line, and the reply to it.
#[derive(Clone, Copy)]
pub struct SessionStep {
    pub session: Session,
    pub reply: Reply,
}

// Before the first line: a controller that is fresh with SW 0, and of the sheet what a run begins with. The contract
// rules out others.
#[tactic(auto, unfolding(crate::specs::Sessions::first_session))]
pub fn first() -> Session
    ensures { result ≡ first_session }
{
    Session {
        controller: Controller::fresh(0),
        sheet: sheet_session::first(),
    }
}

// After a call of the controller. The contract rules out a controller other than the call's, and that the sheet
// changes.
fn after_call(session: Session, step: Step) -> SessionStep
    ensures { result ≡ after_call session step }
{
    SessionStep {
        session: Session {
            controller: step.controller,
            sheet: sheet_session::after_reply(session.sheet, step.reply),
        },
        reply: step.reply,
    }
}

// Performs a command of the sheet. The contract rules out that it changes the controller.
fn perform_sheet_call(session: Session, call: SheetCall) -> SessionStep
    ensures { result ≡ after_sheet_call session (sheet_step session.sheet call) }
{
    let step = sheet_session::perform(session.sheet, call);
    SessionStep {
        session: Session {
            controller: session.controller,
            sheet: step.session,
        },
        reply: step.reply,
    }
}

// Performs a command, with the buffer that holds a restart's bytes and takes a saved image. The contract gives the next
// session, the reply and every byte of the buffer, so it rules out a command that is taken for another, and a session
// that isn't handed on; that the next command can take it is in the types of its controller and its sheet.
#[tactic(auto, unfolding(crate::specs::Sessions::session_step, sheet_session::specs::SheetSessions::after_reply))]
pub fn perform(session: Session, command: Option<Command>, buffer: &mut [u8]) -> SessionStep
    ensures step { result ≡ session_step session command buffer.old }
    ensures buffer { buffer.new ≡ session_buffer session command buffer.old }
{
    match command {
        Some(Command::Call(call)) => {
            let step = controller_calls::perform(session.controller, call, buffer);
            after_call(session, step)
        }
        Some(Command::Sheet(call)) => perform_sheet_call(session, call),
        Some(Command::Calculated(number)) => SessionStep {
            session,
            reply: Reply::Number(number),
        },
        None => SessionStep {
            session,
            reply: Reply::Error,
        },
    }
}
