// What a run holds from line to line, and what comes of a line that is typed.
ghost use Rattle.std.specs.Prelude.{◌≡◌, ◌≤◌, length};
ghost use Rattle.handheld.specs.Sessions.{first_session, session_outcome_of, typed_outcome};

use controller::Controller;
use rights::Writer;
use signals::Refusal;

// The controller, and who types.
#[derive(Clone, Copy)]
pub struct Session {
    pub controller: Controller,
    pub writer: Writer,
}

// The session after a line, and the answer to it.
#[derive(Clone, Copy)]
pub struct SessionResult {
    pub session: Session,
    pub answer: Result<usize, Refusal>,
}

// Before the first line: a controller that is fresh with SW 0, and the operator. The contract rules out others.
#[tactic(auto, unfolding(crate::specs::Sessions::first_session))]
pub fn first() -> Session
    ensures { result ≡ first_session }
{
    Session {
        controller: Controller::fresh(0),
        writer: Writer::Operator,
    }
}

// What comes of a line that is typed. The contract gives the next controller, who types from then on, the answer and
// every byte of the reply buffer, so it rules out that the writer changes but by a line that says so, that such a line
// changes the controller, and a line of the terminal's that carries another writer than the one who is there.
#[tactic(auto, unfolding(crate::specs::Sessions::typed_outcome))]
pub fn answer(session: Session, line: &[u8], reply: &mut [u8]) -> SessionResult
    requires { 2 ≤ length reply.old }
    ensures { session_outcome_of result reply.new ≡ typed_outcome session line.now reply.old }
{
    let controller = session.controller;
    let there = session.writer;
    match crate::who::parse(line) {
        Some(writer) => SessionResult {
            session: Session { controller, writer },
            answer: Ok(crate::ok::write(reply)),
        },
        None => {
            let r = crate::plant::answer(controller, there, line, reply);
            SessionResult {
                session: Session {
                    controller: r.controller,
                    writer: there,
                },
                answer: r.answer,
            }
        }
    }
}
