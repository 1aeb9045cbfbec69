// Restarts: whether an image is accepted, and what it leaves.
ghost use Rattle.std.specs.Prelude.{◌≡◌, false, ℤ};
ghost use Rattle.signals.specs.Refusals.{number_in, refused_by};
ghost use Rattle.controller.specs.Answers.{response_of_verdict};
ghost use Rattle.controller.specs.Restart.{is_legal, is_illegal, restart_tests, repaired_settings, restored_settings};
ghost use Rattle.controller.specs.Restart.{restarted_request, controller_restarted, restart};
ghost use Rattle.controller.specs.Valid.{Valid};

use crate::{CallResult, Controller, Core};
use fields::FieldValues;
use modes::Request;
use parameters::Parameters;
use settings::Settings;
use signals::Refusal;

// Whether all values are legal.
fn is_legal(values: FieldValues) -> bool
    ensures { result ≡ is_legal values }
{
    let parameters = settings::decoding::parameters_in(values);
    crate::repaired::are_legal(parameters) & settings::decoding::are_others_legal(values)
}

// Whether an image is accepted. The contract rules out a refusal for another cause, one that is
// forgotten, and a higher number where a lower one applies.
fn restart_verdict(image: &[u8]) -> Result<(), Refusal>
    ensures { number_in result ≡ refused_by (restart_tests image.now) }
{
    if image.len() != fields::IMAGE_LENGTH {
        return Err(Refusal::ImageLength);
    }
    if !fields::decoding::is_well_formed(image) {
        return Err(Refusal::ImageField);
    }
    let values = fields::decoding::values_of(image);
    let illegal = settings::decoding::is_sum_right(values) & !is_legal(values);
    if illegal {
        return Err(Refusal::ImageValue);
    }
    Ok(())
}

// What is taken under a wrong sumcheck.
fn repaired_settings(values: FieldValues) -> Settings
    ensures { result ≡ repaired_settings values }
{
    let decoded = settings::decoding::parameters_in(values);
    let parameters = crate::repaired::repaired(decoded);
    let userbits = settings::decoding::legal_user_bits(values);
    Settings {
        parameters,
        op: 0,
        request: Request::Manual,
        fault: true,
        userbits,
    }
}

fn restored_settings(values: FieldValues) -> Settings
    ensures { result ≡ restored_settings values }
{
    let right = settings::decoding::is_sum_right(values);
    if right {
        return settings::decoding::settings_in(values);
    }
    repaired_settings(values)
}

// The request that a restart leaves: S2.5 ON makes it Manual.
fn restarted_request(powerfail: bool, request: Request) -> Request
    ensures { result ≡ restarted_request powerfail request }
{
    if powerfail { Request::Manual } else { request }
}

impl Core {
    // The controller after an accepted restart, whatever the output was. The contract rules out that it keeps anything
    // of the earlier state but SW.
    fn restarted(&self, values: FieldValues) -> Controller
        requires { is_illegal values ≡ false }
        ensures { (output : ℤ) → result ≡ controller_restarted (record { core = self.now; output = output }) values }
    {
        let s = signals::switches_of(self.sw);
        let restored = restored_settings(values);
        let right = settings::decoding::is_sum_right(values);
        let request = restarted_request(s.powerfail, restored.request);
        let parameters = Parameters::legal(restored.parameters);
        let core = crate::start_core(
            self.sw,
            parameters,
            request,
            restored.fault,
            restored.userbits,
        );
        let output = outputs::restarted::output_restarted(
            parameters,
            s,
            s.powerfail | !right,
            restored.op,
        );
        Controller { core, output }
    }
}

impl Controller {
    // Restarts with an image, any bytes of any number: the next controller and that it was accepted, or refusal 12,
    // 13 or 14 and the controller as it was. The contract gives the whole of both and asks nothing of the image, so
    // it rules out an image that is refused for no listed cause, a setting other than the rules give, a wrong sumcheck
    // that goes unnoticed, anything that is kept of the earlier state but SW, and a controller that the next call
    // could not take.
    pub fn restart(self, image: &[u8]) -> CallResult
        ensures { (response_of_verdict result ≡ restart self image.now) × Valid result.controller }
    {
        let before = self.core;
        match restart_verdict(image) {
            Ok(()) => CallResult {
                controller: before.restarted(fields::decoding::values_of(image)),
                verdict: Ok(()),
            },
            Err(refusal) => CallResult {
                controller: self,
                verdict: Err(refusal),
            },
        }
    }
}
