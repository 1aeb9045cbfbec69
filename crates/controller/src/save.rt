// Saving: an image of the settings in the caller's buffer.
ghost use Rattle.std.specs.Prelude.{◌≡◌};
ghost use Rattle.signals.specs.Refusals.{refused_by};
ghost use Rattle.parameters.specs.Legal.{Legal};
ghost use Rattle.fields.specs.Fields.{save_tests, saved_in};
ghost use Rattle.controller.specs.Answers.{reply_of_verdict, reply_by};
ghost use Rattle.controller.specs.Save.{settings_now, saved_image};

use crate::Controller;
use settings::Settings;
use signals::Refusal;

impl Controller {
    // What an image of this controller holds; the parameters are legal, as an image asks.
    fn settings(self) -> Settings
        ensures { (result ≡ settings_now self) × Legal result.parameters }
    {
        let core = self.core;
        Settings {
            parameters: core.parameters.values(),
            op: crate::op_of(self.output),
            request: core.conditions.request,
            fault: core.conditions.fault,
            userbits: core.userbits,
        }
    }

    // Encodes an image of the settings in the caller's buffer: the first 137 bytes are the image, those
    // behind stay; or refusal 15, and the buffer as it was. The controller doesn't change: a caller keeps
    // the one that it has. The contract gives the verdict and every byte, so it rules out a buffer of 137
    // bytes that is refused, an image of other settings, and a byte behind it that changes.
    pub fn save(self, buffer: &mut [u8]) -> Result<(), Refusal>
        ensures { (reply_of_verdict result ≡ reply_by (refused_by (save_tests buffer.old)))
            × (buffer.new ≡ saved_in (saved_image self) buffer.old) }
    {
        self.settings().save(buffer)
    }
}
