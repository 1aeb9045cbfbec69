// The reply: the mnemonic, > and a value.
ghost use Rattle.std.specs.Prelude.{◌≡◌, false, ◌++◌, ◌≤◌, nat_abs, length, drop};
ghost use Rattle.formatting.specs.Buffer.{append_all, written};
ghost use Rattle.terminal.specs.Commands.{is_word};
ghost use Rattle.terminal.specs.Terminal.{value_text, reply_text};

use crate::REPLY_LENGTH;
use crate::mnemonic::Parameter;
use formatting::Text;

// The value in its form. The contract rules out a word in decimal and a number in hexadecimal.
fn append_value<const N: usize>(out: &mut Text<N>, number: u64, value: i64)
    ensures { out.new ≡ append_all out.old (value_text number value) }
{
    if crate::command::is_word(number) {
        out.push_word(value.unsigned_abs());
    } else {
        out.push_signed(value);
    }
}

// All of it; the longest fits.
fn whole(parameter: Parameter, value: i32) -> Text<REPLY_LENGTH>
    requires { is_word parameter ≡ false → nat_abs value ≤ 19998 }
    ensures { (written result ≡ reply_text parameter value) × (length (reply_text parameter value) ≤ 9) }
{
    let mut text = Text::new();
    text.push(crate::mnemonic::letter(parameter, 0));
    text.push(crate::mnemonic::letter(parameter, 1));
    text.push(b'>');
    append_value(&mut text, parameter.number(), i64::from(value));
    text
}

// At the front of a buffer that holds the longest reply. The contract gives every byte of the buffer, so it rules out a
// byte of the reply that is lost and a change behind it.
pub fn write(parameter: Parameter, value: i32, out: &mut [u8]) -> usize
    requires { (is_word parameter ≡ false → nat_abs value ≤ 19998) × (9 ≤ length out.old) }
    ensures { (result ≡ length (reply_text parameter value))
        × (out.new ≡ reply_text parameter value ++ drop (length (reply_text parameter value)) out.old) }
{
    let text = whole(parameter, value);
    let bytes = text.as_slice();
    out[..bytes.len()].copy_from_slice(bytes);
    bytes.len()
}
