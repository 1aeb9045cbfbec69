// The answer to a line of the program's own that is taken.
ghost use Rattle.std.specs.Prelude.{◌++◌, ◌≡◌, ◌≤◌, length, drop};
ghost use Rattle.formatting.specs.Ascii.{ascii};

// `ok` at the front of a buffer: how many bytes it has. The contract rules out a change behind it.
pub fn write(reply: &mut [u8]) -> usize
    requires { 2 ≤ length reply.old }
    ensures { (result ≡ 2) × (reply.new ≡ ascii "ok" ++ drop 2 reply.old) }
{
    reply[0] = b'o';
    reply[1] = b'k';
    2
}
