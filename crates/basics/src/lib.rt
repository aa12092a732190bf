// What every room shares: numbers and fills in bytes, the refusals by name, and the proof kit.
#![tactic(auto)]

ghost use Rattle.std.specs.Prelude.{◌≡◌, ◌+◌, ◌<◌, ◌≤◌, length};
ghost use Rattle.basics.specs.Bytes.{two_at, filled};

mod refusal;

pub use refusal::Refusal;

// The number in the two bytes from a place on, lower first.
pub fn two_at(bytes: &[u8], at: usize) -> u16
    requires { at + 1 < length bytes.now }
    ensures { result ≡ two_at bytes.now at }
{
    u16::from_le_bytes([bytes[at], bytes[at + 1]])
}

// Bytes from a place on become one value.
pub fn fill(buffer: &mut [u8], start: usize, count: usize, value: u8)
    requires { start + count ≤ length buffer.old }
    ensures { buffer.new ≡ filled buffer.old start count value }
{
    buffer[start..start + count].fill(value);
}
