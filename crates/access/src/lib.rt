// What stands behind an address: the value that a read finds there, and what a byte written there does.
#![tactic(auto)]

ghost use Rattle.std.specs.Prelude.{◌≡◌, ◌<◌};
ghost use Rattle.access.specs.Read.{is_array, array_address, lock_of, register_value, signature_of, array_value, value_of};
ghost use Rattle.access.specs.Write.{lock_written, reached_of};

use command::{Judged, write};
use part::{Fwh, Kind, Part, Register, block_of, device_code, look_up};
use record::{Chip, Controller, Device, inputs};
use status::status;

// `part` is the number of C's record: the definitions speak of any, and an enum of the two parts would ask for one of them.

// The place in the array that an address names.
pub fn array_address(address: u32) -> u32
    ensures { result ≡ array_address address }
{
    address % (Part::BYTES as u32)
}

// Whether an address names a place in the array.
fn is_array(address: u32) -> bool
    ensures { result ≡ is_array address }
{
    address / 0x400000 % 2 == 1
}

// The lock register of the block of an array address.
#[tactic(auto, unfolding(crate::specs::Read::lock_of))]
fn lock_of(locks: [u8; 16], address: u32) -> u8
    requires { address < 1048576 }
    ensures { result ≡ lock_of locks address }
{
    locks[block_of(address) as usize]
}

// A register as it reads.
#[tactic(auto, using(part::proofs::Rule::lock_below), unfolding(crate::specs::Read::register_value))]
fn register_value(chip: Chip, locks: [u8; 16], sample: u16, address: u32) -> u8
    ensures { result ≡ register_value chip.part chip.straps locks sample address }
{
    match look_up(chip, address) {
        Some(Register::Lock(b)) => locks[b as usize],
        Some(Register::Inputs) => inputs(sample),
        Some(Register::MakerCode) => Part::MAKER_CODE,
        Some(Register::DeviceCode) => Fwh::DEVICE_CODE,
        None => 0,
    }
}

#[tactic(auto, using(basics::proofs::Rules::cases), unfolding(crate::specs::Read::signature_of))]
fn signature(part: u8, address: u32) -> u8
    ensures { result ≡ signature_of part address }
{
    match address {
        0 => Part::MAKER_CODE,
        1 => device_code(part),
        _ => 0,
    }
}

// The array as it reads in each mode; `byte` is what the image holds at the address.
#[tactic(auto, using(basics::proofs::Rules::cases), unfolding(crate::specs::Read::array_value))]
fn array_value(part: u8, c: Controller, lock: u8, address: u32, byte: u8) -> u8
    ensures { result ≡ array_value part c lock address byte }
{
    match c.mode {
        0 if lock / 4 % 2 == 1 => 0,
        0 => byte,
        1 => status(c),
        _ => signature(part, address),
    }
}

// The value that a read finds at an address.
#[tactic(auto, using(basics::proofs::Rules::cases), unfolding(crate::specs::Read::value_of))]
pub fn value(d: Device, sample: u16, address: u32, byte: u8) -> u8
    ensures { result ≡ value_of d sample address byte }
{
    if is_array(address) {
        let at = array_address(address);
        return array_value(d.part, d.controller, lock_of(d.locks, at), at, byte);
    }
    register_value(d.chip(), d.locks, sample, address)
}

// Only locks can be written, and only while their lock-down bit is 0. The locks are an array, for which there is no struct update.
#[tactic(auto, using(basics::proofs::Rules::cases, part::proofs::Rule::lock_below), unfolding(crate::specs::Write::lock_written))]
fn write_lock(chip: Chip, locks: [u8; 16], address: u32, byte: u8) -> [u8; 16]
    ensures { result ≡ lock_written chip.part chip.straps locks address byte }
{
    let mut next = locks;
    if let Some(Register::Lock(b)) = look_up(chip, address) {
        let lock = &mut next[b as usize];
        if *lock / 2 % 2 == 0 {
            *lock = byte % 8;
        }
    }
    next
}

// A byte written to an address.
#[tactic(auto, using(basics::proofs::Rules::cases), unfolding(crate::specs::Write::reached_of))]
pub fn reach(d: Device, sample: u16, address: u32, byte: u8) -> Judged<Device>
    ensures { result ≡ reached_of d sample address byte }
{
    if is_array(address) {
        let at = array_address(address);
        let w = write(
            d.controller,
            d.times,
            sample,
            lock_of(d.locks, at),
            at,
            byte,
        );
        return Judged {
            after: Device {
                controller: w.after,
                ..d
            },
            verdict: w.verdict,
        };
    }
    let locks = write_lock(d.chip(), d.locks, address, byte);
    Judged {
        after: Device { locks, ..d },
        verdict: None,
    }
}
