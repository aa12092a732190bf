// The parts: what both have in common, what each has of its own, and the rule of their registers.
#![tactic(auto)]

ghost use Rattle.std.specs.Prelude.{◌≡◌, ◌<◌, ◌↔◌, ℕ, IsSome, IfSome};
ghost use Rattle.record.specs.Record.{is_lpc, block_of};
ghost use Rattle.part.specs.Fresh.{resting, fresh_of};
ghost use Rattle.part.specs.Parts.{strap_count, window_of, device_code};
ghost use Rattle.part.specs.Registers.{register_base, register_at};
ghost use Rattle.part.specs.Rule.{register_in};

use record::{Chip, Controller, Device, idle_frame};
use units::Times;

// What a part holds.
pub type Image = [u8; Part::BYTES];

// What both parts have.
#[derive(Drop)]
pub struct Part;

impl Part {
    pub const MAKER_CODE: u8 = 0x20;

    pub const BYTES: usize = 1048576;

    pub const BLOCKS: u32 = 16;

    pub const BLOCK_BYTES: u32 = 65536;

    pub const TOP_BLOCK: u32 = 15;

    // A controller at rest: reading the array, no error bits, no setup, no operation.
    pub fn resting(marks: u16) -> Controller
        ensures { result ≡ resting marks }
    {
        Controller {
            marks,
            ..Controller::default()
        }
    }
}

// What each part has of its own.
pub trait Kind {
    ghost NUMBER: { ℕ };

    const NUMBER: u8;

    const DEVICE_CODE: u8;

    // How many values the straps have.
    const STRAPS: u32;

    // Where its registers begin, those of the lowest window where it has several.
    const REGISTERS: u32;

    // A device as it comes up: idle, locked, its controller at rest, no marks.
    #[tactic(auto, unfolding(crate::specs::Fresh::fresh_of))]
    fn fresh(straps: u8, times: Times) -> Device
        ensures { result ≡ fresh_of NUMBER straps times }
    {
        Device {
            straps,
            locks: [1; 16],
            part: Self::NUMBER,
            times,
            frame: idle_frame(),
            controller: Part::resting(0),
        }
    }
}

// The M50FW080, on the Firmware Hub bus.
#[derive(Drop)]
pub struct Fwh;

impl Kind for Fwh {
    ghost NUMBER = { 0 };

    const NUMBER: u8 = 0;

    const DEVICE_CODE: u8 = 0x2D;

    const STRAPS: u32 = 16;

    // The registers of block b stand from here + b times 10000h on.
    const REGISTERS: u32 = 0xFB00000;
}

// The M50LPW080, its sister on the LPC bus.
#[derive(Drop)]
pub struct Lpc;

impl Kind for Lpc {
    ghost NUMBER = { 1 };

    const NUMBER: u8 = 1;

    const DEVICE_CODE: u8 = 0x2F;

    const STRAPS: u32 = 4;

    // Its four windows stand 100000h apart.
    const REGISTERS: u32 = 0xFF800000;
}

// `part` is the number of C's record: the definitions speak of any, and an enum of the two parts would ask for one of them.

// How many values the straps of a part have; none, where there is no such part.
#[tactic(auto, unfolding(crate::specs::Parts::strap_count))]
pub fn strap_count(part: u32) -> u32
    ensures { result ≡ strap_count part }
{
    match part {
        0 => Fwh::STRAPS,
        1 => Lpc::STRAPS,
        _ => 0,
    }
}

// The chip of a part and straps that the part allows, as C hands them in.
pub fn chip_of(part: u32, straps: u32) -> Option<Chip>
    ensures when { IsSome result ↔ (straps < strap_count part) }
    ensures these { IfSome result (λ c. (c.part ≡ part) × (c.straps ≡ straps)) }
    ensures there { IfSome result (λ c. c.part < 2) }
{
    if straps < strap_count(part) {
        Some(Chip {
            part: part as u8,
            straps: straps as u8,
        })
    } else {
        None
    }
}

// The fresh device of a part that there is.
pub fn fresh(chip: Chip, times: Times) -> Device
    requires { chip.part < 2 }
    ensures { result ≡ fresh_of chip.part chip.straps times }
{
    if chip.part == Lpc::NUMBER {
        Lpc::fresh(chip.straps, times)
    } else {
        Fwh::fresh(chip.straps, times)
    }
}

// What bits 21 and 20 of an LPC address say for these straps.
pub fn window_of(straps: u8) -> u32
    ensures { result ≡ window_of straps }
{
    3_u32.saturating_sub(straps as u32)
}

#[tactic(auto, unfolding(crate::specs::Parts::device_code))]
pub fn device_code(part: u8) -> u8
    ensures { result ≡ device_code part }
{
    if part == Lpc::NUMBER {
        Lpc::DEVICE_CODE
    } else {
        Fwh::DEVICE_CODE
    }
}

// The block that an address lies in.
pub fn block_of(address: u32) -> u32
    ensures { result ≡ block_of address }
{
    address / Part::BLOCK_BYTES
}

// What stands at an address of the register space.
#[derive(Clone, Copy)]
pub enum Register {
    Lock(u8),
    Inputs,
    MakerCode,
    DeviceCode,
}

// Where the registers of a part with these straps begin.
#[tactic(auto, unfolding(crate::specs::Registers::register_base))]
fn register_base(chip: Chip) -> u32
    ensures { result ≡ register_base chip.part chip.straps }
{
    if chip.part == Lpc::NUMBER {
        Lpc::REGISTERS + window_of(chip.straps) * 0x100000
    } else {
        Fwh::REGISTERS
    }
}

// The register at an offset from a part's base: those of block b stand from b times 10000h on. Each block has its lock 0002h
// above that, and block 12 the part's own as well: the inputs, and on FWH maker and device.
#[tactic(auto, unfolding(crate::specs::Rule::register_in))]
fn register_in(part: u8, offset: u32) -> Option<Register>
    ensures { result ≡ register_in (is_lpc part) offset }
{
    let block = offset / Part::BLOCK_BYTES;
    let low = offset % Part::BLOCK_BYTES;
    match (block, low) {
        (0..=Part::TOP_BLOCK, 0x0002) => Some(Register::Lock(block as u8)),
        (12, 0x0100) => Some(Register::Inputs),
        (12, 0x0000) if part != Lpc::NUMBER => Some(Register::MakerCode),
        (12, 0x0001) if part != Lpc::NUMBER => Some(Register::DeviceCode),
        _ => None,
    }
}

// The register at an address, where the part has one there.
#[tactic(auto, using(crate::proofs::Lookup::ruled), unfolding(crate::specs::Registers::register_at))]
pub fn look_up(chip: Chip, address: u32) -> Option<Register>
    ensures { result ≡ register_at chip.part chip.straps address }
{
    let base = register_base(chip);
    if address < base {
        return None;
    }
    register_in(chip.part, address - base)
}
