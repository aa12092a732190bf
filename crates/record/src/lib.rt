// The structs that a host keeps, and what a sample's bits say. The structs hold numbers only, so that any bytes at all are
// a device and soundness is tested, never assumed; what the numbers stand for is said in this room's specs. C has these structs
// as they are, so a kind, a state, a mode, a setup and a part are numbers in them.
#![tactic(auto)]

ghost use Rattle.std.specs.Prelude.{◌≡◌, ◌+◌, ◌*◌, ◌/◌, ◌%◌, ◌^◌, ◌<◌, length};
ghost use Rattle.record.specs.Record.{idle, absent};
ghost use Rattle.record.specs.Sample.{lines, frame_line, rp, init, tbl, wp, voltage, inputs, is_reset, is_idle_sample, sample_at};

use basics::two_at;
use units::{Clocks, Times};

mod nibble;

pub use nibble::Nibble;

// The frame in progress: which kind, the last clock of it that is done, the byte and the address as far as they are known.
#[repr(C)]
#[derive(Clone, Copy, Default)]
pub struct Frame {
    pub kind: u8,
    pub clock: u8,
    pub byte: u8,
    pub address: u32,
}

// An operation, with its own copy of the times as they stood when it was accepted.
#[repr(C)]
#[derive(Clone, Copy, Default)]
pub struct Operation {
    pub kind: u8,
    pub state: u8,
    pub data: u8,
    pub address: u32,
    pub slices: u32,
    pub left: Clocks,
    pub pause: Clocks,
    pub times: Times,
}

// All that a command or a clock of an operation can change. Neither pins nor locks are in it.
#[repr(C)]
#[derive(Clone, Copy, Default)]
pub struct Controller {
    pub mode: u8,
    pub errors: u8,
    pub setup: u8,
    pub marks: u16,
    pub outer: Operation,
    pub inner: Operation,
}

#[repr(C)]
#[derive(Clone, Copy)]
pub struct Device {
    pub straps: u8,
    pub locks: [u8; 16],
    pub part: u8,
    pub times: Times,
    pub frame: Frame,
    pub controller: Controller,
}

// Which part a device is, by its number as in the record, and its straps: by these a frame is for it, and its registers have their
// places.
#[derive(Clone, Copy)]
pub struct Chip {
    pub part: u8,
    pub straps: u8,
}

impl Device {
    pub fn chip(&self) -> Chip
        ensures part { result.part ≡ self.now.part }
        ensures straps { result.straps ≡ self.now.straps }
    {
        Chip {
            part: self.part,
            straps: self.straps,
        }
    }
}

// No frame.
pub fn idle_frame() -> Frame
    ensures { result ≡ idle }
{
    Frame::default()
}

// No operation.
pub fn no_operation() -> Operation
    ensures { result ≡ absent }
{
    Operation::default()
}

// The sixteen bits of a sample, by name; one bit is 0 or 1, as the definitions have it.
pub fn lines(sample: u16) -> Nibble
    ensures { result ≡ lines sample }
{
    Nibble::low((sample % 16) as u8)
}

// The bit at a place.
fn bit<const PLACE: u32>(sample: u16) -> u16
    requires { PLACE < 16 }
    ensures { result ≡ sample / 2 ^ PLACE % 2 }
{
    (sample >> PLACE) % 2
}

pub fn frame_line(sample: u16) -> u16
    ensures { result ≡ frame_line sample }
{
    bit::<4>(sample)
}

pub fn rp(sample: u16) -> u16
    ensures { result ≡ rp sample }
{
    bit::<5>(sample)
}

pub fn init(sample: u16) -> u16
    ensures { result ≡ init sample }
{
    bit::<6>(sample)
}

pub fn tbl(sample: u16) -> u16
    ensures { result ≡ tbl sample }
{
    bit::<7>(sample)
}

pub fn wp(sample: u16) -> u16
    ensures { result ≡ wp sample }
{
    bit::<8>(sample)
}

pub fn voltage(sample: u16) -> u16
    ensures { result ≡ voltage sample }
{
    sample / 512 % 4
}

pub fn inputs(sample: u16) -> u8
    ensures { result ≡ inputs sample }
{
    (sample / 2048) as u8
}

// Whether RP or INIT is low.
#[tactic(auto, unfolding(crate::specs::Sample::is_reset))]
pub fn is_reset(sample: u16) -> bool
    ensures { result ≡ is_reset sample }
{
    rp(sample) == 0 || init(sample) == 0
}

// Whether the frame line is high and nothing resets.
#[tactic(auto, unfolding(crate::specs::Sample::is_idle_sample))]
pub fn is_idle_sample(sample: u16) -> bool
    ensures { result ≡ is_idle_sample sample }
{
    !is_reset(sample) && frame_line(sample) == 1
}

// The sample at place k of a stream.
pub fn sample_at(stream: &[u8], k: usize) -> u16
    requires { 2 * k + 1 < length stream.now }
    ensures { result ≡ sample_at stream.now k }
{
    two_at(stream, 2 * k)
}
