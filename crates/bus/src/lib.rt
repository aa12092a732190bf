// The frames: what each clock of the bus takes, asks and drives.
#![tactic(auto)]

ghost use Rattle.std.specs.Prelude.{◌≡◌, ◌<◌};
ghost use Rattle.bus.specs.Frames.{shifted, headed, cycled, is_chosen, addressed, headed_lpc, read_on, write_on, next_of, begun, frame_clock, asked_of, driven_of};

use part::{Fwh, Kind, Lpc, window_of};
use record::{Chip, Frame, Nibble, frame_line, idle_frame, lines};

// `part` is the number of C's record: the definitions speak of any, and an enum of the two parts would ask for one of them.

// The frame line is low: a new frame, or none.
#[tactic(auto, using(basics::proofs::Rules::cases), unfolding(crate::specs::Frames::begun))]
fn begin(part: u8, lines: u8) -> Frame
    ensures { result ≡ begun part lines }
{
    let kind = match (part, lines) {
        (Lpc::NUMBER, 0) => 3,
        (Lpc::NUMBER, _) => return idle_frame(),
        (_, 13) => 1,
        (_, 14) => 2,
        _ => return idle_frame(),
    };
    Frame {
        kind,
        clock: 1,
        ..idle_frame()
    }
}

// The address with one more nibble.
#[tactic(auto, using(basics::proofs::Rules::cases), unfolding(crate::specs::Frames::shifted))]
pub fn shift(part: u8, address: u32, nibble: Nibble) -> u32
    ensures { result ≡ shifted part address nibble }
{
    let kept = if part == Lpc::NUMBER {
        address % 0x10000000
    } else {
        address % 0x1000000
    };
    kept * 16 + (nibble.value() as u32)
}

// FWH's head, the same for both kinds: strap, address, size.
#[tactic(auto, using(basics::proofs::Rules::cases), unfolding(crate::specs::Frames::headed))]
fn head(straps: u8, f: Frame, lines: Nibble) -> Frame
    ensures { result ≡ headed straps f lines }
{
    match f.clock {
        1 if lines.value() == straps => Frame {
            clock: 2,
            byte: 0,
            address: 0,
            ..f
        },
        1 => idle_frame(),
        ..9 => Frame {
            clock: f.clock + 1,
            byte: 0,
            address: shift(Fwh::NUMBER, f.address, lines),
            ..f
        },
        _ if lines.value() == 0 => Frame {
            clock: 10,
            byte: 0,
            ..f
        },
        _ => idle_frame(),
    }
}

// The cycle type, from which on the direction of an LPC frame is known.
#[tactic(auto, using(basics::proofs::Rules::cases), unfolding(crate::specs::Frames::cycled))]
fn cycle(f: Frame, lines: u8) -> Frame
    requires { f.clock < 10 }
    ensures { result ≡ cycled f lines }
{
    let kind = match lines / 2 {
        2 => 1,
        3 => 2,
        _ => return idle_frame(),
    };
    Frame {
        kind,
        clock: f.clock + 1,
        ..idle_frame()
    }
}

// Whether an LPC address is for the part with these straps.
#[tactic(auto, using(basics::proofs::Rules::cases), unfolding(crate::specs::Frames::is_chosen))]
pub fn is_chosen(straps: u8, address: u32) -> bool
    ensures { result ≡ is_chosen straps address }
{
    address / 0x800000 == 0x1FF && address / 0x100000 % 4 == window_of(straps)
}

// The address so far, judged once it is whole.
#[tactic(auto, using(basics::proofs::Rules::cases), unfolding(crate::specs::Frames::addressed))]
fn address_on(straps: u8, f: Frame, address: u32) -> Frame
    ensures { result ≡ addressed straps f address }
{
    if f.clock < 9 {
        return Frame {
            clock: f.clock + 1,
            byte: 0,
            address,
            ..f
        };
    }
    if is_chosen(straps, address) {
        return Frame {
            clock: 10,
            byte: 0,
            address,
            ..f
        };
    }
    idle_frame()
}

// LPC's head: cycle type, address. No twin of FWH's: from clock 2 on the two take other things at other clocks.
#[tactic(auto, using(basics::proofs::Rules::cases), unfolding(crate::specs::Frames::headed_lpc))]
fn head_lpc(straps: u8, f: Frame, lines: Nibble) -> Frame
    requires { f.clock < 10 }
    ensures { result ≡ headed_lpc straps f lines }
{
    if f.kind == 3 {
        return cycle(f, lines.value());
    }
    address_on(straps, f, shift(Lpc::NUMBER, f.address, lines))
}

// The rest of a read: the frame goes on to its last clock.
#[tactic(auto, using(basics::proofs::Rules::cases), unfolding(crate::specs::Frames::read_on))]
fn read_on(f: Frame) -> Frame
    ensures { result ≡ read_on f }
{
    if f.clock < 18 {
        return Frame {
            clock: f.clock + 1,
            ..f
        };
    }
    idle_frame()
}

// The rest of a write: two nibbles of data, the lower first, and on to its last clock.
#[tactic(auto, using(basics::proofs::Rules::cases), unfolding(crate::specs::Frames::write_on))]
fn write_on(f: Frame, lines: Nibble) -> Frame
    ensures { result ≡ write_on f lines }
{
    match f.clock {
        10 => Frame {
            clock: 11,
            byte: lines.value(),
            ..f
        },
        11 => Frame {
            clock: 12,
            byte: f.byte % 16 + 16 * lines.value(),
            ..f
        },
        ..16 => Frame {
            clock: f.clock + 1,
            ..f
        },
        _ => idle_frame(),
    }
}

#[tactic(auto, using(basics::proofs::Rules::cases), unfolding(crate::specs::Frames::next_of))]
fn next(chip: Chip, f: Frame, lines: Nibble) -> Frame
    ensures { result ≡ next_of chip.part chip.straps f lines }
{
    match (f.clock, chip.part, f.kind) {
        (..10, Lpc::NUMBER, _) => head_lpc(chip.straps, f, lines),
        (..10, _, _) => head(chip.straps, f, lines),
        (_, _, 1) => read_on(f),
        _ => write_on(f, lines),
    }
}

// One clock of the bus: the frame after it.
#[tactic(auto, using(basics::proofs::Rules::cases), unfolding(crate::specs::Frames::frame_clock))]
pub fn clock_frame(chip: Chip, f: Frame, sample: u16) -> Frame
    ensures { result ≡ frame_clock chip.part chip.straps f sample }
{
    if frame_line(sample) == 0 {
        return begin(chip.part, lines(sample).value());
    }
    if f.kind == 0 {
        return f;
    }
    next(chip, f, lines(sample))
}

// What a frame asks on the clock that it has come to. No Option: that nothing is asked is one of three answers, matched as one.
#[derive(Clone, Copy)]
pub enum Asked {
    Nothing,
    // The value at an address, fixed now.
    Read(u32),
    // A byte for an address, acting now.
    Write(u32, u8),
}

#[tactic(auto, using(basics::proofs::Rules::cases), unfolding(crate::specs::Frames::asked_of))]
pub fn ask(f: Frame) -> Asked
    ensures { result ≡ asked_of f }
{
    match (f.kind, f.clock) {
        (1, 15) => Asked::Read(f.address),
        (2, 12) => Asked::Write(f.address, f.byte),
        _ => Asked::Nothing,
    }
}

// The answer byte of the clock that a frame has come to.
#[tactic(auto, using(basics::proofs::Rules::cases), unfolding(crate::specs::Frames::driven_of))]
pub fn drive(f: Frame) -> u8
    ensures { result ≡ driven_of f }
{
    match (f.kind, f.clock) {
        (1, ..13) => 0,
        (1, ..15) => 0x15,
        (1, 15) => 0x10,
        (1, 16) => 0x10 + f.byte % 16,
        (1, 17) => 0x10 + f.byte / 16,
        (1, _) => 0x1F,
        (2, 15) => 0x10,
        (2, 16) => 0x1F,
        _ => 0,
    }
}
