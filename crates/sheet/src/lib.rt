// The bay sheet: the straps and the three times of a bay in thirteen bytes, read and written.
#![tactic(auto)]

ghost use Rattle.std.specs.Prelude.{◌≡◌, ◌+◌, ◌<◌, length};
ghost use Rattle.basics.specs.Refusals.{number_of};
ghost use Rattle.sheet.specs.Sheet.{two, laid, field_at, of_layout, times_in, sheet_written, write_of, Reads, ReadsNumbers, WritesSheet};

use basics::{Refusal, two_at};
use units::{Micros, Times};

// The straps and the times of a bay.
#[derive(Clone, Copy)]
pub struct Bay {
    pub straps: u8,
    pub times: Times,
}

// The numbered answer of a reading, with the values or zeros, as C gets them.
#[repr(C)]
#[derive(Clone, Copy)]
pub struct Sheet {
    pub number: u32,
    pub straps: u32,
    pub program: u32,
    pub slice: u32,
    pub pause: u32,
}

#[tactic(auto, using(basics::proofs::Rules::cases), unfolding(crate::specs::Sheet::field_at, basics::specs::All::all))]
fn field_at(s: &[u8], at: usize, tag: u8, size: u16) -> bool
    requires { at + 2 < length s.now }
    ensures { result ≡ field_at s.now at tag size }
{
    s[at] == tag && two_at(s, at + 1) == size
}

#[tactic(auto, using(basics::proofs::Rules::cases), unfolding(crate::specs::Sheet::of_layout, basics::specs::All::all))]
fn of_layout(s: &[u8]) -> bool
    ensures { result ≡ of_layout s.now }
{
    s.len() == 13 && field_at(s, 0, 1, 1) && field_at(s, 4, 2, 6)
}

fn times_in(s: &[u8]) -> Times
    requires { 12 < length s.now }
    ensures { result ≡ times_in s.now }
{
    Times {
        program: Micros(two_at(s, 7)),
        slice: Micros(two_at(s, 9)),
        pause: Micros(two_at(s, 11)),
    }
}

#[tactic(auto, using(basics::proofs::Rules::cases, crate::proofs::Places::thirteen), unfolding(crate::specs::Sheet::read_of))]
pub fn read(sheet: &[u8]) -> Result<Bay, Refusal>
    ensures { Reads sheet.now result }
{
    if !of_layout(sheet) {
        return Err(Refusal::Layout);
    }
    let straps = sheet[3];
    if 15 < straps {
        return Err(Refusal::Straps);
    }
    let times = times_in(sheet);
    if !times.fit() {
        return Err(Refusal::Times);
    }
    Ok(Bay { straps, times })
}

// A reading as numbers alone.
pub fn read_numbers(sheet: &[u8]) -> Sheet
    ensures { ReadsNumbers sheet.now result }
{
    match read(sheet) {
        Ok(Bay { straps, times }) => Sheet {
            number: 0,
            straps: straps as u32,
            program: times.program.0 as u32,
            slice: times.slice.0 as u32,
            pause: times.pause.0 as u32,
        },
        Err(refusal) => Sheet {
            number: refusal.number(),
            straps: 0,
            program: 0,
            slice: 0,
            pause: 0,
        },
    }
}

// A number in two bytes, lower first.
fn two(n: u16) -> [u8; 2]
    ensures { result ≡ two n }
{
    n.to_le_bytes()
}

#[tactic(auto, unfolding(crate::specs::Sheet::laid))]
fn bytes_of(straps: u8, t: Times) -> [u8; 13]
    ensures { result ≡ laid straps t.program.0 t.slice.0 t.pause.0 }
{
    let [program, program_high] = two(t.program.0);
    let [slice, slice_high] = two(t.slice.0);
    let [pause, pause_high] = two(t.pause.0);
    [
        1,
        1,
        0,
        straps,
        2,
        6,
        0,
        program,
        program_high,
        slice,
        slice_high,
        pause,
        pause_high,
    ]
}

// The bytes in front of a buffer that has room for them, or the refusal with the buffer as it was. Straps and times are C's numbers.
#[tactic(auto, using(basics::proofs::Rules::cases), unfolding(crate::specs::Sheet::write_of))]
fn try_write(
    buffer: &mut [u8],
    straps: u32,
    program: u32,
    slice: u32,
    pause: u32,
) -> Result<(), Refusal>
    ensures { sheet_written (number_of result) buffer.new ≡ write_of buffer.old straps program slice pause }
{
    if 15 < straps {
        return Err(Refusal::Straps);
    }
    let times = Times::new(program, slice, pause).ok_or(Refusal::Times)?;
    let front = buffer.first_chunk_mut::<13>().ok_or(Refusal::Room)?;
    *front = bytes_of(straps as u8, times);
    Ok(())
}

// The number of that, as C gets it.
pub fn write(buffer: &mut [u8], straps: u32, program: u32, slice: u32, pause: u32) -> u32
    ensures { WritesSheet buffer.old straps program slice pause result buffer.new }
{
    match try_write(buffer, straps, program, slice, pause) {
        Ok(()) => 0,
        Err(refusal) => refusal.number(),
    }
}
