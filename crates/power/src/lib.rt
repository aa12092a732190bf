// Power up and set times, and what a host may ask of a device.
#![tactic(auto)]

ghost use Rattle.std.specs.Prelude.{◌≡◌};
ghost use Rattle.units.specs.Units.{times};
ghost use Rattle.part.specs.Fresh.{fresh_of};
ghost use Rattle.power.specs.Power.{powered_up, times_set, up_told, set_told, PowersUp, SetsTimes};
ghost use Rattle.power.specs.Told.{TellsStatus, TellsMarks};

use basics::Refusal;
use part::{Fwh, Kind, chip_of, fresh};
use record::Device;
use soundness::{Sound, Soundness};
use status::status;
use units::Times;

// A number and the device that goes with it, as C gets them.
#[repr(C)]
#[derive(Clone, Copy)]
pub struct Powered {
    pub number: u32,
    pub device: Device,
}

// The FWH device of straps 0 and times 10, 3,906, 30, which goes with a refused power up.
#[tactic(auto, unfolding(units::specs::Units::times_fit, units::specs::Units::in_range, basics::specs::All::all))]
fn spare() -> Device
    ensures { result ≡ fresh_of 0 0 (times 10 3906 30) }
{
    Fwh::fresh(0, Times::of(10, 3906, 30))
}

// The device as it comes up; part, straps and times are numbers, as C hands them in.
#[tactic(auto, using(basics::proofs::Rules::cases, crate::proofs::Laws::power_3, crate::proofs::Laws::power_4, crate::proofs::Laws::power_0))]
fn powered_up(
    part: u32,
    straps: u32,
    program: u32,
    slice: u32,
    pause: u32,
) -> Result<Device, Refusal>
    ensures { up_told result ≡ powered_up part straps program slice pause }
{
    let chip = chip_of(part, straps).ok_or(Refusal::Straps)?;
    let times = Times::new(program, slice, pause).ok_or(Refusal::Times)?;
    Ok(fresh(chip, times))
}

#[tactic(auto, unfolding(crate::specs::Power::power_refused))]
pub fn power_up(part: u32, straps: u32, program: u32, slice: u32, pause: u32) -> Powered
    ensures { PowersUp part straps program slice pause result }
{
    match powered_up(part, straps, program, slice, pause) {
        Ok(device) => Powered { number: 0, device },
        Err(refusal) => Powered {
            number: refusal.number(),
            device: spare(),
        },
    }
}

// The device with other times, one by one as C hands them in.
#[tactic(auto, using(crate::proofs::Laws::set_1, crate::proofs::Laws::set_4, crate::proofs::Laws::set_0))]
fn times_set(device: Device, program: u32, slice: u32, pause: u32) -> Result<Device, Refusal>
    ensures { set_told device result ≡ times_set device program slice pause }
{
    if !device.is_sound() {
        return Err(Refusal::Unsound);
    }
    let times = Times::new(program, slice, pause).ok_or(Refusal::Times)?;
    Ok(Device { times, ..device })
}

pub fn set_times(device: Device, program: u32, slice: u32, pause: u32) -> Powered
    ensures { SetsTimes device program slice pause result }
{
    match times_set(device, program, slice, pause) {
        Ok(next) => Powered {
            number: 0,
            device: next,
        },
        Err(refusal) => Powered {
            number: refusal.number(),
            device,
        },
    }
}

// The status register as a host asks for it, 0 of a device that is not sound.
#[tactic(auto, using(basics::proofs::Rules::cases), unfolding(crate::specs::Told::status_told))]
pub fn status_told(d: Device) -> u32
    ensures { TellsStatus d result }
{
    Sound::new(d).map_or(0, |d| status(d.value.controller) as u32)
}

// The spoiled marks likewise, bit b for block b.
#[tactic(auto, using(basics::proofs::Rules::cases), unfolding(crate::specs::Told::marks_told))]
pub fn marks_told(d: Device) -> u32
    ensures { TellsMarks d result }
{
    Sound::new(d).map_or(0, |d| d.value.controller.marks as u32)
}
