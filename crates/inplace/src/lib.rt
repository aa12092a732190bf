// The step over a device that the host keeps: it takes the record out, steps it by value and, where the step was done,
// puts the next one back. A refusal stores nothing.
#![tactic(auto)]

ghost use Rattle.inplace.specs.Clocked.{StepsInPlace};

use record::Device;
use step::step;

// The numbered answer of a step and its answer byte, as C gets them; the next device stands where the last one stood.
#[repr(C)]
#[derive(Clone, Copy)]
pub struct Clocked {
    pub number: u32,
    pub answer: u32,
}

// The step by value answers as C has it, by a number: 0 is done.
#[tactic(auto, using(step::proofs::Doors::refused), unfolding(crate::specs::Clocked::clocked_of))]
pub fn pod_clock(device: &mut Device, image: &mut [u8], sample: u16) -> Clocked
    ensures { StepsInPlace device.old image.old sample result device.new image.new }
{
    let s = step(*device, image, sample);
    if s.number == 0 {
        *device = s.device;
    }
    Clocked {
        number: s.number,
        answer: s.answer,
    }
}
