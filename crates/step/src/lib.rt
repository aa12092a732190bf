// Step by value: a device, the image and one sample give the next device, one answer byte and the changed image.
#![tactic(auto)]

ghost use Rattle.std.specs.Prelude.{◌≡◌};
ghost use Rattle.step.specs.Step.{step_told, stepped_of, stored_of, Steps};

use basics::Refusal;
use clock::{DeviceClocked, clock_device};
use part::Part;
use record::{Device, voltage};
use soundness::Sound;

// The numbered answer of a step, its answer byte and the next device, as C gets them.
#[repr(C)]
#[derive(Clone, Copy)]
pub struct Stepped {
    pub number: u32,
    pub answer: u32,
    pub device: Device,
}

// One clock, or the refusal with the image as it was.
#[tactic(auto, using(crate::proofs::Doors::unsound, crate::proofs::Doors::mismatched, crate::proofs::Doors::overvolted, crate::proofs::Doors::accepted), unfolding(crate::specs::Step::stepped_of, crate::specs::Step::stored_of))]
fn try_step(device: Device, image: &mut [u8], sample: u16) -> Result<DeviceClocked, Refusal>
    ensures given { step_told device result ≡ stepped_of device image.old sample }
    ensures stored { image.new ≡ stored_of device image.old sample }
{
    let device = Sound::new(device).ok_or(Refusal::Unsound)?;
    let image = image
        .as_mut_array::<{ Part::BYTES }>()
        .ok_or(Refusal::Image)?;
    if voltage(sample) == 3 {
        return Err(Refusal::Overvolted);
    }
    Ok(clock_device(device, image, sample))
}

// Step: a device, the image and one sample, one by one as C hands them in.
pub fn step(device: Device, image: &mut [u8], sample: u16) -> Stepped
    ensures { Steps device image.old sample result image.new }
{
    match try_step(device, image, sample) {
        Ok(a) => Stepped {
            number: 0,
            answer: a.answer as u32,
            device: a.device,
        },
        Err(refusal) => Stepped {
            number: refusal.number(),
            answer: 0,
            device,
        },
    }
}
