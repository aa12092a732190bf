// Settle: one idle sample repeated until status bit 7 is 1, or as often as is allowed.
#![tactic(auto)]

ghost use Rattle.std.specs.Prelude.{◌≡◌, true};
ghost use Rattle.record.specs.Sample.{is_idle_sample};
ghost use Rattle.clock.specs.Fold.{world};
ghost use Rattle.settle.specs.Settle.{is_ready, stop, settling, settle_told, settled_of, image_settled, Settles};

use basics::Refusal;
use clock::clock_device;
use fast_forward::{Forwarded, forward};
use part::{Image, Part};
use record::{Device, is_idle_sample, voltage};
use soundness::Sound;
use status::status;

// The numbered answer of a settle, how many samples were done, and the device after them, as C gets them.
#[repr(C)]
#[derive(Clone, Copy)]
pub struct Settled {
    pub number: u32,
    pub count: u32,
    pub device: Device,
}

// Whether status bit 7 is 1. Not inlined: the device stays whole in `wait`, and is not taken apart and put together on each clock.
#[inline(never)]
#[tactic(auto, unfolding(crate::specs::Settle::is_ready))]
fn is_ready(d: Device) -> bool
    ensures { result ≡ is_ready d }
{
    status(d.controller) / 128 % 2 == 1
}

// A sound device through one idle sample, up to `limit` times. A frame in progress goes clock by clock; behind it only
// the controller moves, from one due effect to the next. The device stays sound, so that is not tested again; it is a plain device in
// the loop, where the invariant says that it is sound.
#[tactic(auto, using(fast_forward::proofs::Laws::forwarding_most, clock::proofs::Kept::device_clock_sound, crate::proofs::Turns::stops, crate::proofs::Turns::goes_on))]
fn wait(device: Sound<Device>, image: &mut Image, sample: u16, limit: u32) -> Forwarded<Device>
    requires { is_idle_sample sample ≡ true }
    ensures { stop result.count (is_ready result.after) (world result.after image.new)
        ≡ settling sample limit 0 (world device.value image.old) }
{
    let mut d = device.value;
    for count in 0..limit {
        if is_ready(d) {
            return Forwarded { count, after: d };
        }
        if d.frame.kind == 0 {
            let controller = Sound {
                value: d.controller,
            };
            let p = forward(controller, image, limit - count);
            return Forwarded {
                count: count + p.count,
                after: Device {
                    controller: p.after,
                    ..d
                },
            };
        }
        d = clock_device(Sound { value: d }, image, sample).device;
    }
    Forwarded {
        count: limit,
        after: d,
    }
}

// All but the number that tells whether status bit 7 is 1, or the refusal with the image as it was. The first three tests are those of
// a step; as a function of their own they would have to lend the image on.
#[tactic(auto, using(crate::proofs::Doors::unsound, crate::proofs::Doors::mismatched, crate::proofs::Doors::overvolted, crate::proofs::Doors::restless, crate::proofs::Doors::accepted), unfolding(crate::specs::Settle::settled_of, crate::specs::Settle::image_settled))]
fn try_settle(
    device: Device,
    image: &mut [u8],
    sample: u16,
    limit: u32,
) -> Result<Forwarded<Device>, Refusal>
    ensures given { settle_told device result ≡ settled_of device image.old sample limit }
    ensures stored { image.new ≡ image_settled device image.old sample limit }
{
    let device = Sound::new(device).ok_or(Refusal::Unsound)?;
    let image = image
        .as_mut_array::<{ Part::BYTES }>()
        .ok_or(Refusal::Image)?;
    if voltage(sample) == 3 {
        return Err(Refusal::Overvolted);
    }
    if !is_idle_sample(sample) {
        return Err(Refusal::Busy);
    }
    Ok(wait(device, image, sample, limit))
}

// Settle, of what C hands in one by one: refused with nothing changed, done with the least count, or 10 with all of `limit` done.
pub fn settle(device: Device, image: &mut [u8], sample: u16, limit: u32) -> Settled
    ensures { Settles device image.old sample limit result image.new }
{
    match try_settle(device, image, sample, limit) {
        Ok(w) => Settled {
            number: if is_ready(w.after) {
                0
            } else {
                Refusal::Unready.number()
            },
            count: w.count,
            device: w.after,
        },
        Err(refusal) => Settled {
            number: refusal.number(),
            count: 0,
            device,
        },
    }
}
