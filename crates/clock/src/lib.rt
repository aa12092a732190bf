// One clock, in order: reset, or the controller with its effect on the image and then the bus.
#![tactic(auto)]

ghost use Rattle.std.specs.Prelude.{◌≡◌, true};
ghost use Rattle.soundness.specs.Sound.{controller_fits};
ghost use Rattle.clock.specs.Clock.{reset_device, is_cut, served_of, device_clock, image_after};
ghost use Rattle.clock.specs.Eventless.{is_eventless};

use access::{array_address, reach, value};
use bus::{Asked, ask, clock_frame, drive};
use command::Judged;
use effect::{Effect, apply};
use operation::{active_of, clock_controller, is_still, reset};
use part::Image;
use permission::Denial;
use record::{Device, Frame, frame_line, idle_frame, is_reset};
use soundness::Sound;

// What happened on a clock, beside the device: the effect on the array, the judgement that was made, and whether an
// operation finished or was cut off. Which one it was is read off the device before it. Two flags, as a count and a reset give them.
#[derive(Clone, Copy)]
pub struct Happened {
    pub effect: Effect,
    pub verdict: Option<Result<(), Denial>>,
    pub finished: bool,
    pub cut: bool,
}

#[derive(Clone, Copy)]
pub struct DeviceClocked {
    pub device: Device,
    pub answer: u8,
    pub happened: Happened,
}

#[tactic(auto, unfolding(crate::specs::Clock::reset_device))]
fn reset_device(d: Device) -> Device
    requires { controller_fits d.controller ≡ true }
    ensures { result ≡ reset_device d }
{
    let controller = Sound {
        value: d.controller,
    };
    Device {
        locks: [1; 16],
        frame: idle_frame(),
        controller: reset(controller),
        ..d
    }
}

// The bus, which sees device and image as the controller left them on this clock. The next device is made where it is known what is
// asked: made before, it would lie in memory and be copied on each clock of a frame.
#[tactic(auto, unfolding(crate::specs::Clock::served_of))]
fn serve(d: Device, image: &Image, sample: u16) -> Judged<Device>
    ensures { result ≡ served_of d image.now sample }
{
    let frame = clock_frame(d.chip(), d.frame, sample);
    match ask(frame) {
        Asked::Nothing => Judged {
            after: Device { frame, ..d },
            verdict: None,
        },
        Asked::Read(address) => {
            let at = array_address(address) as usize;
            let next = Device { frame, ..d };
            let byte = value(next, sample, address, image[at]);
            let fixed = Frame { byte, ..frame };
            Judged {
                after: Device { frame: fixed, ..d },
                verdict: None,
            }
        }
        Asked::Write(address, byte) => reach(Device { frame, ..d }, sample, address, byte),
    }
}

// Whether the bus is idle and stays so and no operation counts. Then a clock without a reset changes nothing.
#[tactic(auto, using(basics::proofs::Rules::cases), unfolding(crate::specs::Eventless::is_eventless))]
fn is_eventless(d: Device, sample: u16) -> bool
    ensures { result ≡ is_eventless d sample }
{
    frame_line(sample) != 0 && d.frame.kind == 0 && is_still(active_of(d.controller))
}

// One clock of a sound device on a whole image. It has no refusals.
#[tactic(auto, using(operation::proofs::FitsIn::controller_clock_fits, soundness::proofs::Clauses::controller_sound, crate::proofs::Eventless::eventless), unfolding(crate::specs::Clock::device_clock, crate::specs::Clock::image_after, crate::specs::Clock::is_cut))]
pub fn clock_device(d: Sound<Device>, image: &mut Image, sample: u16) -> DeviceClocked
    ensures { (result ≡ device_clock d.value image.old sample)
        × (image.new ≡ image_after d.value image.old sample) }
{
    let old = d.value;
    let quiet = Happened {
        effect: Effect::Nothing,
        verdict: None,
        finished: false,
        cut: false,
    };
    if is_reset(sample) {
        return DeviceClocked {
            device: reset_device(old),
            answer: 0,
            happened: Happened {
                cut: old.controller.outer.kind != 0,
                ..quiet
            },
        };
    }
    if is_eventless(old, sample) {
        return DeviceClocked {
            device: old,
            answer: 0,
            happened: quiet,
        };
    }
    let controller = Sound {
        value: old.controller,
    };
    let k = clock_controller(controller);
    apply(k.effect, image);
    let counted = Device {
        controller: k.after,
        ..old
    };
    let r = serve(counted, image, sample);
    DeviceClocked {
        device: r.after,
        answer: drive(r.after.frame),
        happened: Happened {
            effect: k.effect,
            verdict: r.verdict,
            finished: k.finished,
            cut: false,
        },
    }
}
