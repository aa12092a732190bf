// A device through a stream of samples: stretches that are known by looking ahead at once, all else clock by clock. What every
// stretch leaves is promised; how far one goes is speed, and not promised.
#![tactic(auto)]

ghost use Rattle.std.specs.Prelude.{◌≡◌, true, false, List, ◌++◌, ℕ, ◌+◌, ◌-◌, ◌*◌, ◌/◌, ◌≤◌, ◌<◌, length, drop, IsNone, IfSome};
ghost use Rattle.record.specs.declared.Device.{Device};
ghost use Rattle.soundness.specs.Sound.{sound_of};
ghost use Rattle.fast_forward.specs.Forward.{image_later, controller_before_due};
ghost use Rattle.bus.specs.declared.Asked.TheVariants.{Nothing};
ghost use Rattle.bus.specs.Frames.{asked_of};
ghost use Rattle.lookahead.specs.Lookahead.{address_at, stays_idle, whole_frame};
ghost use Rattle.access.specs.Read.{array_address};
ghost use Rattle.clock.specs.Fold.{world, through, answers_to};
ghost use Rattle.record.specs.Sample.{samples, is_reset, sample_at};
ghost use Rattle.fast_run.specs.Stretch.{device_later, world_later, Simulates, Stretched, Alone};

use access::{array_address, reach, value};
use basics::fill;
use bus::{Asked, ask, clock_frame, drive};
use clock::clock_device;
use fast_forward::{controller_before_due, forward};
use lookahead::{Ahead, FrameKind, address_at, answer_read, byte_at, end_frame, stays_idle};
use operation::{active_of, is_still};
use part::Image;
use record::{Chip, Controller, Device, Frame, is_reset, sample_at};
use soundness::Sound;

// The samples to run through, few enough for their clocks to be counted. Image and answers are lent beside it: with them in one
// struct every step would have to promise too that the stream stays.
#[derive(Clone, Copy)]
struct Course<'a> {
    pub ahead: Ahead<'a>,
    ghost few: { ahead.to ≤ 65536 },
}

// How far the bus has come alone from a place: the place of the next sample, and the frame then. The controller is behind it
// by as many clocks.
#[derive(Clone, Copy)]
struct BusAlone {
    pub from: usize,
    pub place: usize,
    pub frame: Frame,
    ghost forward: { from ≤ place },
}

// What a whole read asks for: the address, its place in the array, and the sample on which the value is fixed.
#[derive(Drop)]
struct Sought {
    pub address: u32,
    pub place: usize,
    pub sample: u16,
}

// The same of the read that begins at place k; `part` is the number of C's record.
fn sought_at(part: u8, stream: &[u8], k: usize) -> Sought
    requires { 2 * (k + 18) ≤ length stream.now }
    ensures address { result.address ≡ address_at part stream.now (k + 2) }
    ensures place { result.place ≡ array_address (address_at part stream.now (k + 2)) }
    ensures sample { result.sample ≡ sample_at stream.now (k + 14) }
{
    let address = address_at(part, stream, k + 2);
    Sought {
        address,
        place: array_address(address) as usize,
        sample: sample_at(stream, k + 14),
    }
}

// Whether the bus stops before a sample: it resets, or a whole write begins with it.
fn stops_before(ahead: &Ahead, chip: Chip, k: usize) -> bool
    requires { k < ahead.now.to }
    ensures { result ≡ false → is_reset (sample_at ahead.now.stream.now k) ≡ false }
{
    is_reset(sample_at(ahead.stream, k)) || ahead.is_whole_frame(chip, FrameKind::Write, k, 12)
}

// Whether a frame asks for nothing.
fn is_silent(f: Frame) -> bool
    ensures { result ≡ true → asked_of f ≡ Nothing }
{
    matches!(ask(f), Asked::Nothing)
}

// The frame after one clock of the bus alone, or none: it stops before a reset, before a whole write, and before a clock on which
// the frame asks for something.
fn clock_bus(chip: Chip, ahead: &Ahead, answers: &mut [u8], f: Frame, k: usize) -> Option<Frame>
    requires k_lt_to { k < ahead.now.to }
    requires wide { ahead.now.to ≤ length answers.old }
    ensures stops { IsNone result → answers.new ≡ answers.old }
    ensures alone { IfSome result (λ frame. (d : Device) (image : List ℕ) → d.part ≡ chip.part
        → d.straps ≡ chip.straps
        → Alone d image ahead.now.stream.now k f answers.old (k + 1) frame answers.new) }
{
    if stops_before(ahead, chip, k) {
        return None;
    }
    let frame = clock_frame(chip, f, sample_at(ahead.stream, k));
    if !is_silent(frame) {
        return None;
    }
    answers[k] = drive(frame);
    Some(frame)
}

// The bus alone, while nothing is due in the controller: idle stretches and whole reads at once, other clocks one by one until
// it stops. No `for`: a turn goes as far as its samples allow.
#[tactic(auto, using(crate::proofs::Leads::stays, crate::proofs::Whole::whole_room, crate::proofs::Steps::over))]
fn run_bus_alone(
    d: Sound<Device>,
    image: &Image,
    ahead: &Ahead,
    answers: &mut [u8],
    from: usize,
) -> BusAlone
    requires wide { ahead.now.to ≤ length answers.old }
    requires from_le_to { from ≤ ahead.now.to }
    requires from_bound { ahead.now.to - from ≤ controller_before_due d.value.controller }
    ensures begun { result.from ≡ from }
    ensures within { result.place ≤ ahead.now.to }
    ensures simulates { Simulates ahead.now.stream.now from (world d.value image.now) answers.old
        result.place (world_later d.value image.now (result.place - from) result.frame) answers.new }
{
    let d = d.value;
    let chip = d.chip();
    let stream = ahead.stream;
    let mut f = d.frame;
    let mut k = from;
    while k < ahead.to {
        if stays_idle(f, sample_at(stream, k)) {
            k = ahead.skip_idle(answers, k);
            f = end_frame(f);
        } else if ahead.is_whole_frame(chip, FrameKind::Read, k, 18) {
            let r = sought_at(d.part, stream, k);
            let byte = value(d, r.sample, r.address, image[r.place]);
            answer_read(answers, k, byte);
            f = Frame {
                kind: 1,
                clock: 18,
                byte,
                address: r.address,
            };
            k += 18;
        } else {
            let Some(next) = clock_bus(chip, ahead, answers, f, k) else {
                return BusAlone {
                    from,
                    place: k,
                    frame: f,
                };
            };
            f = next;
            k += 1;
        }
    }
    BusAlone {
        from,
        place: k,
        frame: f,
    }
}

// The device n clocks later, nothing having been said to its controller, with the frame that the bus has come to. Where no
// operation counts, its controller is not taken out and put back.
#[tactic(auto, using(fast_forward::proofs::Laws::forwarded, soundness::proofs::Clauses::controller_sound))]
fn device_later(d: Sound<Device>, image: &mut Image, frame: Frame, n: u32) -> Device
    ensures device { result ≡ device_later n frame d.value }
    ensures array { image.new ≡ image_later n d.value.controller image.old }
{
    let d = d.value;
    if is_still(active_of(d.controller)) {
        return Device { frame, ..d };
    }
    let p = forward(
        Sound {
            value: d.controller,
        },
        image,
        n,
    );
    Device {
        frame,
        controller: p.after,
        ..d
    }
}

// How far a stretch has come: the device, and the place of the next sample.
#[derive(Drop)]
struct Stretch {
    pub device: Device,
    pub place: usize,
}

// An idle stretch, with all that falls due in it, behind what the bus did alone, as in the two below.
#[tactic(auto, using(crate::proofs::Steps::over))]
fn stretch_idle(
    d: Sound<Device>,
    image: &mut Image,
    course: &Course,
    answers: &mut [u8],
    alone: BusAlone,
) -> Stretch
    requires wide { course.now.ahead.to ≤ length answers.old }
    requires place_lt_to { alone.place < course.now.ahead.to }
    requires rests { stays_idle alone.frame (sample_at course.now.ahead.stream.now alone.place) ≡ true }
    ensures { Stretched course.now.ahead.stream.now alone.place
        (world_later d.value image.old (alone.place - alone.from) alone.frame) answers.old
        course.now.ahead.to result.place (world result.device image.new) answers.new }
{
    let place = course.ahead.skip_idle(answers, alone.place);
    Stretch {
        device: device_later(
            d,
            image,
            end_frame(alone.frame),
            (place - alone.from) as u32,
        ),
        place,
    }
}

// A whole write, up to the clock on which it acts.
fn stretch_write(
    d: Sound<Device>,
    image: &mut Image,
    course: &Course,
    answers: &mut [u8],
    alone: BusAlone,
) -> Stretch
    requires wide { course.now.ahead.to ≤ length answers.old }
    requires place_bound { alone.place + 12 ≤ course.now.ahead.to }
    requires writes { whole_frame course.now.ahead.stream.now d.value.part d.value.straps 2
        alone.place course.now.ahead.to 12 ≡ true }
    ensures { Stretched course.now.ahead.stream.now alone.place
        (world_later d.value image.old (alone.place - alone.from) alone.frame) answers.old
        course.now.ahead.to result.place (world result.device image.new) answers.new }
{
    let at = alone.place;
    let behind = (at - alone.from) as u32;
    let stream = course.ahead.stream;
    let byte = byte_at(stream, at);
    let address = address_at(d.value.part, stream, at + 2);
    let last = Frame {
        kind: 2,
        clock: 12,
        byte,
        address,
    };
    let e = device_later(d, image, last, behind + 12);
    let r = reach(e, sample_at(stream, at + 11), address, byte);
    fill(answers, at, 12, 0);
    Stretch {
        device: r.after,
        place: at + 12,
    }
}

// One clock.
fn stretch_clock(
    d: Sound<Device>,
    image: &mut Image,
    ahead: &Ahead,
    answers: &mut [u8],
    at: usize,
) -> Stretch
    requires wide { ahead.now.to ≤ length answers.old }
    requires at_lt_to { at < ahead.now.to }
    ensures { Stretched ahead.now.stream.now at (world d.value image.old) answers.old
        ahead.now.to result.place (world result.device image.new) answers.new }
{
    let t = clock_device(d, image, sample_at(ahead.stream, at));
    answers[at] = t.answer;
    Stretch {
        device: t.device,
        place: at + 1,
    }
}

// The next stretch behind what the bus did alone: one of the three.
#[tactic(auto, using(crate::proofs::Whole::whole_room))]
fn stretch_on(
    d: Sound<Device>,
    image: &mut Image,
    course: &Course,
    answers: &mut [u8],
    alone: BusAlone,
) -> Stretch
    requires wide { course.now.ahead.to ≤ length answers.old }
    requires place_lt_to { alone.place < course.now.ahead.to }
    requires stays_sound { sound_of (device_later (alone.place - alone.from) alone.frame d.value) ≡ true }
    ensures { Stretched course.now.ahead.stream.now alone.place
        (world_later d.value image.old (alone.place - alone.from) alone.frame) answers.old
        course.now.ahead.to result.place (world result.device image.new) answers.new }
{
    let chip = d.value.chip();
    if stays_idle(alone.frame, sample_at(course.ahead.stream, alone.place)) {
        return stretch_idle(d, image, course, answers, alone);
    }
    if course
        .ahead
        .is_whole_frame(chip, FrameKind::Write, alone.place, 12)
    {
        return stretch_write(d, image, course, answers, alone);
    }
    let behind = (alone.place - alone.from) as u32;
    let e = Sound {
        value: device_later(d, image, alone.frame, behind),
    };
    stretch_clock(e, image, &course.ahead, answers, alone.place)
}

// The place from k on, n at most, up to which nothing is due in a controller.
fn place_before_due(c: Sound<Controller>, k: usize, n: usize) -> usize
    requires { k ≤ n }
    ensures k_le_result { k ≤ result }
    ensures result_le_n { result ≤ n }
    ensures before_due { result - k ≤ controller_before_due c.value }
{
    let ahead = controller_before_due(c) as usize;
    k + (n - k).min(ahead)
}

// The samples from place k on, as many as are known by looking ahead: what the bus does alone, and then an idle stretch with
// all that falls due in it, or a whole write, or else one clock.
#[tactic(auto, using(soundness::proofs::Clauses::controller_sound))]
fn run_stretch(
    d: Sound<Device>,
    image: &mut Image,
    course: &Course,
    answers: &mut [u8],
    k: usize,
) -> Stretch
    requires wide { course.now.ahead.to ≤ length answers.old }
    requires k_lt_to { k < course.now.ahead.to }
    ensures { Stretched course.now.ahead.stream.now k (world d.value image.old) answers.old
        course.now.ahead.to result.place (world result.device image.new) answers.new }
{
    let c = Sound {
        value: d.value.controller,
    };
    let before_due = Ahead {
        stream: course.ahead.stream,
        to: place_before_due(c, k, course.ahead.to),
    };
    let alone = run_bus_alone(d, image, &before_due, answers, k);
    if alone.place < course.ahead.to {
        return stretch_on(d, image, course, answers, alone);
    }
    let behind = (alone.place - k) as u32;
    Stretch {
        device: device_later(d, image, alone.frame, behind),
        place: alone.place,
    }
}

// A sound device through every sample, each with its answer byte. The device stays sound, so that is not tested again. No
// `for`: a stretch goes as far as its samples allow.
#[tactic(auto, using(crate::proofs::Leads::stays))]
pub fn run_samples(
    device: Sound<Device>,
    image: &mut Image,
    stream: &[u8],
    answers: &mut [u8],
) -> Device
    requires stream_len_bound { length stream.now ≤ 131072 }
    requires stream_in_bounds { length stream.now / 2 ≤ length answers.old }
    ensures { (world result image.new ≡ through (samples stream.now) (world device.value image.old))
        × (answers.new
        ≡ answers_to (samples stream.now) (world device.value image.old)
        ++ drop (length (samples stream.now)) answers.old) }
{
    let n = stream.len() / 2;
    let course = Course {
        ahead: Ahead { stream, to: n },
    };
    let mut d = device;
    let mut k: usize = 0;
    while k < n {
        let t = run_stretch(d, image, &course, answers, k);
        d = Sound { value: t.device };
        k = t.place;
    }
    d.value
}
