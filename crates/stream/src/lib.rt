// Run: from power-up through a stream of samples.
#![tactic(auto)]

ghost use Rattle.std.specs.Prelude.{◌≡◌, ◌/◌, ◌≤◌, length, OnOk};
ghost use Rattle.basics.specs.Refusals.{number_of};
ghost use Rattle.record.specs.Sample.{samples};
ghost use Rattle.stream.specs.Run.{overvolted, stream_number, run_told, ran, ran_of, Runs};

use basics::Refusal;
use fast_run::run_samples;
use part::{Part, fresh, strap_count};
use record::{Chip, sample_at, voltage};
use soundness::Sound;
use status::status;
use units::Times;

// The numbered answer of a run, samples done, the status register and the spoiled marks, as C gets them.
#[repr(C)]
#[derive(Clone, Copy)]
pub struct Report {
    pub number: u32,
    pub samples: u32,
    pub status: u32,
    pub marks: u32,
}

// Whether some sample has voltage class 3. It does not stop at the first, so that a stream without one, as most are, goes
// several samples at a time.
fn is_overvolted(stream: &[u8]) -> bool
    ensures { result ≡ overvolted (samples stream.now) }
{
    (0..stream.len() / 2).fold(false, |over, k| over | (voltage(sample_at(stream, k)) == 3))
}

// Whether a stream and an answer buffer will do. Every sample is tested here, and none is stepped.
#[tactic(auto, using(basics::proofs::Rules::cases), unfolding(crate::specs::Run::stream_number, crate::specs::Run::misshapen))]
fn test_stream(stream: &[u8], answers: &[u8]) -> Result<(), Refusal>
    ensures number { number_of result ≡ stream_number stream.now answers.now }
    ensures fits { OnOk result ((length stream.now ≤ 131072) × (length stream.now / 2 ≤ length answers.now)) }
{
    if 131072 < stream.len() || stream.len() % 2 == 1 {
        return Err(Refusal::Stream);
    }
    if answers.len() < stream.len() / 2 {
        return Err(Refusal::Room);
    }
    if is_overvolted(stream) {
        return Err(Refusal::Overvolted);
    }
    Ok(())
}

// A fresh device through the whole stream, of what C hands in, or the refusal with both buffers as they were. The chip is made here and not by
// `part::chip_of`, as in a power up: tried, and the search for this proof then stops at its limits.
#[tactic(auto, using(crate::proofs::Doors::mismatched, crate::proofs::Doors::unstrapped, crate::proofs::Doors::mistimed, crate::proofs::Doors::streamed, crate::proofs::Doors::refused_by, soundness::proofs::Fresh::fresh_sound, record::proofs::Samples::samples_length), unfolding(crate::specs::Run::ran_of))]
fn try_run(
    image: &mut [u8],
    stream: &[u8],
    answers: &mut [u8],
    part: u32,
    straps: u32,
    program: u32,
    slice: u32,
    pause: u32,
) -> Result<Report, Refusal>
    ensures { ran (run_told result) image.new answers.new
        ≡ ran_of image.old stream.now answers.old part straps program slice pause }
{
    let image = image
        .as_mut_array::<{ Part::BYTES }>()
        .ok_or(Refusal::Image)?;
    if strap_count(part) <= straps {
        return Err(Refusal::Straps);
    }
    let times = Times::new(program, slice, pause).ok_or(Refusal::Times)?;
    test_stream(stream, answers)?;
    let chip = Chip {
        part: part as u8,
        straps: straps as u8,
    };
    let up = Sound {
        value: fresh(chip, times),
    };
    let c = run_samples(up, image, stream, answers).controller;
    Ok(Report {
        number: 0,
        samples: (stream.len() / 2) as u32,
        status: status(c) as u32,
        marks: c.marks as u32,
    })
}

// Run: refused with nothing changed, or a fresh device through the whole stream.
pub fn run(
    image: &mut [u8],
    stream: &[u8],
    answers: &mut [u8],
    part: u32,
    straps: u32,
    program: u32,
    slice: u32,
    pause: u32,
) -> Report
    ensures { Runs image.old stream.now answers.old part straps program slice pause result
        image.new answers.new }
{
    match try_run(image, stream, answers, part, straps, program, slice, pause) {
        Ok(report) => report,
        Err(refusal) => Report {
            number: refusal.number(),
            samples: 0,
            status: 0,
            marks: 0,
        },
    }
}
