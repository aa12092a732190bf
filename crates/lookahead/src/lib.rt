// What of a stream is known by looking ahead: stretches of an idle bus, and frames that lie in it whole.
#![tactic(auto)]

ghost use Rattle.std.specs.Prelude.{◌≡◌, true, false, ◌+◌, ◌*◌, ◌≤◌, ◌<◌, length};
ghost use Rattle.record.specs.Sample.{lines, is_idle_sample, sample_at};
ghost use Rattle.basics.specs.Bytes.{put};
ghost use Rattle.lookahead.specs.Lookahead.{is_start, all_idle, address_at, start_of, head_fits, is_frame_over, stays_idle, ended_frame, whole_frame, sixteen_idle, byte_at, read_answers, number_of, Skipped};

use basics::fill;
use bus::{drive, is_chosen, shift};
use part::{Kind, Lpc};
use record::{
    Chip, Frame, Nibble, frame_line, idle_frame, is_idle_sample, is_reset, lines, sample_at,
};

// The kinds of frame that are looked for, by their numbers: a read or a write, each of known direction. Nothing makes a NoFrame; it
// is here so that a kind of 0 may be asked for as well.
#[derive(Clone, Copy)]
pub enum FrameKind {
    NoFrame = 0,
    Read = 1,
    Write = 2,
}

impl FrameKind {
    fn number(self) -> u8
        ensures these { result ≡ number_of self }
        ensures small { result < 3 }
    {
        self as u8
    }
}

// What lies ahead: the samples of a stream before place `to`. A place among them is another one at each call, and stays a number.
#[derive(Clone, Copy)]
pub struct Ahead<'a> {
    pub stream: &'a [u8],
    pub to: usize,
    ghost inside: { 2 * to ≤ length stream.now },
}

// Whether a frame begins with this nibble.
#[tactic(auto, using(basics::proofs::Rules::cases), unfolding(crate::specs::Lookahead::is_start))]
fn is_start(sample: u16, nibble: u8) -> bool
    ensures { result ≡ is_start nibble sample }
{
    !is_reset(sample) && frame_line(sample) == 0 && lines(sample).value() == nibble
}

// Whether so many samples are idle. It looks at all of them, so that several are looked at in one step.
fn are_idle(stream: &[u8], from: usize, count: usize) -> bool
    requires { 2 * (from + count) ≤ length stream.now }
    ensures { result ≡ all_idle stream.now from count }
{
    (from..from + count).fold(true, |all, k| all & is_idle_sample(sample_at(stream, k)))
}

// The nibble on the lines.
fn lines_at(stream: &[u8], k: usize) -> Nibble
    requires { 2 * k + 1 < length stream.now }
    ensures { result ≡ lines (sample_at stream.now k) }
{
    lines(sample_at(stream, k))
}

// `part` is the number of C's record: the definitions speak of any, and an enum of the two parts would ask for one of them.

// The address from a place on: seven nibbles, on LPC eight.
pub fn address_at(part: u8, stream: &[u8], from: usize) -> u32
    requires { 2 * (from + 8) ≤ length stream.now }
    ensures { result ≡ address_at part stream.now from }
{
    let nibbles = if part == Lpc::NUMBER { 8 } else { 7 };
    (from..from + nibbles).fold(0, |address, k| shift(part, address, lines_at(stream, k)))
}

// The nibble with which a frame of a kind begins.
#[tactic(auto, using(basics::proofs::Rules::cases), unfolding(crate::specs::Lookahead::start_of))]
fn start_of(part: u8, kind: FrameKind) -> u8
    ensures { result ≡ start_of part (number_of kind) }
{
    if part == Lpc::NUMBER {
        0
    } else {
        12 + kind.number()
    }
}

// Whether the head of a frame is for this part.
#[tactic(auto, using(basics::proofs::Rules::cases), unfolding(crate::specs::Lookahead::head_fits))]
fn head_fits(stream: &[u8], chip: Chip, kind: FrameKind, k: usize) -> bool
    requires { 2 * (k + 10) ≤ length stream.now }
    ensures { result ≡ head_fits stream.now chip.part chip.straps (number_of kind) k }
{
    let second = lines_at(stream, k + 1).value();
    if chip.part == Lpc::NUMBER {
        return second / 2 == 1 + kind.number()
            && is_chosen(chip.straps, address_at(chip.part, stream, k + 2));
    }
    second == chip.straps && lines_at(stream, k + 9).value() == 0
}

// Whether no frame is in progress, or one with only its last clock to come.
#[tactic(auto, using(basics::proofs::Rules::cases), unfolding(crate::specs::Lookahead::is_frame_over))]
fn is_frame_over(f: Frame) -> bool
    ensures { result ≡ is_frame_over f }
{
    match f.kind {
        0 => true,
        1 => f.clock == 18,
        _ => f.clock == 16,
    }
}

// Whether the bus rests and goes on resting.
#[tactic(auto, using(basics::proofs::Rules::cases), unfolding(crate::specs::Lookahead::stays_idle))]
pub fn stays_idle(f: Frame, sample: u16) -> bool
    ensures { result ≡ stays_idle f sample }
{
    is_idle_sample(sample) && is_frame_over(f)
}

// The frame after that.
#[tactic(auto, using(basics::proofs::Rules::cases), unfolding(crate::specs::Lookahead::ended_frame))]
pub fn end_frame(f: Frame) -> Frame
    ensures { result ≡ ended_frame f }
{
    if f.kind == 0 { f } else { idle_frame() }
}

// The data byte of a write that begins at place k.
#[tactic(auto, unfolding(crate::specs::Lookahead::byte_at))]
pub fn byte_at(stream: &[u8], k: usize) -> u8
    requires { 2 * (k + 12) ≤ length stream.now }
    ensures { result ≡ byte_at stream.now k }
{
    lines_at(stream, k + 10).value() % 16 + 16 * lines_at(stream, k + 11).value()
}

// The answers to a whole read.
pub fn answer_read(answers: &mut [u8], from: usize, byte: u8)
    requires { from + 18 ≤ length answers.old }
    ensures { answers.new ≡ put answers.old from (read_answers byte) }
{
    for i in 0..18 {
        answers[from + i] = drive(Frame {
            kind: 1,
            clock: i as u8 + 1,
            byte,
            address: 0,
        });
    }
}

impl Ahead<'_> {
    // Whether at place k a frame of this kind begins whose first `clocks` clocks lie ahead: its head is for this part, and all
    // its samples but the first are idle.
    #[tactic(auto, using(crate::proofs::Looks::whole_not_begun, crate::proofs::Looks::whole_cut, crate::proofs::Looks::whole_other, crate::proofs::Looks::whole_head))]
    pub fn is_whole_frame(&self, chip: Chip, kind: FrameKind, k: usize, clocks: usize) -> bool
        requires k_lt_to { k < self.now.to }
        requires le_clocks { 10 ≤ clocks }
        ensures { result ≡ whole_frame self.now.stream.now chip.part chip.straps (number_of kind) k self.now.to clocks }
    {
        is_start(sample_at(self.stream, k), start_of(chip.part, kind))
            && clocks <= self.to - k
            && head_fits(self.stream, chip, kind, k)
            && are_idle(self.stream, k + 1, clocks - 1)
    }

    // Whether sixteen idle samples lie ahead from place k on.
    #[tactic(auto, using(crate::proofs::Looks::sixteen_no, crate::proofs::Looks::sixteen_yes))]
    fn has_sixteen_idle(&self, k: usize) -> bool
        requires { k ≤ self.now.to }
        ensures these { result ≡ sixteen_idle self.now.stream.now k self.now.to }
        ensures before_to { result ≡ true → k + 16 ≤ self.now.to }
    {
        16 <= self.to - k && are_idle(self.stream, k, 16)
    }

    // The answers to idle samples of an idle bus, from place `from` on, sixteen at once as far as that goes. No `for`: by a
    // `step_by` the place reached would be told twice, at a return and at the end.
    fn skip_sixteens(&self, answers: &mut [u8], from: usize) -> usize
        requires from_le_to { from ≤ self.now.to }
        requires to_in_bounds { self.now.to ≤ length answers.old }
        ensures from_le_result { from ≤ result }
        ensures result_le_to { result ≤ self.now.to }
        ensures skipped { Skipped self.now.stream.now answers.old from result answers.new }
    {
        let mut k = from;
        while self.has_sixteen_idle(k) {
            fill(answers, k, 16, 0);
            k += 16;
        }
        k
    }

    // The same one by one, up to the end or a sample that is not idle. No twin: it looks at one, and stops at it.
    fn skip_singles(&self, answers: &mut [u8], from: usize) -> usize
        requires from_le_to { from ≤ self.now.to }
        requires to_in_bounds { self.now.to ≤ length answers.old }
        ensures from_le_result { from ≤ result }
        ensures result_le_to { result ≤ self.now.to }
        ensures skipped { Skipped self.now.stream.now answers.old from result answers.new }
        ensures stopped { result < self.now.to → is_idle_sample (sample_at self.now.stream.now result) ≡ false }
    {
        for k in from..self.to {
            if !is_idle_sample(sample_at(self.stream, k)) {
                return k;
            }
            answers[k] = 0;
        }
        self.to
    }

    // Both, one behind the other.
    #[tactic(auto, using(crate::proofs::Looks::skipped_further))]
    pub fn skip_idle(&self, answers: &mut [u8], from: usize) -> usize
        requires from_lt_to { from < self.now.to }
        requires to_in_bounds { self.now.to ≤ length answers.old }
        requires from_value { is_idle_sample (sample_at self.now.stream.now from) ≡ true }
        ensures from_lt_result { from < result }
        ensures result_le_to { result ≤ self.now.to }
        ensures skipped { Skipped self.now.stream.now answers.old from result answers.new }
    {
        let k = self.skip_sixteens(answers, from);
        self.skip_singles(answers, k)
    }
}
