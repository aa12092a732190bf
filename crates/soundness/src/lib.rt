// When a device is sound, clause by clause.
#![tactic(auto)]

ghost use Rattle.std.specs.Prelude.{◌≡◌};
ghost use Rattle.soundness.specs.Sound.{all_below, counts, left_fits, state_fits, outer_fits, apart, inside, inner_fits, setup_kinds, known_from, address_limit, stage_fits, begun_fits, frame_fits};

mod tested;

use part::{Kind, Lpc, block_of};
use record::{Frame, Operation};
use status::Condition;
pub use tested::{Sound, Soundness};
use units::{Clocks, Micros};

// Whether each of the sixteen numbers is below n.
fn all_below(n: u8, xs: [u8; 16]) -> bool
    ensures { result ≡ all_below n xs }
{
    xs.iter().all(|&x| x < n)
}

// Whether a number of clocks is from 1 to the full number of a time.
#[tactic(auto, unfolding(crate::specs::Sound::counts, basics::specs::All::all))]
fn is_counted(c: Clocks, m: Micros) -> bool
    ensures { result ≡ counts c m }
{
    (1..=Clocks::from(m).0).contains(&c.0)
}

#[tactic(auto, unfolding(crate::specs::Sound::left_fits, basics::specs::All::all))]
fn left_fits(o: Operation) -> bool
    ensures { result ≡ left_fits o }
{
    if o.kind == 1 {
        is_counted(o.left, o.times.program)
    } else {
        (1..=256).contains(&o.slices) && is_counted(o.left, o.times.slice)
    }
}

#[tactic(auto, unfolding(crate::specs::Sound::state_fits))]
fn state_fits(o: Operation) -> bool
    ensures { result ≡ state_fits o }
{
    match o.state {
        0 | 2 => true,
        1 => is_counted(o.pause, o.times.pause),
        _ => false,
    }
}

#[tactic(auto, unfolding(crate::specs::Sound::outer_fits, basics::specs::All::all))]
fn outer_fits(o: Operation) -> bool
    ensures { result ≡ outer_fits o }
{
    o.kind == 0 || (o.kind < 3 && o.is_sound())
}

// Whether two addresses lie in different blocks.
#[tactic(auto, unfolding(crate::specs::Sound::apart))]
fn is_apart(a: u32, b: u32) -> bool
    ensures { result ≡ apart a b }
{
    block_of(a) != block_of(b)
}

#[tactic(auto, unfolding(crate::specs::Sound::inside, basics::specs::All::all))]
fn is_inside(outer: Operation, inner: Operation) -> bool
    ensures { result ≡ inside outer inner }
{
    inner.kind == 1
        && inner.state == 0
        && outer.kind == 2
        && outer.state == 2
        && is_apart(outer.address, inner.address)
        && inner.is_sound()
}

#[tactic(auto, unfolding(crate::specs::Sound::inner_fits))]
fn inner_fits(outer: Operation, inner: Operation) -> bool
    ensures { result ≡ inner_fits outer inner }
{
    inner.kind == 0 || is_inside(outer, inner)
}

// How many of the setup's numbers, from 0 on, may stand beside a condition.
fn setup_kinds(c: Condition) -> u8
    ensures { result ≡ setup_kinds c }
{
    match c {
        Condition::Ready => 3,
        Condition::EraseSuspended => 2,
        Condition::Running
        | Condition::Pausing
        | Condition::ProgramSuspended
        | Condition::ProgramInside => 1,
    }
}

// `part` is the number of C's record: the definitions speak of any, and an enum of the two parts would ask for one of them.

// The clock on which a frame's direction is known.
#[tactic(auto, unfolding(crate::specs::Sound::known_from))]
fn known_from(part: u8) -> u8
    ensures { result ≡ known_from part }
{
    if part == Lpc::NUMBER { 2 } else { 1 }
}

// The first number that has too many bits for an address.
#[tactic(auto, unfolding(crate::specs::Sound::address_limit))]
fn address_limit(part: u8) -> u64
    ensures { result ≡ address_limit part }
{
    if part == Lpc::NUMBER {
        0x100000000
    } else {
        0x10000000
    }
}

#[tactic(auto, unfolding(crate::specs::Sound::stage_fits, basics::specs::All::all))]
fn stage_fits(part: u8, f: Frame, last: u8) -> bool
    ensures { result ≡ stage_fits part f last }
{
    (known_from(part)..=last).contains(&f.clock) && (f.address as u64) < address_limit(part)
}

#[tactic(auto, unfolding(crate::specs::Sound::begun_fits, basics::specs::All::all))]
fn begun_fits(part: u8, f: Frame) -> bool
    ensures { result ≡ begun_fits part f }
{
    f.kind == 3 && part == Lpc::NUMBER && f.clock == 1 && (f.address as u64) < address_limit(part)
}

#[tactic(auto, unfolding(crate::specs::Sound::frame_fits))]
fn frame_fits(part: u8, f: Frame) -> bool
    ensures { result ≡ frame_fits part f }
{
    match f.kind {
        0 => true,
        1 => stage_fits(part, f, 18),
        2 => stage_fits(part, f, 16),
        _ => begun_fits(part, f),
    }
}
