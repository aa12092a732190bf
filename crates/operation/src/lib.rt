// One clock of an operation, and reset: what time does to the controller. No pin, voltage or lock register is to be
// found among the arguments.
#![tactic(auto)]

ghost use Rattle.std.specs.Prelude.{◌≡◌, false, ◌<◌};
ghost use Rattle.record.specs.Record.{is_absent};
ghost use Rattle.operation.specs.Clock.{active, is_still, slice_at, paused_of, operation_clock, marks_after, replaced, controller_clock};
ghost use Rattle.operation.specs.Reset.{marked_by, reset_of};

use effect::Effect;
use part::{Part, block_of};
use record::{Controller, Operation, no_operation};
use soundness::Sound;
use units::Clocks;

// An operation or a controller after a clock, what the clock did to the array, and whether an operation finished: a flag, since the
// theorems over a clock read it beside all that the clock left.
#[derive(Clone, Copy)]
pub struct Counted<T> {
    pub after: T,
    pub effect: Effect,
    pub finished: bool,
}

// A pending pause counts one clock, and at its end suspends.
#[tactic(auto, using(basics::proofs::Rules::cases), unfolding(crate::specs::Clock::paused_of))]
fn paused(o: Operation) -> Operation
    ensures { result ≡ paused_of o }
{
    if o.state != 1 {
        return o;
    }
    if 1 < o.pause.0 {
        return Operation {
            pause: Clocks(o.pause.0 - 1),
            ..o
        };
    }
    Operation {
        state: 2,
        pause: Clocks(0),
        ..o
    }
}

// Where the slice that an erase is at begins.
#[tactic(auto, using(crate::proofs::Facts::fits, crate::proofs::Facts::slices), unfolding(crate::specs::Clock::slice_at))]
fn slice_start(o: Sound<Operation>) -> u32
    requires { o.value.kind ≡ 1 → ⊥ }
    ensures { result ≡ slice_at o.value }
{
    block_of(o.value.address) * Part::BLOCK_BYTES + (256 - o.value.slices) * 256
}

// One clock of an operation that runs or is pausing.
#[tactic(auto, using(basics::proofs::Rules::cases, crate::proofs::Facts::fits), unfolding(crate::specs::Clock::operation_clock))]
pub fn clock_operation(o: Sound<Operation>) -> Counted<Operation>
    ensures { result ≡ operation_clock o.value }
{
    let old = o.value;
    if 1 < old.left.0 {
        let next = Operation {
            left: Clocks(old.left.0 - 1),
            ..old
        };
        return Counted {
            after: paused(next),
            effect: Effect::Nothing,
            finished: false,
        };
    }
    if old.kind == 1 {
        return Counted {
            after: no_operation(),
            effect: Effect::Program {
                address: old.address,
                data: old.data,
            },
            finished: true,
        };
    }
    let effect = Effect::Fill {
        start: slice_start(o),
        count: 256,
        value: 255,
    };
    if 1 < old.slices {
        let next = Operation {
            slices: old.slices - 1,
            left: Clocks::from(old.times.slice),
            ..old
        };
        return Counted {
            after: paused(next),
            effect,
            finished: false,
        };
    }
    Counted {
        after: no_operation(),
        effect,
        finished: true,
    }
}

// The operation that counts: the program inside a suspended erase where there is one.
#[tactic(auto, using(basics::proofs::Rules::cases), unfolding(crate::specs::Clock::active))]
pub fn active_of(c: Controller) -> Operation
    ensures { result ≡ active c }
{
    if c.inner.kind == 0 { c.outer } else { c.inner }
}

#[tactic(auto, using(basics::proofs::Rules::cases), unfolding(crate::specs::Clock::is_still))]
pub fn is_still(o: Operation) -> bool
    ensures { result ≡ is_still o }
{
    o.kind == 0 || o.state == 2
}

// A finished erase removes its block's mark, and nothing else does. A flag, as in `Counted`.
#[tactic(auto, using(basics::proofs::Rules::cases, crate::proofs::Facts::block_below, crate::proofs::Bits::shifted), unfolding(crate::specs::Clock::marks_after, crate::specs::Marks::clearing))]
pub fn marks_after(marks: u16, o: Sound<Operation>, finished: bool) -> u16
    ensures { result ≡ marks_after marks o.value finished }
{
    if finished && o.value.kind == 2 {
        return marks & !(1 << block_of(o.value.address));
    }
    marks
}

// The controller with another operation in the place of the active one, and other marks.
#[tactic(auto, using(basics::proofs::Rules::cases), unfolding(crate::specs::Clock::replaced))]
pub fn replace(c: Controller, o: Operation, marks: u16) -> Controller
    ensures { result ≡ replaced c o marks }
{
    if c.inner.kind == 0 {
        return Controller {
            marks,
            outer: o,
            ..c
        };
    }
    Controller {
        marks,
        inner: o,
        ..c
    }
}

// One clock of the controller.
#[tactic(auto, using(basics::proofs::Rules::cases, crate::proofs::Facts::active_fits, crate::proofs::Facts::moving), unfolding(crate::specs::Clock::controller_clock))]
pub fn clock_controller(c: Sound<Controller>) -> Counted<Controller>
    ensures { result ≡ controller_clock c.value }
{
    let old = c.value;
    let o = active_of(old);
    if is_still(o) {
        return Counted {
            after: old,
            effect: Effect::Nothing,
            finished: false,
        };
    }
    let o = Sound { value: o };
    let t = clock_operation(o);
    Counted {
        after: replace(old, t.after, marks_after(old.marks, o, t.finished)),
        effect: t.effect,
        finished: t.finished,
    }
}

#[tactic(auto, using(basics::proofs::Rules::cases, crate::proofs::Bits::shifted), unfolding(crate::specs::Reset::marked_by, crate::specs::Marks::marking))]
fn mark_of(o: Operation, marks: u16) -> u16
    requires { is_absent o ≡ false → o.address < 1048576 }
    ensures { result ≡ marked_by o marks }
{
    if o.kind == 0 {
        return marks;
    }
    marks | (1 << block_of(o.address))
}

// Reset: operations end and their blocks are marked; marks stay, all else is at rest.
#[tactic(auto, using(crate::proofs::Facts::outer_address, crate::proofs::Facts::inner_address), unfolding(crate::specs::Reset::reset_of))]
pub fn reset(c: Sound<Controller>) -> Controller
    ensures { result ≡ reset_of c.value }
{
    let old = c.value;
    Part::resting(mark_of(old.inner, mark_of(old.outer, old.marks)))
}
