// Many clocks of the controller at once, with nothing said to it between.
#![tactic(auto)]

ghost use Rattle.std.specs.Prelude.{◌≡◌, ◌≤◌};
ghost use Rattle.fast_forward.specs.Forward.{forward, forwarding, operation_before_due, controller_before_due, operation_later};

use effect::apply;
use operation::{active_of, clock_operation, is_still, marks_after, replace};
use part::Image;
use record::{Controller, Operation};
use soundness::Sound;
use units::Clocks;

// How many clocks were done, and the controller or the device after them.
#[derive(Clone, Copy)]
pub struct Forwarded<T> {
    pub count: u32,
    pub after: T,
}

// How many clocks an operation has before one on which something is due.
#[tactic(auto, using(basics::proofs::Rules::cases, crate::proofs::Free::left_least, crate::proofs::Free::pause_least), unfolding(crate::specs::Forward::operation_before_due))]
fn operation_before_due(o: Sound<Operation>) -> u32
    ensures { result ≡ operation_before_due o.value }
{
    let o = o.value;
    if o.state == 1 {
        return o.pause.0.min(o.left.0) - 1;
    }
    o.left.0 - 1
}

// How many a controller has: where no operation counts, as many as can be asked for.
#[tactic(auto, using(basics::proofs::Rules::cases, crate::proofs::NothingDue::active_sound), unfolding(crate::specs::Forward::controller_before_due))]
pub fn controller_before_due(c: Sound<Controller>) -> u32
    ensures { result ≡ controller_before_due c.value }
{
    let o = active_of(c.value);
    if is_still(o) {
        return u32::MAX;
    }
    operation_before_due(Sound { value: o })
}

// An operation after n clocks on which nothing is due.
#[tactic(auto, using(basics::proofs::Rules::cases, crate::proofs::Free::before_end, crate::proofs::Free::before_pause_end), unfolding(crate::specs::Forward::operation_later))]
fn operation_later(o: Sound<Operation>, n: u32) -> Operation
    requires { n ≤ operation_before_due o.value }
    ensures { result ≡ operation_later n o.value }
{
    let o = o.value;
    let left = Clocks(o.left.0 - n);
    if o.state == 1 {
        return Operation {
            left,
            pause: Clocks(o.pause.0 - n),
            ..o
        };
    }
    Operation { left, ..o }
}

// Up to n clocks, until no operation counts any more: from one clock on which something is due to the next.
#[tactic(auto, using(crate::proofs::Replaced::replaced_same, crate::proofs::Turns::Counting, crate::proofs::Turns::stops, crate::proofs::Turns::sound, crate::proofs::Turns::older_sound, crate::proofs::Turns::due_fits, crate::proofs::Turns::due_counting, crate::proofs::Turns::due_last, crate::proofs::Turns::due_more, crate::proofs::Turns::none_due))]
pub fn forward(c: Sound<Controller>, image: &mut Image, n: u32) -> Forwarded<Controller>
    ensures { forward result.count result.after image.new ≡ forwarding n 0 c.value image.old }
{
    let c = c.value;
    let first = active_of(c);
    if is_still(first) {
        return Forwarded { count: 0, after: c };
    }
    let mut o = Sound { value: first };
    let mut done: u32 = 0;
    // No `for`: a turn goes as far as nothing is due, and one clock on.
    while done < n {
        let ahead = operation_before_due(o);
        if n - done <= ahead {
            return Forwarded {
                count: n,
                after: replace(c, operation_later(o, n - done), c.marks),
            };
        }
        done += ahead + 1;
        let last = Sound {
            value: operation_later(o, ahead),
        };
        let t = clock_operation(last);
        apply(t.effect, image);
        let next = t.after;
        if is_still(next) {
            return Forwarded {
                count: done,
                after: replace(c, next, marks_after(c.marks, last, t.finished)),
            };
        }
        o = Sound { value: next };
    }
    Forwarded {
        count: done,
        after: replace(c, o.value, c.marks),
    }
}
