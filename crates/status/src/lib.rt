// What the controller is at, and what its status register says.
#![tactic(auto)]

ghost use Rattle.std.specs.Prelude.{◌≡◌};
ghost use Rattle.status.specs.Status.{condition_of, condition_bits, status_of};

use record::Controller;

// What the controller is at: the rows of the command table.
#[derive(Clone, Copy)]
pub enum Condition {
    Ready,
    Running,
    Pausing,
    ProgramSuspended,
    EraseSuspended,
    ProgramInside,
}

#[tactic(auto, unfolding(crate::specs::Status::condition_of))]
pub fn condition_of(c: Controller) -> Condition
    ensures { result ≡ condition_of c }
{
    match (c.inner.kind, c.outer.kind, c.outer.state) {
        (0, 0, _) => Condition::Ready,
        (0, _, 0) => Condition::Running,
        (0, _, 1) => Condition::Pausing,
        (0, 1, _) => Condition::ProgramSuspended,
        (0, _, _) => Condition::EraseSuspended,
        _ => Condition::ProgramInside,
    }
}

fn condition_bits(c: Condition) -> u8
    ensures { result ≡ condition_bits c }
{
    match c {
        Condition::Ready => 0x80,
        Condition::Running | Condition::Pausing => 0,
        Condition::ProgramSuspended => 0x84,
        Condition::EraseSuspended => 0xC0,
        Condition::ProgramInside => 0x40,
    }
}

// The status register.
#[tactic(auto, unfolding(crate::specs::Status::status_of))]
pub fn status(c: Controller) -> u8
    ensures { result ≡ status_of c }
{
    c.errors | condition_bits(condition_of(c))
}
