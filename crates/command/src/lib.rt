// What the part does with a byte that is written to the array: the command table and the setups. It knows nothing of
// frames.
#![tactic(auto)]

ghost use Rattle.std.specs.Prelude.{◌≡◌, ◌<◌};
ghost use Rattle.command.specs.Commands.{row_of, column_of, action_of, acted};
ghost use Rattle.command.specs.Setup.{accepted_of, starting, failing, answered, unconfirmed, written_of};

use Action::{Array, Clear, Erase, Nothing, Pause, Program, Resume, Signature, Status};
use permission::{Denial, judge};
use record::{Controller, Operation};
use status::{Condition, condition_of};
use units::{Clocks, Times};

// `setup` is the number of C's record, 1 for a program and 2 for an erase.

// The actions of the command table: A, S, G, C, P, E, Z, R and none, which is a cell of the table as the others are.
#[derive(Clone, Copy)]
pub enum Action {
    Array,
    Status,
    Signature,
    Clear,
    Program,
    Erase,
    Pause,
    Resume,
    Nothing,
}

// Six rows, by condition, and nine columns: FF, 70, 90 and 98, 50, 40 and 10, 20, B0, D0, other. An array of arrays, as the table on
// paper is, read for the action.
const ACTIONS: [[Action; 9]; 6] = [
    [
        Array, Status, Signature, Clear, Program, Erase, Nothing, Nothing, Nothing,
    ],
    [
        Nothing, Status, Nothing, Nothing, Nothing, Nothing, Pause, Nothing, Nothing,
    ],
    [
        Nothing, Nothing, Nothing, Nothing, Nothing, Nothing, Nothing, Nothing, Nothing,
    ],
    [
        Array, Status, Signature, Nothing, Nothing, Nothing, Nothing, Resume, Nothing,
    ],
    [
        Array, Status, Signature, Nothing, Program, Nothing, Nothing, Resume, Nothing,
    ],
    [
        Nothing, Status, Nothing, Nothing, Nothing, Nothing, Nothing, Nothing, Nothing,
    ],
];

// A byte's column, a number since it is used for nothing but to read the table.
#[tactic(auto, using(basics::proofs::Rules::cases), unfolding(crate::specs::Commands::column_of))]
fn column(byte: u8) -> usize
    ensures same { result ≡ column_of byte }
    ensures below { result < 9 }
{
    match byte {
        0xFF => 0,
        0x70 => 1,
        0x90 | 0x98 => 2,
        0x50 => 3,
        0x40 | 0x10 => 4,
        0x20 => 5,
        0xB0 => 6,
        0xD0 => 7,
        _ => 8,
    }
}

// A condition's row is its number.
fn row(c: Condition) -> usize
    ensures same { result ≡ row_of c }
    ensures below { result < 6 }
{
    c as usize
}

// The action of a command byte in a condition.
#[tactic(auto, using(crate::proofs::Kept::in_table), unfolding(crate::specs::Commands::action_of, crate::specs::Commands::action_at))]
pub fn decide(c: Condition, byte: u8) -> Action
    ensures { result ≡ action_of c byte }
{
    ACTIONS[row(c)][column(byte)]
}

// What an action does to the controller.
pub fn act(a: Action, c: Controller) -> Controller
    ensures { result ≡ acted a c }
{
    match a {
        Array => Controller { mode: 0, ..c },
        Status => Controller { mode: 1, ..c },
        Signature => Controller { mode: 2, ..c },
        Clear => Controller { errors: 0, ..c },
        Program => Controller {
            mode: 1,
            setup: 1,
            ..c
        },
        Erase => Controller {
            mode: 1,
            setup: 2,
            ..c
        },
        Pause => {
            let outer = Operation {
                state: 1,
                pause: Clocks::from(c.outer.times.pause),
                ..c.outer
            };
            Controller { outer, ..c }
        }
        Resume => {
            let outer = Operation {
                state: 0,
                ..c.outer
            };
            Controller {
                mode: 1,
                outer,
                ..c
            }
        }
        Nothing => c,
    }
}

// An operation as it is accepted, with data, block and times copied.
#[tactic(auto, using(basics::proofs::Rules::cases), unfolding(crate::specs::Setup::accepted_of))]
fn accept(times: Times, setup: u8, address: u32, byte: u8) -> Operation
    ensures { result ≡ accepted_of times setup address byte }
{
    let (kind, slices, time) = if setup == 1 {
        (1, 0, times.program)
    } else {
        (2, 256, times.slice)
    };
    Operation {
        kind,
        state: 0,
        data: byte,
        address,
        slices,
        left: Clocks::from(time),
        pause: Clocks(0),
        times,
    }
}

// The setup ends and an operation is there, inside the suspended erase where one stands.
#[tactic(auto, using(basics::proofs::Rules::cases), unfolding(crate::specs::Setup::starting))]
fn start(c: Controller, o: Operation) -> Controller
    ensures { result ≡ starting c o }
{
    if c.outer.kind == 0 {
        return Controller {
            setup: 0,
            outer: o,
            ..c
        };
    }
    Controller {
        setup: 0,
        inner: o,
        ..c
    }
}

// The setup ends with error bits set, and nothing starts.
#[tactic(auto, unfolding(crate::specs::Setup::failing))]
fn fail(c: Controller, bits: u8) -> Controller
    ensures { result ≡ failing c bits }
{
    Controller {
        setup: 0,
        errors: c.errors | bits,
        ..c
    }
}

fn answer(j: Result<(), Denial>, c: Controller, o: Operation) -> Controller
    ensures { result ≡ answered j c o }
{
    match j {
        Ok(()) => start(c, o),
        Err(Denial::Voltage) => fail(c, 0x08),
        Err(Denial::Pin | Denial::Lock) => fail(c, 0x02),
        Err(Denial::Suspended) => fail(c, 0x10),
    }
}

#[tactic(auto, using(basics::proofs::Rules::cases), unfolding(crate::specs::Setup::unconfirmed))]
fn is_unconfirmed(setup: u8, byte: u8) -> bool
    ensures { result ≡ unconfirmed setup byte }
{
    setup == 2 && byte != 0xD0
}

// What a written byte leaves of a controller or a device, and the judgement of a permission where one was made.
#[derive(Clone, Copy)]
pub struct Judged<T> {
    pub after: T,
    pub verdict: Option<Result<(), Denial>>,
}

// A byte written to the array: a command, or the end of a setup.
#[tactic(auto, using(basics::proofs::Rules::cases), unfolding(crate::specs::Setup::written_of))]
pub fn write(
    c: Controller,
    times: Times,
    sample: u16,
    lock: u8,
    address: u32,
    byte: u8,
) -> Judged<Controller>
    ensures { result ≡ written_of c times sample lock address byte }
{
    if c.setup == 0 {
        return Judged {
            after: act(decide(condition_of(c), byte), c),
            verdict: None,
        };
    }
    if is_unconfirmed(c.setup, byte) {
        return Judged {
            after: fail(c, 0x30),
            verdict: None,
        };
    }
    let j = judge(c.setup, c.outer, sample, lock, address);
    Judged {
        after: answer(j, c, accept(times, c.setup, address, byte)),
        verdict: Some(j),
    }
}
