// Whether an operation may start: judged once, by the sample and the lock register of the write that ends its setup.
#![tactic(auto)]

ghost use Rattle.std.specs.Prelude.{◌≡◌};
ghost use Rattle.permission.specs.Permission.{pin_low, into_suspended, judged};

use part::{Part, block_of};
use record::{Operation, tbl, voltage, wp};

// `setup` is the number of C's record, 1 for a program and 2 for an erase.

// Why an operation may not start.
#[derive(Clone, Copy)]
pub enum Denial {
    Voltage,
    Pin,
    Lock,
    Suspended,
}

#[tactic(auto, using(basics::proofs::Rules::cases), unfolding(crate::specs::Permission::pin_low))]
fn is_pin_low(sample: u16, block: u32) -> bool
    ensures { result ≡ pin_low sample block }
{
    let pin = if block == Part::TOP_BLOCK {
        tbl(sample)
    } else {
        wp(sample)
    };
    pin == 0
}

#[tactic(auto, using(basics::proofs::Rules::cases), unfolding(crate::specs::Permission::into_suspended))]
fn is_into_suspended(setup: u8, outer: Operation, address: u32) -> bool
    ensures { result ≡ into_suspended setup outer address }
{
    setup == 1
        && outer.kind == 2
        && outer.state == 2
        && block_of(outer.address) == block_of(address)
}

// The permission, judged once: by the sample of the write that ends the setup and the lock register of its block.
#[tactic(auto, using(basics::proofs::Rules::cases), unfolding(crate::specs::Permission::judged))]
pub fn judge(setup: u8, outer: Operation, sample: u16, lock: u8, address: u32) -> Result<(), Denial>
    ensures { result ≡ judged setup outer sample lock address }
{
    if voltage(sample) == 0 {
        return Err(Denial::Voltage);
    }
    if is_pin_low(sample, block_of(address)) {
        return Err(Denial::Pin);
    }
    if lock % 2 == 1 {
        return Err(Denial::Lock);
    }
    if is_into_suspended(setup, outer, address) {
        return Err(Denial::Suspended);
    }
    Ok(())
}
