// What the four lines carry on a clock: a number below 16, which a contract sees as that number.

ghost use Rattle.std.specs.Prelude.{◌≡◌, ℕ, ◌<◌, ◌%◌};

use std::marker::Model;

#[derive(Clone, Copy)]
pub struct Nibble {
    value: u8,
}

impl Model for Nibble {
    ghost Value = { ℕ };

    ghost view = { λ n. n.value };

    ghost invariant = { λ n. n.value < 16 };

    ghost inverse = { λ n. record { value = n } };
}

impl Nibble {
    // The low four bits of a byte.
    pub fn low(byte: u8) -> Nibble
        ensures { result ≡ byte % 16 }
    {
        Nibble { value: byte % 16 }
    }

    pub fn value(self) -> u8
        ensures same { result ≡ self }
        ensures small { result < 16 }
    {
        self.value
    }
}
