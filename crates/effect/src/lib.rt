// What a clock does to the array, as a value, and the single function that does it to the image.
#![tactic(auto)]

ghost use Rattle.std.specs.Prelude.{◌≡◌, length};
ghost use Rattle.effect.specs.Effect.{FitsIn, applied};

use basics::fill;

// No Option: that nothing happens is one of three effects, and matched as one.
#[derive(Clone, Copy)]
pub enum Effect {
    // The array stays as it is.
    Nothing,
    // One byte becomes its old value AND the data.
    Program { address: u32, data: u8 },
    // Bytes from a place on become one value.
    Fill { start: u32, count: u32, value: u8 },
}

pub fn apply(effect: Effect, image: &mut [u8])
    requires { FitsIn effect (length image.old) }
    ensures { image.new ≡ applied effect image.old }
{
    match effect {
        Effect::Nothing => {}
        Effect::Program { address, data } => {
            image[address as usize] &= data;
        }
        Effect::Fill {
            start,
            count,
            value,
        } => fill(image, start as usize, count as usize, value),
    }
}
