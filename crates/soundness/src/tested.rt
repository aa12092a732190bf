// A value that is known to be sound: `new` tested it, or a law shows it where it is made. It is not tested again.

ghost use Rattle.std.specs.Prelude.{◌≡◌, ◌↔◌, Bool, true, ⊤, IsSome, IfSome};

use crate::{all_below, frame_fits, inner_fits, left_fits, outer_fits, setup_kinds, state_fits};
use part::{Part, strap_count};
use record::{Controller, Device, Operation};
use status::condition_of;
use std::alloc::AllocError;

pub trait Soundness {
    ghost fits: { Self → Bool };

    fn is_sound(&self) -> bool
        ensures { result ≡ fits self.now };
}

pub struct Sound<T: Soundness> {
    pub value: T,
    ghost sound: { T.fits value ≡ true },
}

// By hand: neither this nor Copy is derived beside a ghost field that names a bound's member.
impl<T: Soundness + Copy> Clone for Sound<T> {
    ghost is_clone = { λ s r. r ≡ s };

    ghost is_infallible = { λ _. ⊤ };

    fn clone(&self) -> Result<Sound<T>, AllocError> {
        Ok(*self)
    }
}

impl<T: Soundness + Copy> Copy for Sound<T> {}

impl<T: Soundness + Copy> Sound<T> {
    // The value as it is, where it is sound.
    pub fn new(value: T) -> Option<Sound<T>>
        ensures when { IsSome result ↔ (T.fits value ≡ true) }
        ensures same { IfSome result (λ s. s.value ≡ value) }
    {
        if value.is_sound() {
            return Some(Sound { value });
        }
        None
    }
}

impl Soundness for Operation {
    ghost use Rattle.soundness.specs.Sound.{operation_fits};

    ghost fits = { operation_fits };

    #[tactic(auto, unfolding(crate::specs::Sound::operation_fits, basics::specs::All::all))]
    fn is_sound(&self) -> bool {
        self.times.fit()
            && (self.address as usize) < Part::BYTES
            && left_fits(*self)
            && state_fits(*self)
    }
}

impl Soundness for Controller {
    ghost use Rattle.soundness.specs.Sound.{controller_fits};

    ghost fits = { controller_fits };

    #[tactic(auto, unfolding(crate::specs::Sound::controller_fits, basics::specs::All::all))]
    fn is_sound(&self) -> bool {
        self.mode < 3
            && self.errors & 0x3A == self.errors
            && outer_fits(self.outer)
            && inner_fits(self.outer, self.inner)
            && self.setup < setup_kinds(condition_of(*self))
    }
}

impl Soundness for Device {
    ghost use Rattle.soundness.specs.Sound.{sound_of};

    ghost fits = { sound_of };

    // Tested where a device is handed in, and not on every clock.
    #[tactic(auto, unfolding(crate::specs::Sound::sound_of, basics::specs::All::all))]
    fn is_sound(&self) -> bool {
        (self.straps as u32) < strap_count(self.part as u32)
            && all_below(8, self.locks)
            && self.times.fit()
            && frame_fits(self.part, self.frame)
            && self.controller.is_sound()
    }
}
