// Microseconds and clocks: two types, one conversion between them, and the ranges of the three times.
#![tactic(auto)]

ghost use Rattle.std.specs.Prelude.{◌≡◌, true, ◌↔◌, IsSome, IfSome};
ghost use Rattle.units.specs.Units.{times, in_clocks, times_fit};

// Sixteen bits hold the longest time, 39,062, and the clocks of any sixteen bits fit in thirty-two.
#[repr(C)]
#[derive(Clone, Copy, Default)]
pub struct Micros(pub u16);

#[repr(C)]
#[derive(Clone, Copy, Default)]
pub struct Clocks(pub u32);

// The times of a program, of one slice of an erase, and of a pause.
#[repr(C)]
#[derive(Clone, Copy, Default)]
pub struct Times {
    pub program: Micros,
    pub slice: Micros,
    pub pause: Micros,
}

// The only place where microseconds become clocks.
impl From<Micros> for Clocks {
    ghost from_gives = { λ m r. r ≡ in_clocks m };

    #[tactic(auto, unfolding(crate::specs::Units::in_clocks))]
    fn from(m: Micros) -> Clocks {
        Clocks((m.0 as u32) * 33)
    }
}

impl Times {
    // Three numbers in their ranges as times.
    #[tactic(auto, using(crate::proofs::Ranges::ranges))]
    pub fn of(program: u32, slice: u32, pause: u32) -> Times
        requires { times_fit (times program slice pause) ≡ true }
        ensures { result ≡ times program slice pause }
    {
        Times {
            program: Micros(program as u16),
            slice: Micros(slice as u16),
            pause: Micros(pause as u16),
        }
    }

    // The same of any three numbers, one by one as C hands them in, where they are in their ranges.
    #[tactic(auto, using(crate::proofs::Ranges::ranges), unfolding(crate::specs::Units::in_range, crate::specs::Units::times_fit, basics::specs::All::all))]
    pub fn new(program: u32, slice: u32, pause: u32) -> Option<Times>
        ensures when { IsSome result ↔ (times_fit (times program slice pause) ≡ true) }
        ensures these { IfSome result (λ t. t ≡ times program slice pause) }
    {
        let fits = (1..=200).contains(&program)
            && (1..=39062).contains(&slice)
            && (1..=30).contains(&pause);
        if fits {
            Some(Times::of(program, slice, pause))
        } else {
            None
        }
    }

    // Whether all three times are in their ranges.
    pub fn fit(self) -> bool
        ensures { result ≡ times_fit self }
    {
        let Times {
            program,
            slice,
            pause,
        } = self;
        Times::new(program.0 as u32, slice.0 as u32, pause.0 as u32).is_some()
    }
}
