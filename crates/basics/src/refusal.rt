// The refusals, by name. Each has its number in the table of numbered answers; 0 is done.

ghost use Rattle.std.specs.Prelude.{◌≡◌};

#[derive(Clone, Copy)]
pub enum Refusal {
    // The device that was handed in is not sound.
    Unsound = 1,
    // The image is not of the part's length.
    Image = 2,
    // The part has no such straps.
    Straps = 3,
    // A time is outside its range.
    Times = 4,
    // The stream is odd in length, or too long.
    Stream = 5,
    // The buffer has no room for what is to be written.
    Room = 6,
    // Some sample has voltage class 3.
    Overvolted = 7,
    // The bytes are not of a sheet's layout.
    Layout = 8,
    // The sample to repeat has the frame line, RP or INIT low.
    Busy = 9,
    // All samples are done, and status bit 7 is still 0.
    Unready = 10,
}

impl Refusal {
    ghost use Rattle.basics.specs.Refusals.{code_of};

    pub fn number(self) -> u32
        ensures { result ≡ code_of self }
    {
        self as u32
    }
}
