// The refusals of the shelf, in the order in which they are tested.
ghost use Rattle.std.specs.Prelude.{◌≡◌};
ghost use Rattle.disk.specs.Refusal.{number_of};

// Each has its fixed code.
#[derive(Clone, Copy, PartialEq, Eq, Debug)]
pub enum Refusal {
    BadImage = 10,
    NoLabel = 11,
    TooFew = 12,
    BadBlock = 13,
    Busy = 14,
    NotNow = 15,
    BadBuffer = 16,
}

// The refusal's code.
pub fn number(r: Refusal) -> u32
    ensures { result ≡ number_of r }
{
    r as u32
}
