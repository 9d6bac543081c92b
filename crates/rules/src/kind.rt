// The operations as their kinds in a frame, which a row keeps as their numbers.
#[derive(Clone, Copy, PartialEq, Eq)]
pub enum Kind {
    Acquire = 1,
    Release,
    Protect,
    Try,
    TryProtect,
    Reset,
    Raw,
    Swap,
    Retire,
    Eager,
    Cleanup,
    Shutdown,
}

// A number that is no operation's.
#[derive(Clone, Copy, PartialEq, Eq)]
pub struct NoKind(pub u32);

impl TryFrom<u32> for Kind {
    type Error = NoKind;

    ghost use Rattle.rules.specs.Kind.{Decodes};

    ghost try_from_gives = { Decodes };

    fn try_from(n: u32) -> Result<Self, NoKind> {
        match n {
            1 => Ok(Kind::Acquire),
            2 => Ok(Kind::Release),
            3 => Ok(Kind::Protect),
            4 => Ok(Kind::Try),
            5 => Ok(Kind::TryProtect),
            6 => Ok(Kind::Reset),
            7 => Ok(Kind::Raw),
            8 => Ok(Kind::Swap),
            9 => Ok(Kind::Retire),
            10 => Ok(Kind::Eager),
            11 => Ok(Kind::Cleanup),
            12 => Ok(Kind::Shutdown),
            _ => Err(NoKind(n)),
        }
    }
}
