// Why a measure or a plan is refused.
ghost use Rattle.std.specs.Prelude.{◌≡◌};
ghost use Rattle.plans.specs.Checks.{denial_number, denial_tag};

use books::Refused;

/// Why a measure or a plan is refused: the working memory is shorter than the size, or a tag is no point, for the cause that
/// comes with it.
#[derive(Clone, Copy, PartialEq, Eq, Debug)]
pub enum Denial {
    ShortMemory,
    NoPoint(Refused),
}

impl Denial {
    /// The number of this refusal in the table of refusals.
    pub fn number(self) -> u8
        ensures { result ≡ denial_number self }
    {
        // no number can stand beside a variant that carries its cause
        match self {
            Denial::ShortMemory => 10,
            Denial::NoPoint(refused) => refused.cause.number(),
        }
    }

    /// The tag that is no point; 0 where the memory is short.
    pub fn tag(self) -> u32
        ensures { result ≡ denial_tag self }
    {
        match self {
            Denial::ShortMemory => 0,
            Denial::NoPoint(refused) => refused.tag,
        }
    }
}
