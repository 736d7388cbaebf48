// The kinds of calls by name, each with its number in a list of steps.
ghost use Rattle.std.specs.Prelude.{◌≡◌};
ghost use Rattle.machine.specs.Kinds.{kind_number, Names};

use area::refusal::Refusal;

#[derive(Clone, Copy, Debug, PartialEq, Eq)]
pub enum Kind {
    Learn = 1,
    Release = 2,
    Write = 3,
    Finish = 4,
    Deliver = 5,
    Tick = 6,
}

impl Kind {
    pub fn number(self) -> u8
        ensures number { result ≡ kind_number self }
    {
        self as u8
    }
}

impl TryFrom<u8> for Kind {
    type Error = Refusal;

    ghost try_from_gives = { Names };

    // The kind of a number, or the refusal where there is none.
    #[tactic(auto, unfolding(crate::specs::Machine::is_kind))]
    fn try_from(number: u8) -> Result<Kind, Refusal> {
        match number {
            1 => Ok(Kind::Learn),
            2 => Ok(Kind::Release),
            3 => Ok(Kind::Write),
            4 => Ok(Kind::Finish),
            5 => Ok(Kind::Deliver),
            6 => Ok(Kind::Tick),
            _ => Err(Refusal::Kind),
        }
    }
}
