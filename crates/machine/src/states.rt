// The states of a router by name, and each event as a case, as in section 8 of the draft. Which state comes next is
// specs/States.antt.
ghost use Rattle.std.specs.Prelude.{◌≡◌};
ghost use Rattle.machine.specs.States.{state_number, named, next_state};

// With the name that each has in section 8, and its number in a record. The draft's OFIB_ABANDONED is no state here.
#[derive(Clone, Copy, Debug, PartialEq, Eq)]
pub enum State {
    // OFIB_STABLE, before the change is known.
    Idle = 0,
    // OFIB_HOLDING_DOWN in a rise, OFIB_HOLDING_UP in a fall.
    Holding = 1,
    // OFIB_ONGOING.
    Ongoing = 2,
    // OFIB_STABLE, after the change.
    Done = 3,
}

#[derive(Clone, Copy, Debug, PartialEq, Eq)]
pub enum Event {
    // A link-state packet describes the change.
    Learn,
    // Hold_down_timer expires.
    Release,
    // One of the FIB updates is performed.
    Write,
    // The last of them has been performed.
    Finish,
}

impl State {
    // The record's number for it.
    pub fn number(self) -> u8
        ensures number { result ≡ state_number self }
    {
        self as u8
    }

    // The state after an event, or none where the event has no place.
    pub fn after(self, event: Event) -> Option<State>
        ensures next { result ≡ next_state self event }
    {
        match (self, event) {
            (State::Idle, Event::Learn) => Some(State::Holding),
            (State::Holding, Event::Release) => Some(State::Ongoing),
            (State::Ongoing, Event::Write) => Some(State::Ongoing),
            (State::Ongoing, Event::Finish) => Some(State::Done),
            _ => None,
        }
    }
}

impl From<u8> for State {
    ghost from_gives = { λ number state. state ≡ named number };

    // The state of a number. One that is none of the four is taken for done, from which no event leads on.
    fn from(number: u8) -> State {
        match number {
            0 => State::Idle,
            1 => State::Holding,
            2 => State::Ongoing,
            _ => State::Done,
        }
    }
}
