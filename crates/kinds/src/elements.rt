ghost use Rattle.std.specs.Prelude.{◌≡◌, ◌%◌, ◌<◌};
ghost use Rattle.kinds.specs.Verdict.{verdict_number};
ghost use Rattle.kinds.specs.Map.{entry_at, low_bit, high_bit, state_number, byte_of};

// A carry over some columns: whether they generate one, and whether they pass one on.
#[derive(Clone, Copy, Debug, PartialEq, Eq, Hash)]
pub struct Carry {
    pub generate: bool,
    pub propagate: bool,
}

// How two numbers compare over some columns.
#[derive(Clone, Copy, Debug, PartialEq, Eq, Hash)]
pub enum Verdict {
    Equal = 0,
    Less = 1,
    Greater = 2,
}

impl Verdict {
    pub fn number(self) -> u8
        ensures { result ≡ verdict_number self }
    {
        self as u8
    }
}

// A state of a machine that has four.
#[derive(Clone, Copy, Debug, PartialEq, Eq, Hash)]
pub enum State {
    S0 = 0,
    S1 = 1,
    S2 = 2,
    S3 = 3,
}

impl State {
    // The state whose number is n modulo 4. No `From`: it forgets the rest of n.
    pub(crate) fn wrapped(n: u8) -> State
        ensures { state_number result ≡ n % 4 }
    {
        match n % 4 {
            0 => State::S0,
            1 => State::S1,
            2 => State::S2,
            _ => State::S3,
        }
    }

    pub(crate) fn low_bit(self) -> u8
        ensures { result ≡ low_bit self }
    {
        u8::from(self) % 2
    }

    pub(crate) fn high_bit(self) -> u8
        ensures { result ≡ high_bit self }
    {
        u8::from(self) / 2
    }
}

// The number of a state.
impl From<State> for u8 {
    ghost from_gives = { λ s n. n ≡ state_number s };

    fn from(s: State) -> u8 {
        s as u8
    }
}

// A map of the four states: entry s, the field es, is the state that state s goes to.
// Four fields and no array: the logic sees an array as a list of any length, and the laws hold of four.
#[derive(Clone, Copy, Debug, PartialEq, Eq, Hash)]
pub struct Map {
    pub e0: State,
    pub e1: State,
    pub e2: State,
    pub e3: State,
}

impl Map {
    // The state that s goes to.
    pub fn at(self, s: State) -> State
        ensures { result ≡ entry_at self s }
    {
        match s {
            State::S0 => self.e0,
            State::S1 => self.e1,
            State::S2 => self.e2,
            State::S3 => self.e3,
        }
    }
}

// The map of a byte, whose bits 2s and 2s + 1 hold entry s.
impl From<u8> for Map {
    ghost from_gives = { λ b m. byte_of m ≡ b };

    fn from(b: u8) -> Map {
        Map {
            e0: State::wrapped(b),
            e1: State::wrapped(b / 4),
            e2: State::wrapped(b / 16),
            e3: State::wrapped(b / 64),
        }
    }
}

// The byte of a map.
impl From<Map> for u8 {
    ghost from_gives = { λ m b. b ≡ byte_of m };

    fn from(m: Map) -> u8 {
        u8::from(m.e0) + 4 * u8::from(m.e1) + 16 * u8::from(m.e2) + 64 * u8::from(m.e3)
    }
}
