// A pairing: two choices, each of its course, that may go together.

// One side of a pairing: choice `choice` of course `course`.
#[derive(Clone, Copy, PartialEq, Eq, Debug)]
pub struct Side {
    pub course: usize,
    pub choice: usize,
}

// The pairing of two sides, whether or not there are such courses and choices.
#[derive(Clone, Copy, PartialEq, Eq, Debug)]
pub struct Pairing {
    pub one: Side,
    pub other: Side,
}

impl Pairing {
    ghost use Rattle.std.specs.Prelude.{◌≡◌};
    ghost use Rattle.draft.specs.Pairings.{mirrored, pairing_of};

    // The pairing (`i`,`b`)-(`j`,`c`).
    pub fn new(i: usize, b: usize, j: usize, c: usize) -> Pairing
        ensures value { result ≡ pairing_of i b j c }
    {
        Pairing {
            one: Side {
                course: i,
                choice: b,
            },
            other: Side {
                course: j,
                choice: c,
            },
        }
    }

    // The same pairing, named from its other side.
    pub fn mirrored(self) -> Pairing
        ensures value { result ≡ mirrored self }
    {
        Pairing {
            one: self.other,
            other: self.one,
        }
    }
}
