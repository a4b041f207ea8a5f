// A refusal together with who raised it.
ghost use Rattle.std.specs.Prelude.{◌≡◌};
ghost use Rattle.draft.specs.Faults.{refusal_of, bit_of};
ghost use Rattle.draft.specs.Texts.{raiser_text};

use crate::refusal::Refusal;
use std::fmt;

// What a refused call answers. A sheet's fault also names the first bit of the field at fault.
#[derive(Clone, Copy, PartialEq, Eq, Debug)]
pub enum Fault {
    Sheet { refusal: Refusal, bit: usize },
    Line { refusal: Refusal },
    Plan { refusal: Refusal },
}

impl Fault {
    // Why the call was refused.
    pub fn refusal(self) -> Refusal
        ensures value { result ≡ refusal_of self }
    {
        match self {
            Fault::Sheet { refusal, .. } | Fault::Line { refusal } | Fault::Plan { refusal } =>
                refusal,
        }
    }

    // The first bit of the field at fault, where a sheet raised it.
    pub fn bit(self) -> Option<usize>
        ensures value { result ≡ bit_of self }
    {
        match self {
            Fault::Sheet { bit, .. } => Some(bit),
            Fault::Line { .. } | Fault::Plan { .. } => None,
        }
    }

    // The word for who refused.
    fn raiser(self) -> &'static str
        ensures value { result.now ≡ raiser_text self }
    {
        match self {
            Fault::Sheet { .. } => "sheet",
            Fault::Line { .. } => "line",
            Fault::Plan { .. } => "plan",
        }
    }
}

// Who refused, the refusal's number, and the bit where a sheet is at fault.
impl fmt::Display for Fault {
    ghost use Rattle.std.specs.Prelude.{Some};
    ghost use Rattle.draft.specs.Texts.{fault_text};

    ghost output = { λ fault. Some (fault_text fault) };

    fn fmt<W: fmt::Write>(&self, f: &mut fmt::Formatter<W>) -> fmt::Result {
        let raiser = self.raiser();
        let refusal = self.refusal();
        match self.bit() {
            Some(bit) => write!(f, "{raiser} {refusal} {bit}"),
            None => write!(f, "{raiser} {refusal}"),
        }
    }
}
