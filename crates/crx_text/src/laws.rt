//! A law over the definitions of this crate: the contract of a function that does nothing.

ghost use Rattle.std.specs.Prelude.{◌≡◌, Some};
ghost use Rattle.std.specs.Option.{ForSome};
ghost use Rattle.crx_text.specs.Codes.{IsPrintable};
ghost use Rattle.crx_text.specs.Numbers.{IsClock, IsObservation};
ghost use Rattle.crx_text.specs.meaning.Codes.{code_of, code_text};
ghost use Rattle.crx_text.specs.meaning.Numbers.{clock_of, clock_text, observation_of, observation_text};

use crate::code::Code;

/// Does nothing at run time: its contract proves that the printed texts of an observation, of a receiver
/// clock offset and of a code are read back as the same value.
pub fn numbers_are_read_back(observation: Option<i64>, clock: Option<i64>, code: Code)
    requires observation { ForSome observation IsObservation }
    requires clock { ForSome clock IsClock }
    requires code { IsPrintable code }
    ensures observation { observation_of (observation_text observation) ≡ Some observation }
    ensures clock { clock_of (clock_text clock) ≡ Some clock }
    ensures code { code_of (code_text code) ≡ Some code }
{}
