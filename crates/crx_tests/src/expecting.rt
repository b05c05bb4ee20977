//! Expectations of tests. Only this module makes a message: if a test makes one itself, the prover goes through
//! that too.

ghost use Rattle.std.specs.Prelude.{◌≡◌, true};

use std::process::Abort;

/// Expects that `is_so` holds; otherwise the test fails with `what`.
pub fn expect(rt: &impl Abort, is_so: bool, what: &str)
    ensures holds { is_so ≡ true }
{
    assert!(rt; is_so, "{what}");
}

/// Does the same as [`expect`] at a place: of a row, a byte, a line, or a length.
pub fn expect_at(rt: &impl Abort, is_so: bool, what: &str, place: usize)
    ensures holds { is_so ≡ true }
{
    assert!(rt; is_so, "{what} {place}");
}
