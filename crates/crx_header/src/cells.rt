//! The indicators of a row's cells. RINEX 3.05, table A3, m(F14.3,I1,I1).

ghost use Rattle.std.specs.Prelude.{◌≡◌, ◌≤◌, ◌-◌, ◌++◌, replicate, length};
ghost use Rattle.crx_base.specs.declared.limits.TheConstants.{LINE_LIMIT};

use crx_text::copies::{copy_text, put_blanks};

/// Writes `flags`, two for each type, over the beginning of `held`, and blanks over the rest of it. `flags`
/// has to be no longer than `held`.
pub fn put_flags(held: &mut [u8], flags: &[u8])
    requires fitting { length flags.now ≤ length held.old }
    requires few { length held.old ≤ LINE_LIMIT }
    ensures put { held.new ≡ flags.now ++ replicate (length held.old - length flags.now) 32 }
{
    copy_text(&mut held[..flags.len()], flags);
    put_blanks(&mut held[flags.len()..]);
}
