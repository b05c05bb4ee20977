//! The lines of an observation epoch, printed one at a time. RINEX 3.05, table A3.

ghost use Rattle.std.specs.Prelude.{◌≡◌, drop, slice_get};
ghost use Rattle.std.specs.Borrow.{sem};
ghost use Rattle.std.specs.Io.BufRead.{Rests};
ghost use Rattle.std.specs.Option.{option_copied};
ghost use Rattle.crx_rinex.specs.meaning.Printing.{printed_epoch, printed_head};
ghost use Rattle.crx_rinex.specs.contracts.printed.Printed.{the_row};

use crate::epoch::Epoch;
use crate::epoch_line::EpochLine;
use crx_base::limits::{CLOCK_WIDTH, SATELLITES_LIMIT};
use crx_text::appending::append;
use crx_text::{Text, clock_print};
use std::marker::Model;

/// The pending lines of an epoch: the epoch line, then a line for each satellite.
#[derive(Drop)]
pub struct Printed {
    epoch: Epoch,
    next: usize,
    text: Text,
}

impl Model for Printed {
    ghost use Rattle.std.specs.Prelude.{ℕ, List, drop, ◌≤◌, ◌+◌};
    ghost use Rattle.crx_base.specs.declared.limits.TheConstants.{SATELLITES_LIMIT};
    ghost use Rattle.crx_rinex.specs.meaning.Printing.{printed_epoch};

    ghost Value = { List (List ℕ) };

    ghost view = { λ printed. drop printed.next (printed_epoch printed.epoch) };

    ghost invariant = { λ printed. printed.next ≤ SATELLITES_LIMIT + 1 };
}

impl Printed {
    /// Returns the lines of `epoch`, all of them pending.
    pub fn new(epoch: Epoch) -> Printed
        ensures value { result ≡ printed_epoch epoch }
    {
        Printed {
            epoch,
            next: 0,
            text: Text::new(),
        }
    }

    /// Borrows the next pending line, without its line end, and removes it from the pending lines: first the
    /// epoch line, then a line for each satellite. Returns `None` if none is pending.
    #[tactic(auto, using(crate::proofs::Lines::each_line))]
    pub fn next_line(&mut self) -> Option<&[u8]>
        ensures value { option_copied result ≡ slice_get self.old 0 }
        ensures* after_borrow { sem 𝓛 (Rests the_row self.entry (λ new. new ≡ drop 1 self.old)) }
    {
        if self.next == 0 {
            print_head(self.epoch.head(), &mut self.text);
        } else {
            self.epoch.row(self.next - 1)?.print(&mut self.text);
        }
        self.next += 1;
        Some(self.text.bytes())
    }
}

/// Replaces `text` by the printed epoch line `head`, which is columns 1 to 41 and the clock offset, if any,
/// without blanks at its end.
pub fn print_head(head: &EpochLine, text: &mut Text)
    ensures value { text.new ≡ printed_head head.now.head head.now.clock }
{
    let mut field = [b' '; CLOCK_WIDTH];
    clock_print(head.clock(), &mut field);
    text.clear();
    append(text, head.columns());
    append(text, &field);
    text.trim_end_blanks();
}
