//! Rows to compact lines, one at a time, by a history that they change in place (Hatanaka's Compact RINEX
//! 3.0).

ghost use Rattle.std.specs.Prelude.{◌≡◌, ◌≤◌, ◌<◌, ◌+◌, ◌*◌, ◌++◌, ◌∷◌, ◌↔◌, [], None, true, false, not, length, drop, slice_get, IsTrue, IfOk, OnErr};
ghost use Rattle.crx_base.specs.declared.limits.TheConstants.{DATE_LIMIT};
ghost use Rattle.crx_header.specs.meaning.CompactHeader.{lines_before_header};
ghost use Rattle.crx_rinex.specs.meaning.Epochs.{has_satellite};
ghost use Rattle.crx_compact.specs.Encoding.{EncoderState, EndsEpoch, forgotten};
ghost use Rattle.crx_compact.specs.declared.block.TheConstants.{LINES_LIMIT};
ghost use Rattle.crx_compact.specs.Blocks.{lines_text};

use crate::block::Block;
use crate::ghost_tail::GhostTail;
use crate::history::History;
use crx_base::Refused;
use crx_base::memory::try_box;
use crx_base::options::in_columns;
use crx_header::crinex::{CRINEX_PROGRAM, CRINEX_PROGRAM_LABEL, CRINEX_VERSION_LINE};
use crx_rinex::{EpochLine, RowBuffer, RowsSoFar};
use crx_text::Text;
use crx_text::appending::append;
use std::alloc::Global;
use std::marker::Model;

/// An encoder for epochs whose rows arrive one by one. It holds the pending lines of an epoch, or the two
/// lines before the header. All memory except for an epoch's satellites is reserved at the beginning.
#[derive(Drop)]
pub struct Encoder {
    history: Box<History>,
    /// Whether the history holds an epoch.
    is_kept: bool,
    /// Whether the open epoch was begun as full. It is full in any case if no epoch is kept.
    in_full: bool,
    /// Whether an epoch is open; then no line is pending.
    is_open: bool,
    /// The pending lines, or the compact lines of the open epoch so far.
    made: Block,
    scratch: Box<Text>,
    /// The tail of the epochs before the open one, whose rows change the history in place.
    before: GhostTail,
    /// The rows of the open epoch so far.
    rows: RowsSoFar,
}

impl Model for Encoder {
    ghost use Rattle.std.specs.Prelude.{◌≡◌, ◌≤◌, [], if◌then◌else◌};
    ghost use Rattle.crx_compact.specs.Encoding.{EncoderState, IsEncoding, tail_or_none};

    ghost Value = { EncoderState };

    ghost view = { λ encoder. record {
      before = tail_or_none encoder.is_kept encoder.before.tail;
      is_open = encoder.is_open;
      in_full = encoder.in_full;
      rows = if encoder.is_open then encoder.rows.rows else [];
      pending = if encoder.is_open then [] else encoder.made.lines;
    } };

    ghost invariant = { λ encoder. IsEncoding encoder.is_open encoder.is_kept encoder.before.tail encoder.in_full
        encoder.rows.rows encoder.history.value encoder.made };
}

impl Encoder {
    ghost use Rattle.std.specs.Borrow.{sem};
    ghost use Rattle.std.specs.Io.BufRead.{Rests};
    ghost use Rattle.std.specs.Option.{option_copied};
    ghost use Rattle.crx_compact.specs.contracts.encoder.Encoder.{the_row};

    /// Returns an encoder without epochs and lines, which has the memory for all lines; only satellites need
    /// more later. Returns `Refused` if memory is refused.
    pub fn new(alloc: Global) -> Result<Encoder, Refused>
        ensures before { IfOk result (λ e. e.before ≡ None) }
        ensures closed { IfOk result (λ e. e.is_open ≡ false) }
        ensures rows { IfOk result (λ e. e.rows ≡ []) }
        ensures pending { IfOk result (λ e. e.pending ≡ []) }
    {
        let made = Block::new(alloc)?;
        let scratch = try_box(alloc, Text::new())?;
        let history = try_box(alloc, History::new(alloc))?;
        let before = GhostTail::of(&history);
        Ok(Encoder {
            history,
            is_kept: false,
            in_full: false,
            is_open: false,
            made,
            scratch,
            before,
            rows: RowsSoFar::new(),
        })
    }

    /// Forgets every epoch, the open one included, and drops all lines: the next epoch is full.
    pub fn reset(&mut self)
        ensures emptied { self.new ≡ forgotten self.old [] }
    {
        self.is_open = false;
        self.is_kept = false;
        self.made.clear();
    }

    /// Replaces all lines by the two lines before the header, with this `date` of at most `DATE_LIMIT` bytes,
    /// and forgets every epoch, the open one included.
    pub fn put_first_lines(&mut self, date: &[u8])
        requires dated { length date.now ≤ DATE_LIMIT }
        ensures put { self.new ≡ forgotten self.old (lines_before_header date.now true) }
    {
        self.is_open = false;
        self.is_kept = false;
        self.made.clear();
        self.scratch.clear();
        append(&mut self.scratch, &CRINEX_PROGRAM);
        append(&mut self.scratch, &in_columns(date));
        append(&mut self.scratch, &CRINEX_PROGRAM_LABEL);
        self.made.put_front(self.scratch.bytes());
        self.made.put_front(&CRINEX_VERSION_LINE);
    }

    /// Begins an epoch and drops all lines: full if `full` is set or there is no earlier epoch, otherwise as
    /// differences from the previous epoch. No epoch may be open.
    pub fn begin_epoch(&mut self, full: bool)
        requires closed { self.old.is_open ≡ false }
        ensures begun { self.new ≡ record self.old {
          is_open = true;
          in_full = full;
          rows = [];
          pending = [];
        } }
    {
        self.history.begin_rows(full || !self.is_kept);
        self.rows = RowsSoFar::new();
        self.in_full = full;
        self.is_open = true;
        self.made.clear();
    }

    /// Adds the compact line of the next row of the open epoch, and returns `true`. Returns `false` and
    /// changes nothing if the epoch has a row of the satellite already. Returns `Refused` if memory is
    /// refused; then every epoch is forgotten, the open one included, and no line is left. An epoch has to be
    /// open, with at most 999 rows.
    #[inline(always)]
    pub fn encode_row(&mut self, row: &RowBuffer) -> Result<bool, Refused>
        requires open { self.old.is_open ≡ true }
        requires few { length self.old.rows < LINES_LIMIT }
        ensures answer { IfOk result (λ is_new. is_new ≡ not (has_satellite row.now.name self.old.rows)) }
        ensures written { IfOk result (λ is_new. is_new ≡ true
            → self.new ≡ record self.old { rows = self.old.rows ++ row.now ∷ [] }) }
        ensures repeated { IfOk result (λ is_new. is_new ≡ false → self.new ≡ self.old) }
        ensures forgotten { OnErr result ((has_satellite row.now.name self.old.rows ≡ false)
            × (self.new ≡ forgotten self.old [])) }
    {
        match self.history.write_row(
            row.name(),
            row.values(),
            row.filled_count(),
            row.flags(),
            &mut self.scratch,
            &mut self.made,
        ) {
            Ok(true) => {
                self.rows.add(row);
                Ok(true)
            }
            Ok(false) => Ok(false),
            Err(error) => {
                self.is_open = false;
                self.is_kept = false;
                self.made.clear();
                Err(error)
            }
        }
    }

    /// Ends the open epoch; `head`: its epoch line, which has to announce as many satellites as it has rows.
    /// An epoch has to be open. Its lines are then pending.
    pub fn end(&mut self, head: &EpochLine)
        requires open { self.old.is_open ≡ true }
        requires counted { length self.old.rows ≡ head.now.count }
        ensures ended { EndsEpoch head.now self.old self.new }
    {
        self.history
            .end_rows(head, &mut self.scratch, &mut self.made);
        self.is_kept = true;
        self.before = GhostTail::of(&self.history);
        self.is_open = false;
    }

    /// Returns whether no line is pending, as while an epoch is open.
    pub fn is_drained(&self) -> bool
        ensures value { IsTrue result ↔ (self.now.pending ≡ []) }
    {
        self.is_open || self.made.is_drained()
    }

    /// Borrows the next pending line, without LF, and removes it; returns `None` if none is pending, as while
    /// an epoch is open.
    pub fn next_line(&mut self) -> Option<&[u8]>
        ensures value { option_copied result ≡ slice_get self.old.pending 0 }
        ensures* after_borrow { sem 𝓛 (Rests the_row self.entry
            (λ new. new ≡ record self.old { pending = drop 1 self.old.pending })) }
    {
        if self.is_open {
            return None;
        }
        self.made.next_line()
    }

    /// Borrows all pending lines as one text, each followed by LF; it is empty if none is pending, as while
    /// an epoch is open. After this call none is pending.
    pub fn take_text(&mut self) -> &[u8]
        ensures value { result.now ≡ lines_text self.old.pending }
        ensures* after_borrow { sem 𝓛 (Rests the_row self.entry (λ new. new ≡ record self.old { pending = [] })) }
    {
        if self.is_open {
            return &[];
        }
        self.made.take_text()
    }
}
