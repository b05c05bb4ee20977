//! The history, by which each epoch is coded or read, and which its lines change in place (Hatanaka's
//! Compact RINEX 3.0).

ghost use Rattle.std.specs.Prelude.{List, ◌≡◌, ◌≤◌, ◌<◌, ◌+◌, ◌-◌, ◌*◌, if◌then◌else◌, [], true, false, None, Some, Ok, Err, All, length, take, map, is_some, OnOk, OnErr, IfOk, IfErr};
ghost use Rattle.crx_text.specs.meaning.Columns.{columns};
ghost use Rattle.crx_base.specs.Padded.{line_in};
ghost use Rattle.crx_base.specs.declared.limits.TheConstants.{HEAD_WIDTH, LINE_LIMIT, NAME_WIDTH, SATELLITES_LIMIT};
ghost use Rattle.crx_header.specs.meaning.EpochColumns.{begins_epoch, epoch_count};
ghost use Rattle.crx_rinex.specs.Epochs.{is_full_epoch};
ghost use Rattle.crx_rinex.specs.meaning.Observations.{Row};
ghost use Rattle.crx_rinex.specs.SatelliteLines.{AreMissingFrom};
ghost use Rattle.crx_header.specs.meaning.Satellites.{types_of_satellite};
ghost use Rattle.crx_compact.specs.ArcSteps.{shown_value};
ghost use Rattle.crx_compact.specs.EpochLinesRead.{AnswersEpochLine, AnswersSatellites, history_cleared};
ghost use Rattle.crx_compact.specs.HeldRows.{IsAwaitedSatellite, past_of_tail};
ghost use Rattle.crx_compact.specs.Blocks.{no_lines};
ghost use Rattle.crx_compact.specs.declared.block.TheConstants.{FIRST_LINES};
ghost use Rattle.crx_compact.specs.declared.history.TheConstants.{EPOCH_TEXT_LIMIT};
ghost use Rattle.crx_compact.specs.PrintedBlocks.{IsPrinted};
ghost use Rattle.crx_compact.specs.meaning.CompactPlaces.{clock_line_read, satellites_of_text};
ghost use Rattle.crx_compact.specs.meaning.EpochText.{names_in, satellites_named};
ghost use Rattle.crx_compact.specs.Placing.{AnswersRow, HasAllowedCount, IsAnnounced, KeepsRooms, PreparesRow, no_history, padded, row_of_parts, satellite_of, tail_of_history};
ghost use Rattle.crx_compact.specs.Written.{AnswersWriting, AreRowsWritten, IsEpochWritten, epoch_by_rows};
ghost use Rattle.crx_rinex.specs.meaning.SatelliteLines.{IsSoundRow};
ghost use Rattle.crx_compact.specs.RowsSoFar.{NamesSatellites, HasClock};
ghost use Rattle.crx_compact.specs.ShownRows.{shown_epoch};
ghost use Rattle.crx_compact.specs.Steps.{no_tail};
ghost use Rattle.crx_compact.specs.Tails.{Tail};

use crate::arc::ClockArc;
use crate::block::Block;
use crate::satellite::put_first;
use crate::satellites::Satellites;
use crx_base::limits::{HEAD_WIDTH, LINE_LIMIT, NAME_WIDTH, SATELLITES_LIMIT, TYPES_LIMIT};
use crx_base::{Fault, Padded, Refused};
use crx_header::{Types, after_columns, all_blank, epoch_columns, identifier, padded};
use crx_rinex::{Epoch, EpochLine, SatRow, begins_epoch, print_head, types_of_satellite};
use crx_text::columns::trim_end_columns;
use crx_text::difference::{append_difference, patch_bytes};
use crx_text::{Text, code_print, code_read, trim_end};
use std::alloc::Global;
use std::marker::Model;

/// The greatest length of an epoch text: columns 1 to 41 of its line, and the identifiers of
/// [`SATELLITES_LIMIT`] satellites.
pub(crate) const EPOCH_TEXT_LIMIT: usize = HEAD_WIDTH + NAME_WIDTH * SATELLITES_LIMIT;

/// The text of the newest epoch, the clock's arc, and the satellites in the order of the file.
#[derive(Drop)]
pub struct History {
    /// The text. The bytes after it aren't used.
    text: [u8; EPOCH_TEXT_LIMIT],
    /// The length of the text.
    length: usize,
    /// The text of the epoch whose lines are being written.
    next_text: [u8; EPOCH_TEXT_LIMIT],
    clock: ClockArc,
    satellites: Satellites,
    alloc: Global,
}

impl Model for History {
    ghost use Rattle.std.specs.Prelude.{◌≤◌, take};
    ghost use Rattle.crx_compact.specs.Placing.{OpenHistory};
    ghost use Rattle.crx_compact.specs.declared.history.TheConstants.{EPOCH_TEXT_LIMIT};

    ghost Value = { OpenHistory };

    ghost view = { λ history. record {
      text = take history.length history.text;
      clock = history.clock;
      satellites = history.satellites;
    } };

    ghost invariant = { λ history. history.length ≤ EPOCH_TEXT_LIMIT };
}

impl History {
    /// Returns a history without epochs: an empty text, no arcs and no satellites. Inlined, because a call
    /// copies its texts.
    #[inline(always)]
    pub(crate) fn new(alloc: Global) -> History
        ensures empty { result ≡ no_history }
    {
        History {
            text: [b' '; EPOCH_TEXT_LIMIT],
            length: 0,
            next_text: [b' '; EPOCH_TEXT_LIMIT],
            clock: ClockArc::new(),
            satellites: Satellites::new(alloc),
            alloc,
        }
    }

    /// Forgets the newest epoch: its text is empty, the clock's arc ends, and no row is left. Its satellites
    /// count as the previous epoch's until the next epoch begins, and then as absent; their memory is used
    /// again.
    pub(crate) fn clear(&mut self)
        ensures emptied { self.new ≡ history_cleared self.old }
    {
        self.length = 0;
        self.clock.end();
        self.satellites.begin_epoch();
    }

    /// Writes the compact lines of `epoch`, which has to have all its rows, into `lines`, which has to be
    /// empty: full if `in_full` is set, otherwise as differences from the previous epoch. The history then
    /// includes the epoch.
    ///
    /// Returns `Refused` if memory is refused. All memory is reserved first, so that the history and `lines`
    /// are then unchanged.
    pub(crate) fn encode(
        &mut self,
        epoch: &Epoch,
        in_full: bool,
        scratch: &mut Text,
        lines: &mut Block,
    ) -> Result<(), Refused>
        requires whole { is_full_epoch epoch.now ≡ true }
        requires none { lines.old ≡ no_lines }
        ensures written { OnOk result (IsEpochWritten
            (if in_full then no_tail else tail_of_history self.old) epoch.now self.new lines.new.lines) }
        ensures err { OnErr result (tail_of_history self.new ≡ tail_of_history self.old) }
        ensures rooms { KeepsRooms self.old.satellites.rooms self.new.satellites.rooms }
    {
        prove!(epoch.is_full());
        let satellites = &mut self.satellites;
        let mut prepared = 0;
        while let Some(wanting) = epoch.row(prepared) {
            satellites.prepare(wanting.name(), wanting.values().len())?;
            prepared += 1;
        }
        self.begin_rows(in_full);
        let mut index = 0;
        while let Some(row) = epoch.row(index) {
            let values = row.values();
            self.write_row(
                &row.name(),
                values,
                values.len(),
                row.flags(),
                scratch,
                lines,
            )
            .unwrap();
            index += 1;
        }
        self.end_rows(epoch.head(), scratch, lines);
        Ok(())
    }

    /// Begins an epoch whose rows are written one by one, without rows yet: full if `in_full` is set, which
    /// forgets the previous epoch, otherwise as differences from the previous epoch.
    pub(crate) fn begin_rows(&mut self, in_full: bool)
        ensures begun { AreRowsWritten (if in_full then no_tail else tail_of_history self.old) [] self.new [] }
        ensures rooms { self.new.satellites.rooms ≡ self.old.satellites.rooms }
    {
        if in_full {
            self.clear();
        }
        self.satellites.begin_epoch();
    }

    /// Appends the compact line of the epoch's next row to `lines`, and returns `true`. Only the first
    /// `filled` of `values` may be present; `flags` are two indicators for each value. Returns `false` and
    /// changes nothing if the epoch has a row of the satellite already. Returns `Refused` if memory is
    /// refused; then `lines` is unchanged, but the history may be inconsistent.
    #[inline(always)]
    pub(crate) fn write_row(
        &mut self,
        name: &[u8; NAME_WIDTH],
        values: &[Option<i64>],
        filled: usize,
        flags: &[u8],
        scratch: &mut Text,
        lines: &mut Block,
    ) -> Result<bool, Refused>
        requires sound { IsSoundRow (row_of_parts name.now values.now flags.now) }
        requires missing { AreMissingFrom filled values.now }
        requires left { 0 < lines.old.left }
        ensures written { (after : Tail) (rows : List Row) → AreRowsWritten after rows self.old lines.old.lines
            → AnswersWriting after rows (row_of_parts name.now values.now flags.now) self.old lines.old
            self.new lines.new result }
        ensures prepared { PreparesRow name.now (length values.now) self.old.satellites.rooms self.new.satellites.rooms result }
    {
        let count = values.len();
        let is_new = match self.satellites.place(name, count) {
            Some(is_new) => is_new,
            None => {
                self.satellites.prepare(*name, count)?;
                self.satellites.place_by_lookup(name, count).unwrap()
            }
        };
        if !is_new {
            return Ok(false);
        }
        let last = self.satellites.placed_count() - 1;
        let satellite = self.satellites.entry_mut(last).unwrap();
        lines.put_row(satellite, values, filled, flags, scratch);
        Ok(true)
    }

    /// Ends an epoch whose rows are all written: puts its epoch line and its clock line, coded, in front of
    /// their lines. `head`: its epoch line, which has to announce as many satellites as there are rows. The
    /// history then includes the epoch.
    pub(crate) fn end_rows(&mut self, head: &EpochLine, scratch: &mut Text, lines: &mut Block)
        requires counted { length self.old.satellites.rows ≡ head.now.count }
        requires front { FIRST_LINES ≤ lines.old.front }
        ensures written { (after : Tail) (rows : List Row) → AreRowsWritten after rows self.old lines.old.lines
            → IsEpochWritten after (epoch_by_rows head.now rows) self.new lines.new.lines }
        ensures kept { self.new.satellites ≡ self.old.satellites }
    {
        put_first(&mut self.next_text, head.columns());
        self.satellites.put_names(&mut self.next_text);
        let next_text = trim_end(&self.next_text[..HEAD_WIDTH + NAME_WIDTH * head.count()]);
        scratch.clear();
        code_print(self.clock.push(head.clock()), scratch).unwrap();
        lines.put_front(scratch.bytes());
        // The texts of two epochs usually differ only in their times.
        scratch.clear();
        append_difference(&self.text[..self.length], next_text, scratch);
        scratch.trim_end_blanks();
        lines.put_front(scratch.bytes());
        put_first(&mut self.text, next_text);
        self.length = next_text.len();
    }

    /// Reads an epoch line: replaces the text by the one that the line makes, and adds a row for every
    /// satellite named there, with its system's number of types. `is_named`: the satellites of the previous
    /// epoch are those that its text names.
    ///
    /// Returns `BadEpoch` if the line has a character outside 32 to 126, or the text that it makes doesn't
    /// begin with an observation epoch's columns 1 to 41 or has more than blanks after its identifiers;
    /// otherwise, at the first identifier with a fault, `BadSatellite` if it isn't well-formed or its system
    /// has no types, `RepeatedSatellite` if it is repeated, and `OutOfMemory` if memory is refused. After an
    /// error the text is unchanged, but the satellites may be inconsistent.
    pub(crate) fn read_epoch_line(
        &mut self,
        types: &Types,
        line: &[u8],
        is_named: bool,
        scratch: &mut Text,
    ) -> Result<(), Fault>
        requires short { length line.now ≤ LINE_LIMIT }
        requires named { is_named ≡ true → IsAnnounced self.old }
        ensures { AnswersEpochLine types.now line.now self.old self.new result }
    {
        if patch_bytes(&self.text[..self.length], line, scratch).is_err() {
            return Err(Fault::BadEpoch);
        }
        self.satellites.begin_epoch();
        let text = scratch.bytes();
        // Most epoch lines change only columns before the identifiers.
        let are_same = is_named & (line.len() <= HEAD_WIDTH);
        read_satellites(types, text, are_same, &mut self.satellites)?;
        put_first(&mut self.text, text);
        self.length = text.len();
        Ok(())
    }

    /// Reads a clock line and applies its coded value to the clock's arc. Blanks at the line's end don't
    /// count; an empty line ends the arc.
    ///
    /// Returns `Truncated` if the line begins with `>`, `BadClock` if it is no coded value, `NoArc` for a
    /// difference if the arc has no values, and `OutOfRange` if the value doesn't fit its columns. After an
    /// error nothing has changed.
    #[inline(never)]
    pub(crate) fn read_clock(&mut self, line: &[u8]) -> Result<(), Fault>
        ensures ok { OnOk result
            (HasClock (tail_of_history self.old) line.now (tail_of_history self.old) (tail_of_history self.new)) }
        ensures err { IfErr result (λ fault.
            clock_line_read (past_of_tail (tail_of_history self.old)) line.now ≡ Err fault) }
        ensures others { self.new ≡ record self.old { clock = self.new.clock } }
    {
        // Most epochs have no clock offset: nothing is parsed.
        if line.is_empty() {
            self.clock.end();
            return Ok(());
        }
        if begins_epoch(line) {
            return Err(Fault::Truncated);
        }
        let Ok(code) = code_read(trim_end(line)) else {
            return Err(Fault::BadClock);
        };
        self.clock.apply(code)?;
        Ok(())
    }

    /// Returns how many rows the newest epoch has.
    #[inline(always)]
    pub(crate) fn count(&self) -> usize
        ensures value { result ≡ length self.now.satellites.rows }
    {
        self.satellites.placed_count()
    }

    /// Reads the satellite line of the row at `index`, from 0, which has to exist. Returns `Truncated` if the
    /// line begins with `>`; then nothing changes. Otherwise, at the first cell with a fault, returns
    /// `BadField` if it is no coded value, `NoArc` if it is a difference and its arc has no values, and
    /// `OutOfRange` if its value doesn't fit its columns; otherwise `BadFlags` if the marks after the cells
    /// have a character outside 32 to 126, or more than blanks after two for each type. Then the row may have
    /// changed.
    #[inline(always)]
    pub(crate) fn read_row(
        &mut self,
        index: usize,
        line: Padded<'_>,
        scratch: &mut Text,
    ) -> Result<(), Fault>
        requires short { length (line_in line) ≤ LINE_LIMIT }
        requires within { index < length self.old.satellites.rows }
        requires allowed { All HasAllowedCount self.old.satellites.rows }
        ensures answer { AnswersRow index (line_in line.entry) self.old.satellites self.new.satellites result }
        ensures others { self.new ≡ record self.old { satellites = self.new.satellites } }
    {
        if begins_epoch(line.line()) {
            return Err(Fault::Truncated);
        }
        self.satellites
            .entry_mut(index)
            .unwrap()
            .read(line, scratch)
    }

    /// Returns the newest epoch: its line, and a row for each satellite with the newest values and
    /// indicators. Returns `OutOfMemory`, its only error, if it has satellites and memory is refused.
    pub(crate) fn epoch(&self) -> Result<Epoch, Fault>
        requires announced { IsAnnounced self.now }
        ensures ok { IfOk result (λ epoch. epoch
            ≡ shown_epoch (tail_of_history self.now) (length self.now.satellites.rows)) }
        ensures memory { IfErr result (λ fault. (fault ≡ Fault.OutOfMemory) × (0 < length self.now.satellites.rows)) }
    {
        let mut epoch = Epoch::new(self.alloc, self.head());
        for index in 0..self.satellites.placed_count() {
            let (name, satellite) = self.satellites.entry(index);
            match epoch.push(satellite.row(self.alloc, *name)?) {
                Ok(()) => {}
                Err((_, fault)) => return Err(fault),
            }
        }
        Ok(epoch)
    }

    /// Returns the epoch line of the newest epoch, with its clock offset, if any. The text has to begin with
    /// an observation epoch's columns 1 to 41.
    pub(crate) fn head(&self) -> EpochLine
        requires { is_some (epoch_count (columns self.now.text 1 HEAD_WIDTH)) ≡ true }
        ensures head { result.head ≡ columns self.now.text 1 HEAD_WIDTH }
        ensures clock { result.clock ≡ shown_value self.now.clock }
    {
        EpochLine::new(padded(&self.text[..self.length], 1), self.clock.value()).unwrap()
    }

    /// Prints the RINEX line that the line read last completes. `count`: how many rows have been read. If it
    /// is 0, the printed epoch line replaces all `lines`; otherwise the last of these rows is appended.
    #[inline(always)]
    pub(crate) fn print(&self, count: usize, lines: &mut Block, scratch: &mut Text)
        requires announced { IsAnnounced self.now }
        requires within { count ≤ length self.now.satellites.rows }
        requires before { 0 < count → IsPrinted (count - 1) (tail_of_history self.now) lines.old }
        ensures printed { IsPrinted count (tail_of_history self.now) lines.new }
    {
        if count == 0 {
            self.print_first_line(lines, scratch);
            return;
        }
        let (name, satellite) = self.satellites.entry(count - 1);
        lines.put_printed(name, satellite);
    }

    /// Replaces all `lines` by the printed epoch line. Not inlined: no locals to initialize per row.
    #[inline(never)]
    fn print_first_line(&self, lines: &mut Block, scratch: &mut Text)
        requires announced { IsAnnounced self.now }
        ensures printed { IsPrinted 0 (tail_of_history self.now) lines.new }
    {
        lines.clear();
        // Most epochs have no clock offset: columns 1 to 41 are copied.
        let Some(_) = self.clock.value() else {
            lines.put(trim_end_columns(&self.text[..self.length], 1, HEAD_WIDTH));
            return;
        };
        print_head(&self.head(), scratch);
        lines.put(scratch.bytes());
    }
}

/// Adds a row for every satellite named in an epoch text, with its system's number of types, to an epoch
/// without rows. `are_same`: the text names exactly the satellites of the previous epoch, if it announces
/// their number.
///
/// Returns `BadEpoch` if columns 1 to 41 don't begin an observation epoch, or anything but blanks follows the
/// last announced identifier; otherwise, at the first identifier with a fault, `BadSatellite` if it isn't
/// well-formed or its system has no types, `RepeatedSatellite` if it is repeated, and `OutOfMemory` if memory
/// is refused. Rows before it stay.
fn read_satellites(
    types: &Types,
    text: &[u8],
    are_same: bool,
    satellites: &mut Satellites,
) -> Result<(), Fault>
    requires none { satellites.old.rows ≡ [] }
    requires named { are_same ≡ true → NamesSatellites text.now (map satellite_of satellites.old.rest) }
    requires awaited { are_same ≡ true → All IsAwaitedSatellite (map satellite_of satellites.old.rest) }
    ensures { AnswersSatellites (satellites_of_text types.now text.now) satellites.old satellites.new result }
{
    let Some(count) = epoch_columns::satellites(&padded::<HEAD_WIDTH>(text, 1)) else {
        return Err(Fault::BadEpoch);
    };
    if !all_blank(after_columns(text, HEAD_WIDTH + NAME_WIDTH * count)) {
        return Err(Fault::BadEpoch);
    }
    if are_same && satellites.repeat_rows(types, count) {
        return Ok(());
    }
    read_names(types, text, count, satellites)
}

/// Reads `count` identifiers after column 41, from left to right, and adds a row for each to an epoch without
/// rows.
///
/// At the first with a fault, returns `BadSatellite` if it isn't well-formed or its system has no types,
/// `RepeatedSatellite` if it is repeated, and `OutOfMemory` if memory is refused. Earlier rows stay.
fn read_names(
    types: &Types,
    text: &[u8],
    count: usize,
    satellites: &mut Satellites,
) -> Result<(), Fault>
    requires none { satellites.old.rows ≡ [] }
    requires few { count ≤ SATELLITES_LIMIT }
    ensures { AnswersSatellites (satellites_named types.now [] (names_in text.now count)) satellites.old
        satellites.new result }
{
    for index in 0..count {
        let name = identifier(text, HEAD_WIDTH + 1 + NAME_WIDTH * index);
        let Some(cells) = types_of_satellite(types, &name) else {
            return Err(Fault::BadSatellite);
        };
        let is_new = match satellites.place(&name, cells) {
            Some(is_new) => is_new,
            None => {
                satellites.prepare(name, cells)?;
                satellites.place_by_lookup(&name, cells).unwrap()
            }
        };
        if !is_new {
            return Err(Fault::RepeatedSatellite);
        }
        let last = satellites.placed_count() - 1;
        satellites.entry_mut(last).unwrap().resize(cells);
    }
    Ok(())
}
