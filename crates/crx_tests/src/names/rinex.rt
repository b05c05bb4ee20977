//! The names of crx_rinex: header lines, epoch lines and satellite lines, read and printed.

ghost use Rattle.std.specs.Prelude.{◌≡◌, ◌≤◌, ◌<◌, ◌*◌, false, length, true};
ghost use Rattle.std.specs.List.{list_all};
ghost use Rattle.std.specs.Option.{ForSome};
ghost use Rattle.crx_text.specs.meaning.Texts.{is_kept};
ghost use Rattle.crx_header.specs.meaning.ObservationTypes.{IsAllowedCount};
ghost use Rattle.crx_header.specs.meaning.Satellites.{is_identifier};
ghost use Rattle.crx_rinex.specs.Epochs.{is_full_epoch};
ghost use Rattle.crx_text.specs.Numbers.{IsClock, IsObservation};

use crx_rinex::{Epoch, EpochLine, Head, Printed, SatRow, Types, header_first, is_end, is_types};
use crx_text::{Fault, Text};
use std::alloc::Global;

fn types(alloc: Global) -> Types {
    Types::new(alloc)
}

fn types_line(types: &mut Types, line: &[u8]) -> Result<(), Fault> {
    types.accept_line(line)
}

fn count_of_types(types: &Types, letter: u8) -> Option<usize> {
    types.count(letter)
}

fn entry(types: &Types, index: usize) -> Option<(u8, usize)> {
    types.entry(index)
}

fn first_line(line: &[u8]) -> Result<(), Fault> {
    header_first(line)
}

fn ends_header(line: &[u8]) -> bool {
    is_end(line)
}

fn declares_types(line: &[u8]) -> bool {
    is_types(line)
}

fn event(flag: u8, count: usize) -> Head {
    Head::Event { flag, count }
}

fn observation_epoch(line: EpochLine) -> Head {
    Head::Epoch(line)
}

fn head_of(line: &[u8]) -> Result<Head, Fault> {
    Head::read(line)
}

fn epoch_line(columns: [u8; 41], clock: Option<i64>) -> Result<EpochLine, Fault>
    requires { ForSome clock IsClock }
{
    EpochLine::new(columns, clock)
}

fn columns(line: &EpochLine) -> &[u8; 41] {
    line.columns()
}

fn count_of_satellites(line: &EpochLine) -> usize {
    line.count()
}

fn clock_offset(line: &EpochLine) -> Option<i64> {
    line.clock()
}

fn row_of(alloc: Global, types: &Types, line: &[u8]) -> Result<SatRow, Fault> {
    SatRow::read(alloc, types, line)
}

fn blank_row(alloc: Global, name: [u8; 3], m: usize) -> Result<SatRow, Fault>
    requires named { is_identifier name ≡ true }
    requires allowed { IsAllowedCount m }
{
    SatRow::blank(alloc, name, m)
}

fn name(row: &SatRow) -> [u8; 3] {
    row.name()
}

fn value(row: &SatRow, k: usize) -> Option<Option<i64>> {
    row.value(k)
}

fn indicators(row: &SatRow) -> &[u8] {
    row.flags()
}

fn set_value(row: &mut SatRow, k: usize, value: Option<i64>)
    requires within { k < length row.old.values }
    requires ranged { ForSome value IsObservation }
{
    row.set(k, value);
}

fn set_indicators(row: &mut SatRow, flags: &[u8])
    requires fitting { length flags.now ≤ 2 * length row.old.values }
    requires kept { list_all is_kept flags.now ≡ true }
{
    row.set_flags(flags);
}

fn print_row(row: &SatRow, text: &mut Text) {
    row.print(text);
}

fn epoch(alloc: Global, head: EpochLine) -> Epoch {
    Epoch::new(alloc, head)
}

fn push_row(epoch: &mut Epoch, row: SatRow) -> Result<(), (SatRow, Fault)>
    requires { is_full_epoch epoch.old ≡ false }
{
    epoch.push(row)
}

fn has_all_rows(epoch: &Epoch) -> bool {
    epoch.is_full()
}

fn epoch_head(epoch: &Epoch) -> &EpochLine {
    epoch.head()
}

fn row_at(epoch: &Epoch, index: usize) -> Option<&SatRow> {
    epoch.row(index)
}

fn print_epoch(epoch: Epoch) -> Printed {
    Printed::new(epoch)
}

fn next_line(printed: &mut Printed) -> Option<&[u8]> {
    printed.next_line()
}
