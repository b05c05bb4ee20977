//! The names of crx_text: faults, lines and devices, texts, numbers and codes.

ghost use Rattle.std.specs.Prelude.{◌≤◌, length};
ghost use Rattle.std.specs.Option.{ForSome};
ghost use Rattle.crx_base.specs.declared.limits.TheConstants.{LINE_LIMIT};
ghost use Rattle.crx_text.specs.Codes.{IsPrintable};
ghost use Rattle.crx_text.specs.Numbers.{IsClock, IsObservation};

use crx_text::{
    At, BadCharacter, BadField, Code, Fault, Line, LineReader, ReadFailed, Sink, Source, Std, Text,
    TextFull, WriteFailed, clock_print, clock_read, code_print, code_read, diff_text, obs_print,
    obs_read, patch_text, write_all_counted,
};
use std::alloc::{AllocError, Global};

fn fault_code(fault: &Fault) -> u8 {
    fault.code()
}

fn fault_words(fault: &Fault) -> &'static str {
    fault.words()
}

fn fault_at(line: u64, fault: Fault) -> At {
    At { line, fault }
}

fn read<S: Source>(source: &mut S, buffer: &mut [u8]) -> Result<usize, ReadFailed> {
    source.read(buffer)
}

fn write<S: Sink>(sink: &mut S, bytes: &[u8]) -> Result<usize, WriteFailed> {
    sink.write(bytes)
}

fn flush<S: Sink>(sink: &mut S) -> Result<(), WriteFailed> {
    sink.flush()
}

fn write_all<W: Sink>(writer: &mut W, bytes: &[u8]) -> Result<(), (usize, WriteFailed)> {
    write_all_counted(writer, bytes)
}

fn device<D>(inner: D) -> Std<D> {
    Std::new(inner)
}

fn line_reader(alloc: Global) -> Result<LineReader, AllocError> {
    LineReader::new(alloc)
}

fn next_line<'a, R: Source>(
    lines: &'a mut LineReader,
    reader: &mut R,
) -> Result<Option<Line<'a>>, At> {
    lines.next_line(reader)
}

fn line_bytes<'a>(line: Line<'a>) -> &'a [u8] {
    line.bytes()
}

fn line_number(line: Line<'_>) -> u64 {
    line.number()
}

fn line_is_plain(line: Line<'_>) -> bool {
    line.plain()
}

fn text() -> Text {
    Text::new()
}

fn clear(text: &mut Text) {
    text.clear();
}

fn text_bytes(text: &Text) -> &[u8] {
    text.bytes()
}

fn push(text: &mut Text, byte: u8) -> Result<(), TextFull> {
    text.push(byte)
}

fn observation_read(field: &[u8]) -> Result<Option<i64>, BadField> {
    obs_read(field)
}

fn observation_printed(value: Option<i64>, field: &mut [u8; 14])
    requires { ForSome value IsObservation }
{
    obs_print(value, field);
}

fn clock_offset_read(field: &[u8]) -> Result<Option<i64>, BadField> {
    clock_read(field)
}

fn clock_offset_printed(value: Option<i64>, field: &mut [u8; 15])
    requires { ForSome value IsClock }
{
    clock_print(value, field);
}

fn missing() -> Code {
    Code::Missing
}

fn start(order: u8, value: i64) -> Code {
    Code::Start { order, value }
}

fn step(difference: i64) -> Code {
    Code::Step(difference)
}

fn code_of(text: &[u8]) -> Result<Code, BadField> {
    code_read(text)
}

fn code_printed(code: Code, text: &mut Text) -> Result<(), TextFull>
    requires { IsPrintable code }
{
    code_print(code, text)
}

fn difference(old: &Text, new: &[u8], out: &mut Text) -> Result<(), BadCharacter>
    requires { length new.now ≤ LINE_LIMIT }
{
    diff_text(old, new, out)
}

fn patch(old: &Text, marks: &[u8], out: &mut Text) -> Result<(), BadCharacter>
    requires { length marks.now ≤ LINE_LIMIT }
{
    patch_text(old, marks, out)
}
