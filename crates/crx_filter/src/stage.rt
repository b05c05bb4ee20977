//! The stage of a run between two lines, in either direction.

ghost use Rattle.std.specs.Prelude.{◌≡◌, Some, true};
ghost use Rattle.crx_filter.specs.LineByLine.{fault_at_end_in, may_skip, with_records_left};
ghost use Rattle.crx_filter.specs.meaning.Items.{counts_types};
ghost use Rattle.crx_filter.specs.Stages.{IsClosedStage, bare_phase};
ghost use Rattle.crx_filter.specs.RinexStages.{is_open_stage};

use crx_base::{At, Fault};

/// The stage of a run between two lines.
#[derive(Clone, Copy)]
pub enum Stage {
    /// In the two lines before the header of compact text.
    FirstLines {
        /// How many of them have been read.
        count: usize,
    },
    /// In the header.
    Header {
        /// Whether no header line has been read yet.
        is_first: bool,
    },
    /// Between two units after the header: an epoch or an event may begin.
    Between,
    /// Among the records of an event.
    Event {
        /// How many records are still to be read.
        left: usize,
        /// Whether types lines among them count.
        counted: bool,
    },
    /// In an epoch: some of its lines have been read.
    Open,
    /// After a warning: looking for a line that begins with `>`.
    Looking,
    /// After the end of the input.
    Closed,
    /// After a fault that ended the run.
    Ended(At),
}

impl Stage {
    /// Returns whether an epoch is open: some of its lines have been read.
    pub fn is_in_epoch(&self) -> bool
        ensures value { result ≡ is_open_stage self.now }
    {
        matches!(self, Stage::Open)
    }

    /// Returns whether faults may be skipped: between two units, in an epoch, and while looking for `>`.
    pub fn may_skip(&self) -> bool
        ensures value { result ≡ may_skip (bare_phase self.now) }
    {
        matches!(self, Stage::Between | Stage::Open | Stage::Looking)
    }

    /// Returns the fault if the input ends at this stage: in a header that isn't complete, `NotCompact`,
    /// `BadProgLine`, `MissingVersion` or `NoEndOfHeader`, by how far it got; among an event's records and in
    /// an epoch, `Truncated`; otherwise `None`.
    pub fn fault_at_end(&self) -> Option<Fault>
        ensures value { result ≡ fault_at_end_in (bare_phase self.now) }
        ensures open { is_open_stage self.now ≡ true → result ≡ Some Fault.Truncated }
    {
        match self {
            Stage::FirstLines { count: 0 } => Some(Fault::NotCompact),
            Stage::FirstLines { .. } => Some(Fault::BadProgLine),
            Stage::Header { is_first: true } => Some(Fault::MissingVersion),
            Stage::Header { is_first: false } => Some(Fault::NoEndOfHeader),
            Stage::Event { .. } | Stage::Open => Some(Fault::Truncated),
            Stage::Between | Stage::Looking | Stage::Closed | Stage::Ended(_) => None,
        }
    }
}

/// Returns the stage before `left` records of an event; 0: after it. `counted`: types lines among them count.
pub fn with_records_left(left: usize, counted: bool) -> Stage
    ensures stage { IsClosedStage result (with_records_left left counted) (with_records_left left counted) }
{
    if left == 0 {
        Stage::Between
    } else {
        Stage::Event { left, counted }
    }
}

/// Returns whether types lines among an event's records are read, and change the counts of types: `line`, the
/// event's first, has a digit from 2 to 5 in column 32. A shorter line has none.
pub fn counts_types(line: &[u8]) -> bool
    ensures value { result ≡ counts_types line.now }
{
    line.len() > 31 && matches!(line[31], b'2'..=b'5')
}
