//! Epochs one after another, as files have them.

use crate::texts::lines_of;

/// Epochs that show something together.
pub struct Table {
    /// What they show.
    pub shows: &'static str,
    /// 0: no epoch is requested to be full; 1: each one is; 2: every second one is, from the first one on.
    pub full: usize,
    /// The RINEX lines of each epoch, `=`, and its compact lines, or the names of such lines, with `|` between
    /// lines.
    pub epochs: &'static [&'static str],
}

impl Table {
    /// Returns whether the epoch at `place` in the table is requested to be full.
    pub fn is_full(&self, place: usize) -> bool {
        self.full != 0 && place % self.full == 0
    }
}

/// Epochs that are written as they are read: see [`both_ways`].
const BOTH_WAYS: &[Table] = &[
    Table {
        shows: "five values of one cell",
        full: 0,
        epochs: &["E1=F1", "E2=C2", "E3=C3", "E4=C4", "E5=C5"],
    },
    Table {
        shows: "every second epoch in full",
        full: 2,
        epochs: &[
            "E1=F1",
            "E2=C2",
            "E3=F3",
            "E4=                    3||102500",
        ],
    },
    Table {
        shows: "a satellite that is absent for an epoch",
        full: 0,
        epochs: &[
            "> 2024 01 01 00 00  0.0000000  0  2|G01         1.000|G02         5.000 7=A1",
            "> 2024 01 01 00 00  1.0000000  0  1|G01         2.000=A2",
            "> 2024 01 01 00 00  2.0000000  0  2|G01         3.000|G02         7.000 7=A3",
        ],
    },
    Table {
        shows: "receiver clock offsets",
        full: 0,
        epochs: &[
            "> 2024 01 01 00 00  0.0000000  0  1      -0.123456789012|G01=> 2024 01 01 00 00  0.0000000  0  1      G01|3&-123456789012|",
            "> 2024 01 01 00 00  1.0000000  0  1|G01=                    1||",
            "> 2024 01 01 00 00  2.0000000  0  1       0.000000000001|G01=                    2|3&1|",
            "> 2024 01 01 00 00  3.0000000  0  1       0.000000000003|G01=                    3|2|",
        ],
    },
];

/// Epochs whose compact lines other writers made: see [`read_alone`].
const READ_ALONE: &[Table] = &[Table {
    shows: "marks past the last identifier",
    full: 0,
    epochs: &[
        "> 2024 01 01 00 00  0.0000000  0  1|G01         1.000=> 2024 01 01 00 00  0.0000000  0  1      G01||1&1000",
        "> 2024 01 01 00 00  1.0000000  0  1|G01         1.500=                    1                              &&&||500",
        "> 2024 01 01 00 00  2.0000000  0  1|G01         2.000=                    2||500",
    ],
}];

/// Returns the RINEX lines of an epoch of a table, and its compact lines.
pub fn both_forms<'a>(epoch: &'a str) -> (&'a str, &'a str) {
    match epoch.split_once('=') {
        Some((rinex, compact)) => (lines_of(rinex), lines_of(compact)),
        None => (epoch, ""),
    }
}

/// Returns the epochs that are written as they are read. Only this function names the table, because the prover
/// goes through it wherever it is named.
pub fn both_ways() -> &'static [Table] {
    BOTH_WAYS
}

/// Returns the epochs whose compact lines other writers made.
pub fn read_alone() -> &'static [Table] {
    READ_ALONE
}
