//! The runs that are tried.

use super::*;

const CASES: &[Case] = &[
    Case {
        name: "third differences",
        tool: Tool::Compact,
        skip: false,
        input: "H|E1|E2|E3|E4|E5",
        output: "K|H|F1|C2|C3|C4|C5",
        messages: "",
        after: &[0, 3, 4, 5, 5, 8, 8, 11, 11, 14, 14, 17, 17, 20],
        warned_at: None,
        outcome: Outcome {
            status: 0,
            fault: None,
        },
    },
    Case {
        name: "types that change in an event",
        tool: Tool::Compact,
        skip: false,
        input: "H|RT",
        output: "K|H|CT",
        messages: "",
        after: &[0, 3, 4, 5, 5, 8, 9, 10, 10, 13],
        warned_at: None,
        outcome: Outcome {
            status: 0,
            fault: None,
        },
    },
    Case {
        name: "a bad indicator",
        tool: Tool::Compact,
        skip: false,
        input: "H|E1|B2|E3|E4|E5",
        output: "K|H|F1",
        messages: "ERROR line 7 code 18: bad indicator",
        after: &[0, 3, 4, 5, 5, 8, 8, 8, 8, 8, 8, 8, 8, 8],
        warned_at: None,
        outcome: Outcome {
            status: 1,
            fault: Some(At {
                line: 7,
                fault: Fault::BadFlags,
            }),
        },
    },
    Case {
        name: "a bad indicator, skipped",
        tool: Tool::Compact,
        skip: true,
        input: "H|E1|B2|E3|E4|E5",
        output: "K|H|F1|F3|                    3||102500|                    4||1000",
        messages: "WARNING line 7 code 18: bad indicator",
        after: &[0, 3, 4, 5, 5, 8, 8, 8, 8, 11, 11, 14, 14, 17],
        warned_at: Some(7),
        outcome: Outcome {
            status: 2,
            fault: None,
        },
    },
    Case {
        name: "third differences, back",
        tool: Tool::Expand,
        skip: false,
        input: "K|H|F1|C2|C3|C4|C5",
        output: "H|E1|E2|E3|E4|E5",
        messages: "",
        after: &[
            0, 0, 0, 1, 2, 3, 3, 3, 5, 5, 5, 7, 7, 7, 9, 9, 9, 11, 11, 11, 13,
        ],
        warned_at: None,
        outcome: Outcome {
            status: 0,
            fault: None,
        },
    },
    Case {
        name: "types that change in an event, back",
        tool: Tool::Expand,
        skip: false,
        input: "K|H|CT",
        output: "H|RT",
        messages: "",
        after: &[0, 0, 0, 1, 2, 3, 3, 3, 5, 6, 7, 7, 7, 9],
        warned_at: None,
        outcome: Outcome {
            status: 0,
            fault: None,
        },
    },
    Case {
        name: "a full epoch after a warning, back",
        tool: Tool::Expand,
        skip: false,
        input: "K|H|F1|F3|                    3||102500|                    4||1000",
        output: "H|E1|E3|E4|E5",
        messages: "",
        after: &[0, 0, 0, 1, 2, 3, 3, 3, 5, 5, 5, 7, 7, 7, 9, 9, 9, 11],
        warned_at: None,
        outcome: Outcome {
            status: 0,
            fault: None,
        },
    },
    Case {
        name: "a check",
        tool: Tool::Check,
        skip: false,
        input: "H|E1|E2|E3|E4|E5",
        output: "format 3.04|systems G 1|epochs 5|events 0|observations 5|standard yes",
        messages: "",
        after: &[0; 14],
        warned_at: None,
        outcome: Outcome {
            status: 0,
            fault: None,
        },
    },
    Case {
        name: "a check of a bad indicator",
        tool: Tool::Check,
        skip: false,
        input: "H|E1|B2|E3|E4|E5",
        output: "",
        messages: "ERROR line 7 code 18: bad indicator",
        after: &[0; 14],
        warned_at: None,
        outcome: Outcome {
            status: 1,
            fault: Some(At {
                line: 7,
                fault: Fault::BadFlags,
            }),
        },
    },
];

/// Returns all cases. Only this function names the table, because the prover goes through it wherever it is
/// named.
pub fn cases() -> &'static [Case] {
    CASES
}
