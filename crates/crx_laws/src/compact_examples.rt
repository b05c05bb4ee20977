//! Worked examples of compact text, by the definitions only.

ghost use Rattle.std.specs.Prelude.{◌≡◌, ◌∷◌, ◌++◌, [], pos, neg_ℤ, codes, Some, None};
ghost use Rattle.std.specs.List.{AllByRecursion};
ghost use Rattle.crx_base.specs.declared.fault.Fault.TheVariants.{LineTooLong, NotAnEpoch, BadEpoch, BadClock, BadSatellite, RepeatedSatellite, NoArc, OutOfRange, BadField, BadFlags, Truncated};
ghost use Rattle.crx_laws.specs.Examples.{one_type};
ghost use Rattle.crx_laws.specs.CompactExamples.{head_at, full_line, epoch_of_one, five_epochs, five_epochs_restarted, one_missing, one_away, ending, clocks, extremes, no_satellites, two_systems, e05, epoch_of_systems, epochs_read, epochs_in, half_open_raw, two_raws, two_typed};
ghost use Rattle.crx_base.specs.meaning.AsRead.{Content, Overlong};
ghost use Rattle.crx_rinex.specs.meaning.Places.{Done, Fails, NeedsMore};
ghost use Rattle.crx_header.specs.ObservationTypes.{AreCounts};
ghost use Rattle.crx_compact.specs.OpenEpochs.{open_raw_with, first_step, state_after, tail_held};
ghost use Rattle.crx_compact.specs.OpenEpochs.RawStep.{Faulty};
ghost use Rattle.crx_compact.specs.ReadingLaws.{text_lines, AreWholeByTypes, HasSingleLines, HasPrintableMarks};

/// The second and third values are written as differences of order 1 and 2, all later ones of order 3.
pub fn five_values()
    ensures lines { text_lines five_epochs
        ≡ full_line 0 1 (codes "G01") ∷ [] ∷ codes "3&20000000000" ∷ codes "                    1" ∷ []
        ∷ codes "100500" ∷ codes "                    2" ∷ [] ∷ codes "1000" ∷ codes "                    3"
        ∷ [] ∷ codes "0" ∷ codes "                    4" ∷ [] ∷ codes "0" ∷ [] }
{}

/// A full epoch starts all arcs again.
pub fn every_second_in_full()
    ensures lines { text_lines five_epochs_restarted ≡ full_line 0 1 (codes "G01")
        ∷ [] ∷ codes "3&20000000000" ∷ codes "                    1" ∷ [] ∷ codes "100500"
        ∷ full_line 2 1 (codes "G01") ∷ [] ∷ codes "3&20000202000" ∷ codes "                    3"
        ∷ [] ∷ codes "102500" ∷ full_line 4 1 (codes "G01") ∷ [] ∷ codes "3&20000408000" ∷ [] }
{}

/// A missing value ends the arc, and the next value starts another.
pub fn missing_value()
    ensures lines { text_lines one_missing
        ≡ full_line 0 1 (codes "G01") ∷ [] ∷ codes "3&20000000000" ∷ codes "                    1"
        ∷ [] ∷ codes "100500" ∷ codes "                    2" ∷ [] ∷ [] ∷ codes "                    3"
        ∷ [] ∷ codes "3&20000304500" ∷ codes "                    4" ∷ [] ∷ codes "103500" ∷ [] }
{}

/// A satellite that was away starts with new arcs and blank indicators.
pub fn absent_satellite()
    ensures lines { text_lines one_away ≡ full_line 0 2 (codes "G01G02") ∷ [] ∷ codes "3&1000"
        ∷ codes "3&5000  7" ∷ codes "                    1             1         &&&" ∷ [] ∷ codes "1000"
        ∷ codes "                    2             2         G02" ∷ [] ∷ codes "0" ∷ codes "3&7000  7" ∷ [] }
{}

/// An indicator that becomes blank is written as &.
pub fn ending_indicator()
    ensures lines { text_lines ending ≡ full_line 0 1 (codes "G01")
        ∷ [] ∷ codes "3&5000  7" ∷ codes "                    1" ∷ [] ∷ codes "  &" ∷ [] }
{}

/// Receiver clock offsets have arcs of their own.
pub fn clock_arcs()
    ensures lines { text_lines clocks ≡ full_line 0 1 (codes "G01") ∷ codes "3&-123456789012"
        ∷ [] ∷ codes "                    1" ∷ [] ∷ [] ∷ codes "                    2"
        ∷ codes "3&1" ∷ [] ∷ codes "                    3" ∷ codes "2" ∷ [] ∷ [] }
{}

/// The widest differences have fourteen digits.
pub fn extreme_values()
    ensures lines { text_lines extremes ≡ full_line 0 1 (codes "G01")
        ∷ [] ∷ codes "3&9999999999999" ∷ codes "                    1" ∷ [] ∷ codes "-10999999999998"
        ∷ codes "                    2" ∷ [] ∷ codes "21999999999996" ∷ codes "                    3"
        ∷ [] ∷ codes "-43999999999992" ∷ codes "                    4" ∷ [] ∷ codes "43999999999992" ∷ [] }
{}

/// A difference without an arc, and a value too wide for its columns, are faults of their line.
pub fn bad_values()
    ensures no_arc { epochs_in (one_type ∷ [])
        (full_line 0 1 (codes "G01") ∷ [] ∷ codes "5" ∷ []) ≡ Fails 2 NoArc }
    ensures out_of_range { epochs_in (one_type ∷ one_type ∷ []) (full_line 0 1 (codes "G01") ∷ [] ∷ codes
        "3&9999999999999" ∷ codes "                    1" ∷ [] ∷ codes "1" ∷ []) ≡ Fails 5 OutOfRange }
{}

/// Differences of order 1; and `&` in an empty text is a blank.
pub fn order_one()
    ensures epochs { epochs_in (one_type ∷ one_type ∷ one_type ∷ []) (full_line 0 1 (codes "G01") ∷ []
        ∷ codes "1&1000" ∷ codes "                    1                              &&&" ∷ [] ∷ codes "500"
        ∷ codes "                    2" ∷ [] ∷ codes "500" ∷ []) ≡ Done (epoch_of_one 0 (Some (pos 1000))
        ∷ epoch_of_one 1 (Some (pos 1500)) ∷ epoch_of_one 2 (Some (pos 2000)) ∷ []) 9 }
{}

/// Differences of order 2.
pub fn order_two()
    ensures epochs { epochs_in (one_type ∷ one_type ∷ one_type ∷ one_type ∷ [])
        (full_line 0 1 (codes "G01") ∷ [] ∷ codes "2&1000" ∷ codes "                    1"
        ∷ [] ∷ codes "500" ∷ codes "                    2"
        ∷ [] ∷ codes "100" ∷ codes "                    3" ∷ [] ∷ codes "100" ∷ [])
        ≡ Done (epoch_of_one 0 (Some (pos 1000)) ∷ epoch_of_one 1 (Some (pos 1500))
        ∷ epoch_of_one 2 (Some (pos 2100)) ∷ epoch_of_one 3 (Some (pos 2800)) ∷ []) 12 }
{}

/// With order 0 each code is the value itself.
pub fn order_zero()
    ensures epochs { epochs_in (one_type ∷ one_type ∷ []) (full_line 0 1 (codes "G01")
        ∷ [] ∷ codes "0&1000" ∷ codes "                    1" ∷ [] ∷ codes "7" ∷ [])
        ≡ Done (epoch_of_one 0 (Some (pos 1000)) ∷ epoch_of_one 1 (Some (pos 7)) ∷ []) 6 }
{}

/// A start in the middle of an arc begins another, of its own order.
pub fn start_in_mid_arc()
    ensures epochs { epochs_in (one_type ∷ one_type ∷ one_type ∷ one_type ∷ [])
        (full_line 0 1 (codes "G01") ∷ [] ∷ codes "3&1000" ∷ codes "                    1"
        ∷ [] ∷ codes "500" ∷ codes "                    2"
        ∷ [] ∷ codes "1&7000" ∷ codes "                    3" ∷ [] ∷ codes "1" ∷ [])
        ≡ Done (epoch_of_one 0 (Some (pos 1000)) ∷ epoch_of_one 1 (Some (pos 1500))
        ∷ epoch_of_one 2 (Some (pos 7000)) ∷ epoch_of_one 3 (Some (pos 7001)) ∷ []) 12 }
{}

/// An order above the limit is a malformed code.
pub fn order_too_high()
    ensures fault { epochs_in (one_type ∷ [])
        (full_line 0 1 (codes "G01") ∷ [] ∷ codes "10&1000" ∷ []) ≡ Fails 2 BadField }
{}

/// Differences of a higher order than this program writes.
pub fn order_four()
    ensures epochs { epochs_in (one_type ∷ one_type ∷ one_type ∷ one_type ∷ one_type ∷ one_type ∷ [])
        (full_line 0 1 (codes "G01") ∷ [] ∷ codes "4&1000" ∷ codes "                    1"
        ∷ [] ∷ codes "1" ∷ codes "                    2" ∷ [] ∷ codes "1" ∷ codes "                    3"
        ∷ [] ∷ codes "1" ∷ codes "                    4" ∷ [] ∷ codes "1" ∷ codes "                    5"
        ∷ [] ∷ codes "1" ∷ []) ≡ Done (epoch_of_one 0 (Some (pos 1000)) ∷ epoch_of_one 1 (Some (pos 1001))
        ∷ epoch_of_one 2 (Some (pos 1003)) ∷ epoch_of_one 3 (Some (pos 1007))
        ∷ epoch_of_one 4 (Some (pos 1015)) ∷ epoch_of_one 5 (Some (pos 1030)) ∷ []) 18 }
{}

/// An epoch without satellites has an epoch line and a clock line. If nothing changes, the first is empty.
pub fn no_satellite()
    ensures written { text_lines no_satellites
        ≡ codes "> 2024 01 01 00 00  0.0000000  0  0" ∷ [] ∷ [] ∷ [] ∷ [] }
    ensures read { epochs_in (one_type ∷ one_type ∷ [])
        (codes "> 2024 01 01 00 00  0.0000000  0  0" ∷ [] ∷ [] ∷ [] ∷ []) ≡ Done (record {
          head = head_at 0 0;
          clock = None;
          rows = [];
        } ∷ record { head = head_at 0 0; clock = None; rows = [] } ∷ []) 4 }
{}

/// A satellite's line has a code for each type of its system; codes left out at its end are missing values.
pub fn satellites_of_two_systems()
    ensures epochs { epochs_in (two_systems ∷ two_systems ∷ [])
        (full_line 0 2 (codes "G01E05") ∷ [] ∷ codes "3&1000"
        ∷ codes "3&5000 3&-70   7" ∷ codes "                    1" ∷ [] ∷ codes "500" ∷ codes "10" ∷ [])
        ≡ Done (epoch_of_systems 0 (pos 1000) (e05 (Some (pos 5000)) (Some (neg_ℤ (pos 70))) (codes "  7 "))
        ∷ epoch_of_systems 1 (pos 1500) (e05 (Some (pos 5010)) None (codes "  7 ")) ∷ []) 8 }
{}

/// Lines that are too long, and epoch lines with a fault.
pub fn bad_epoch_lines()
    ensures long { epochs_read (one_type ∷ [])
        (Content (full_line 0 1 (codes "G01")) ∷ Overlong ∷ []) ≡ Fails 1 LineTooLong }
    ensures nothing_before { epochs_in
        (one_type ∷ []) (codes "                    1" ∷ [] ∷ []) ≡ Fails 0 NotAnEpoch }
    ensures no_epoch { epochs_in (one_type ∷ []) (codes ">" ∷ []) ≡ Fails 0 BadEpoch }
    ensures too_many { epochs_in (one_type ∷ []) (full_line 0 1 (codes "G01G02") ∷ []) ≡ Fails 0 BadEpoch }
    ensures unprintable { epochs_in
        (one_type ∷ []) (full_line 0 1 (71 ∷ 48 ∷ 200 ∷ []) ∷ []) ≡ Fails 0 BadEpoch }
    ensures unknown_system { epochs_in (one_type ∷ []) (full_line 0 1 (codes "E05") ∷ [])
        ≡ Fails 0 BadSatellite }
    ensures twice { epochs_in (one_type ∷ []) (full_line 0 2 (codes "G01G01") ∷ [])
        ≡ Fails 0 RepeatedSatellite }
{}

/// Clock and satellite lines with a fault; the first cell with one decides, then the indicators.
pub fn bad_lines()
    ensures clock { epochs_in (one_type ∷ [])
        (full_line 0 1 (codes "G01") ∷ codes "xyz" ∷ []) ≡ Fails 1 BadClock }
    ensures cell_first { epochs_in
        (one_type ∷ []) (full_line 0 1 (codes "G01") ∷ [] ∷ codes "x  7x" ∷ []) ≡ Fails 2 BadField }
    ensures mark { epochs_in (one_type ∷ [])
        (full_line 0 1 (codes "G01") ∷ [] ∷ codes "3&1000  7x" ∷ []) ≡ Fails 2 BadFlags }
    ensures unprintable { epochs_in (one_type ∷ [])
        (full_line 0 1 (codes "G01") ∷ [] ∷ (codes "3&1000 " ++ 200 ∷ []) ∷ []) ≡ Fails 2 BadFlags }
    ensures no_clock_line { epochs_in
        (one_type ∷ []) (full_line 0 1 (codes "G01") ∷ full_line 1 1 (codes "G01") ∷ []) ≡ Fails 1 Truncated }
    ensures no_satellite_line { epochs_in (one_type ∷ [])
        (full_line 0 1 (codes "G01") ∷ [] ∷ full_line 1 1 (codes "G01") ∷ []) ≡ Fails 2 Truncated }
{}

/// An epoch without its satellite line needs more lines, and is open.
pub fn a_line_wanted()
    ensures wanted { epochs_in (one_type ∷ []) (full_line 0 1 (codes "G01") ∷ [] ∷ []) ≡ NeedsMore }
    ensures left_open { open_raw_with one_type None
        (Content (full_line 0 1 (codes "G01")) ∷ Content [] ∷ []) ≡ Some half_open_raw }
{}

/// A fault empties the state: the next line has to begin with `>`.
pub fn a_fault_empties()
    ensures fault { first_step one_type (tail_held (state_after (Faulty BadField)))
        (Content (codes "                    1")) ≡ Faulty NotAnEpoch }
{}

/// Shows that the premises can be met: two epochs of one satellite are whole by the counts of types in force,
/// and their lines, as they are read, are one for each satellite, with printable marks.
pub fn premises_can_be_met()
    ensures counts { AreCounts one_type }
    ensures whole { AreWholeByTypes two_typed }
    ensures single { AllByRecursion HasSingleLines two_raws }
    ensures marks { AllByRecursion HasPrintableMarks two_raws }
{}
