//! Worked examples of text that is damaged in stretches, or cut off, by the definitions only.

ghost use Rattle.std.specs.Prelude.{◌≡◌, ◌∷◌, ◌++◌, [], codes};
ghost use Rattle.crx_laws.specs.FilterExamples.{good, warned, warning};
ghost use Rattle.crx_base.specs.declared.fault.Fault.TheVariants.{BadEpoch};
ghost use Rattle.crx_laws.specs.SmallFiles.{header, epoch_line_at, with_skip};
ghost use Rattle.crx_laws.specs.SmallStretches.{damaged_twice, cut_off, without_event};
ghost use Rattle.crx_filter.specs.meaning.Expanded.{expanded};

/// Damage in two places, the second at the end: the epochs before the first and between both are written, and
/// each place has a warning. If a text is cut off, all epochs before the cut are written. A lost event has no
/// warning.
pub fn damage_in_stretches()
    ensures twice { expanded damaged_twice with_skip
        ≡ warned (header ++ epoch_line_at 0 1 ∷ codes "G01  20000000.000" ∷ epoch_line_at 2 1
        ∷ codes "G01  20000202.000" ∷ epoch_line_at 3 1 ∷ codes "G01  20000304.500" ∷ [])
        (warning 9 BadEpoch ++ warning 17 BadEpoch) }
    ensures cut { expanded cut_off with_skip
        ≡ warned (header ++ epoch_line_at 0 1 ∷ codes "G01  20000000.000" ∷ epoch_line_at 1 1
        ∷ codes "G01  20000100.500" ∷ epoch_line_at 2 1 ∷ codes "G01  20000202.000" ∷ epoch_line_at 3 1
        ∷ codes "G01  20000304.500" ∷ []) (warning 18 BadEpoch) }
    ensures event { expanded without_event with_skip
        ≡ good (header ++ epoch_line_at 2 1 ∷ codes "G01  20000202.000" ∷ []) }
{}
