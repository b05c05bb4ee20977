//! Worked examples of the check, by the definitions only.

ghost use Rattle.std.specs.Prelude.{◌≡◌, ◌∷◌, ◌++◌, [], Some, codes};
ghost use Rattle.crx_base.specs.declared.fault.Fault.TheVariants.{BadFlags};
ghost use Rattle.crx_base.specs.meaning.Lines.{lines_text};
ghost use Rattle.crx_laws.specs.FilterExamples.{failed, report, reported, found_line_by_line};
ghost use Rattle.crx_laws.specs.SmallFiles.{header, epoch_line_at, line_at, observed, file_of_five, returned_text};

/// The reports of small files: five epochs; cycle slip records and an event without records; a character that
/// no indicator may have; only a header.
pub fn reports_of_small_files()
    ensures five { report (file_of_five []) ≡ reported (codes "systems G 1")
        (codes "epochs 5") (codes "events 0") (codes "observations 5") (codes "standard yes") 0 }
    ensures cycle_slips { report (header ++ line_at 0 6 1 ∷ observed (codes "1.000")
        ∷ line_at 1 3 0 ∷ epoch_line_at 2 1 ∷ observed (codes "2.000") ∷ []) ≡ reported (codes "systems G 1")
        (codes "epochs 1") (codes "events 2") (codes "observations 1") (codes "standard yes") 0 }
    ensures bad_indicator { report (file_of_five (codes "&")) ≡ failed [] 7 BadFlags }
    ensures header_alone { report header ≡ reported (codes "systems G 1")
        (codes "epochs 0") (codes "events 0") (codes "observations 0") (codes "standard yes") 0 }
{}

/// The findings of a check, line by line, are those of the whole file.
pub fn found_line_by_line()
    ensures returns { found_line_by_line (returned_text (header
        ++ (epoch_line_at 0 2 ++ codes "  ") ∷ codes "G01        -0.000" ∷ codes "G02          .353" ∷ []))
        ≡ record {
          version = codes "3.04";
          systems = (71, 1) ∷ [];
          epochs = 1;
          events = 0;
          observations = 2;
          not_standard = Some 1;
        } }
    ensures blank_at_the_end { found_line_by_line
        (lines_text (header ++ (epoch_line_at 0 1 ++ codes "  ") ∷ observed (codes "1.000") ∷ []))
        ≡ record {
          version = codes "3.04";
          systems = (71, 1) ∷ [];
          epochs = 1;
          events = 0;
          observations = 1;
          not_standard = Some 4;
        } }
    ensures other_spelling { found_line_by_line
        (lines_text (header ++ epoch_line_at 0 1 ∷ codes "G01         -.500" ∷ []))
        ≡ record {
          version = codes "3.04";
          systems = (71, 1) ∷ [];
          epochs = 1;
          events = 0;
          observations = 1;
          not_standard = Some 5;
        } }
{}
