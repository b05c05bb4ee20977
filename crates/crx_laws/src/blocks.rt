//! Blocks of compact text can be expanded separately.

ghost use Rattle.std.specs.Prelude.{◌≡◌, ◌++◌, [], List, ℕ, true, map};
ghost use Rattle.crx_base.specs.meaning.Lines.{lines_of, lines_text};
ghost use Rattle.crx_base.specs.meaning.AsRead.{as_read};
ghost use Rattle.crx_filter.specs.Anew.{starts_anew};
ghost use Rattle.crx_filter.specs.OwnStretches.{read_of_file};
ghost use Rattle.crx_rinex.specs.meaning.Observations.{Epoch};
ghost use Rattle.crx_rinex.specs.meaning.Units.{Unit as FileUnit};
ghost use Rattle.crx_filter.specs.meaning.Stretches.{up_to_end};
ghost use Rattle.crx_filter.specs.meaning.UnitsAndText.{rinex_text};
ghost use Rattle.crx_laws.specs.Blocks.{CanGoOn, HaveSameTypes, StandAlone, IsPieceAfter, IsOwnPieceAfter};
ghost use Rattle.crx_laws.specs.WildText.{wild_before, wild_header, wild_piece, wild_stretch};
ghost use Rattle.crx_laws.specs.SmallFiles.{header, first_two, plain_choices, in_full_every_second, file_of_five};
ghost use Rattle.crx_laws.specs.SmallStretches.{first_epoch_text, second_block_text};
ghost use Rattle.crx_base.specs.meaning.Choices.{Choices, is_date};
ghost use Rattle.crx_filter.specs.meaning.Expanded.{expanded};
ghost use Rattle.crx_filter.specs.meaning.Standard.{printed_items};
ghost use Rattle.crx_filter.specs.meaning.WayBack.{written_well};

/// Blocks can be expanded separately. If two compact texts, each of whole lines and expanded without a fault,
/// leave the same observation types in force, then lines that begin with a full epoch, or with an event and a
/// full epoch, are expanded to the same lines after both, with the same fault or none. Such texts are, for
/// example, a file up to some block and only its header, if the types don't change. So a file can be cut
/// before a full epoch, and each piece can be expanded separately after the header.
pub fn blocks_stand_alone()
    ensures law { (more one other : List ℕ) (choices : Choices) → StandAlone more one other choices }
{}

/// A piece of compact text of any writer can be expanded separately. If the lines of some units of a file,
/// whose first epoch is full, follow the compact text of another file that leaves the same types in force,
/// for example only the header, they expand to these units after that file, with no message, status 0 and any
/// options.
pub fn a_piece_is_expanded_alone()
    ensures law { (front before piece : List (FileUnit Epoch)) (text : List ℕ) (expanding : Choices)
        → IsPieceAfter front before piece text
        → expanded text expanding ≡ written_well (rinex_text (piece ++ front)) }
{}

/// The same holds for lines that a compaction wrote for some units of a file, from an event or full epoch on.
pub fn an_own_piece_is_expanded_alone()
    ensures law { (file front : List ℕ) (compacting expanding : Choices) (text : List ℕ)
        → is_date compacting.date ≡ true → (whole : IsOwnPieceAfter file front compacting text)
        → expanded text expanding ≡ written_well (lines_text
        (printed_items (read_of_file front compacting).items ++ printed_items whole.piece)) }
{}

/// Shows that the premises can be met: by a header with an epoch, by only the header, and by a block after
/// either; by that block in a file, with its header as the other file; and by an event and an epoch with an
/// arc of order 7, which no known writer writes.
pub fn premises()
    ensures wild { IsPieceAfter wild_header (up_to_end wild_before wild_stretch) wild_stretch.kept wild_piece }
    ensures one { CanGoOn first_epoch_text plain_choices }
    ensures other { CanGoOn (lines_text (first_two ++ header)) plain_choices }
    ensures types { HaveSameTypes first_epoch_text (lines_text (first_two ++ header)) plain_choices }
    ensures more { starts_anew 0 (map as_read (lines_of second_block_text)) ≡ true }
    ensures piece { IsOwnPieceAfter (lines_text (file_of_five [])) (lines_text header) in_full_every_second
        (lines_text (first_two ++ header) ++ second_block_text) }
{}
