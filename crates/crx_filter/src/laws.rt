//! Laws about the definitions of this crate: each is the contract of a function without code.

ghost use Rattle.std.specs.Prelude.{◌≡◌};
ghost use Rattle.crx_filter.specs.Holdings.{options_with, rinex_reader_with, compaction_with, compaction_inside_with, compact_reader_with, compacting_engine_with, engine_inside_with, expanding_engine_with, expansion_with, expansion_inside_with, checking_engine_with, checking_with, checking_inside_with, lender_inside_with};
ghost use Rattle.crx_base.specs.declared.options.Options.TheInside.{Inside as OptionsInside};
ghost use Rattle.crx_filter.specs.declared.rinex_reader.RinexReader.{RinexReader};
ghost use Rattle.crx_filter.specs.declared.compaction.Compaction.TheInside.{Inside as CompactionInside};
ghost use Rattle.crx_filter.specs.declared.compact_reader.CompactReader.{CompactReader};
ghost use Rattle.crx_filter.specs.CompactionParts.{CompactionState};
ghost use Rattle.crx_filter.specs.declared.engine.LineEngine.TheInside.{Inside as EngineInside};
ghost use Rattle.crx_filter.specs.declared.expansion.Expansion.TheInside.{Inside as ExpansionInside};
ghost use Rattle.crx_filter.specs.ExpansionParts.{ExpansionState};
ghost use Rattle.crx_filter.specs.declared.lender.Lender.TheInside.{Inside as LenderInside};
ghost use Rattle.crx_filter.specs.declared.checking.Checking.TheInside.{Inside as CheckingInside};
ghost use Rattle.crx_filter.specs.CheckingParts.{CheckingState};

/// Does nothing; its contract proves that options and a reader of RINEX have only the named fields: a value
/// with these fields of another equals it. So no other field can hold a record of past lines.
pub fn readers_hold()
    ensures options { (one other : OptionsInside) → options_with one other ≡ other }
    ensures reader { (one other : RinexReader) → rinex_reader_with one other ≡ other }
{}

/// Does nothing; its contract proves the same of engines, lenders and their named parts.
pub fn engines_hold()
    ensures compaction { (one other : CompactionInside) → compaction_inside_with one other ≡ other }
    ensures compacting { (one other : EngineInside CompactionState)
        → engine_inside_with compaction_with one other ≡ other }
    ensures compactor { (one other : LenderInside CompactionState)
        → lender_inside_with compacting_engine_with one other ≡ other }
    ensures compact_reader { (one other : CompactReader) → compact_reader_with one other ≡ other }
    ensures expansion { (one other : ExpansionInside) → expansion_inside_with one other ≡ other }
    ensures expanding { (one other : EngineInside ExpansionState) → engine_inside_with expansion_with one other ≡ other }
    ensures expander { (one other : LenderInside ExpansionState)
        → lender_inside_with expanding_engine_with one other ≡ other }
    ensures checking { (one other : CheckingInside) → checking_inside_with one other ≡ other }
    ensures checks { (one other : EngineInside CheckingState) → engine_inside_with checking_with one other ≡ other }
    ensures checker { (one other : LenderInside CheckingState)
        → lender_inside_with checking_engine_with one other ≡ other }
{}
