//! The engines of the three tasks as one type.

ghost use Rattle.std.specs.Prelude.{◌≡◌, ◌<◌, length, OnErr, IfOk};
ghost use Rattle.rnxcmp_c.specs.Going.{IsTaken};
ghost use Rattle.rnxcmp_c.specs.Holding.{ready_in};
ghost use Rattle.rnxcmp_c.specs.declared.limits.TheConstants.{READY_LIMIT};
ghost use Rattle.rnxcmp_c.specs.Handles.{EngineCanBeFed, EngineHasEnded, EngineWasFed, IsOf, status_at_end};
ghost use Rattle.rnxcmp_c.specs.meaning.Handles.{Task};

use crate::handle_state::HandleState;
use crate::lines::{take_bytes, take_last};
use crate::stop::Stop;
use crx_filter::checking::Checking;
use crx_filter::compaction::Compaction;
use crx_filter::engine::LineEngine;
use crx_filter::expansion::Expansion;

/// The engine of a run.
#[derive(Drop)]
pub enum AnyEngine {
    /// For a compaction.
    Compacting(LineEngine<Compaction>),
    /// For an expansion.
    Expanding(LineEngine<Expansion>),
    /// For a check.
    Checking(LineEngine<Checking>),
}

/// Feeds the lines in `bytes` to the engine until `READY_LIMIT` bytes of output and messages wait in `held`.
/// A line without LF at the end is kept there and counts as used. Returns how many bytes were used, or why
/// the run ended: a fault, which isn't reported yet, refused memory, or the output's limit.
pub(crate) fn feed_engine(
    engine: &mut AnyEngine,
    held: &mut HandleState,
    bytes: &[u8],
) -> Result<usize, Stop>
    requires { EngineCanBeFed engine.old held.old (length bytes.now) }
    ensures keeps { (task : Task) → IsOf task engine.old → IsOf task engine.new }
    ensures count { IfOk result (IsTaken held.old held.new (length bytes.now)) }
    ensures low { OnErr result (ready_in held.old < READY_LIMIT) }
    ensures fed { EngineWasFed engine.old engine.new held.old held.new bytes.now result }
{
    match engine {
        AnyEngine::Compacting(compactor) => take_bytes(compactor, held, bytes),
        AnyEngine::Expanding(expander) => take_bytes(expander, held, bytes),
        AnyEngine::Checking(checker) => take_bytes(checker, held, bytes),
    }
}

/// Feeds the last line, if no LF ended it, and the end of the input to the engine; their output and warnings
/// are added to `held`. Returns why the run ended early, if it did: a fault, which isn't reported yet,
/// refused memory, or the output's limit.
pub(crate) fn end_engine(engine: &mut AnyEngine, held: &mut HandleState) -> Result<(), Stop>
    requires { EngineCanBeFed engine.old held.old 0 }
    ensures keeps { (task : Task) → IsOf task engine.old → IsOf task engine.new }
    ensures ends { EngineHasEnded engine.old engine.new held.old held.new result }
{
    match engine {
        AnyEngine::Compacting(compactor) => take_last(compactor, held),
        AnyEngine::Expanding(expander) => take_last(expander, held),
        AnyEngine::Checking(checker) => take_last(checker, held),
    }
}

/// Returns the status without a fault: 2 if `warned`, but for a check if the file isn't standard; otherwise
/// 0.
pub(crate) fn status_at_end(engine: &AnyEngine, warned: bool) -> u8
    ensures { result ≡ status_at_end engine.now warned }
{
    match engine {
        AnyEngine::Checking(checker) => match checker.not_standard() {
            None => 0,
            Some(_) => 2,
        },
        AnyEngine::Compacting(_) | AnyEngine::Expanding(_) => { if warned { 2 } else { 0 } }
    }
}
