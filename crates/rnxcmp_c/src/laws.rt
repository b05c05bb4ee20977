//! Laws of the definitions of this crate. Each is the contract of a function with an empty body.

ghost use Rattle.std.specs.Prelude.{◌≡◌, ◌⊎◌, ◌≤◌, ℕ, List, [], ◌++◌, length};
ghost use Rattle.crx_base.specs.declared.fault.At.{At};
ghost use Rattle.crx_base.specs.declared.fault.Fault.TheVariants.{InputTooLong, OutOfMemory};
ghost use Rattle.crx_base.specs.meaning.Faults.{code_of_fault};
ghost use Rattle.crx_base.specs.meaning.Lines.{InputLine, lines_of};
ghost use Rattle.crx_base.specs.meaning.AsRead.{ended_lines_of};
ghost use Rattle.crx_runs.specs.meaning.Messages.{notices_text};
ghost use Rattle.crx_runs.specs.meaning.Results.{Begins};
ghost use Rattle.crx_runs.specs.meaning.Spans.{AreNext};
ghost use Rattle.rnxcmp_c.specs.Holdings.{IsBounded, reader_with};
ghost use Rattle.rnxcmp_c.specs.declared.answer.Answer.{Answer};
ghost use Rattle.rnxcmp_c.specs.declared.handle_state.HandleState.{HandleState};
ghost use Rattle.rnxcmp_c.specs.declared.reader.Reader.{Reader};
ghost use Rattle.rnxcmp_c.specs.meaning.Answers.{AnswersAlone, AnswersWithin, BothTexts, ExceedsLimit, KeepsToLimit, placed};
ghost use Rattle.rnxcmp_c.specs.meaning.Handles.{RunHasEnded, RunHasResult, StopsAtLimit, StopsWhenFull, Task, run_for, with_one_more};

/// Does nothing; its contract names all parts of a handle, and bounds all of them except the engine, whatever
/// was fed: a reader that takes over these parts of another is the other. So no other part can hold a record
/// of past lines.
pub fn handle_holds()
    ensures parts { (one other : Reader) → reader_with one other ≡ other }
    ensures bounded { (held : HandleState) → IsBounded held }
{}

/// Does nothing; by its contract a handle agrees with a call over the whole input. If its run has ended with
/// its result, such a call with large enough buffers returns the same status, code and line, and the same
/// texts. If the output is longer than its limit, both return the same status, code and line, but the call
/// returns no texts. For every input whose output is within the limit there are such answers. For an input
/// that is too long both have the same status, and the same code unless memory is refused; but the call says
/// so before it reads, at line 0 and without texts, and the handle at the line of the first byte above the
/// limit.
pub fn a_handle_answers_as_a_call()
    ensures same { (task : Task) (fed : List ℕ) (made kept : BothTexts) (answer call : Answer)
        (before after : BothTexts)
        → RunHasResult ((run_for task).result fed) made kept answer
        → KeepsToLimit (run_for task).limit made.output
        → AnswersWithin (run_for task).limit ((run_for task).result fed) call before after
        → length made.output ≤ length before.output
        → (call ≡ record answer {
          output_length = length made.output;
          messages_length = length made.messages;
        })
        × (after.output ≡ placed made.output before.output)
        × (after.messages ≡ placed made.messages before.messages) }
    ensures limit { (task : Task) (fed : List ℕ) (made kept : BothTexts) (answer call : Answer)
        (before after : BothTexts)
        → RunHasEnded (StopsAtLimit (run_for task) fed) made kept answer
        → AnswersWithin (run_for task).limit ((run_for task).result fed) call before after
        → ExceedsLimit (run_for task).limit ((run_for task).result fed).output
        × (call.status ≡ answer.status) × (call.code ≡ answer.code) × (call.line ≡ answer.line) }
    ensures long { (task : Task) (fed : List ℕ) (made kept : BothTexts) (answer call : Answer)
        (before after : BothTexts)
        → RunHasEnded (StopsWhenFull (run_for task) fed) made kept answer
        → AnswersAlone 1 0 (code_of_fault InputTooLong) call before after
        → (call.status ≡ answer.status)
        × ((answer.code ≡ code_of_fault OutOfMemory) ⊎ (call.code ≡ answer.code)) }
    ensures instance { (task : Task) (fed : List ℕ)
        → KeepsToLimit (run_for task).limit ((run_for task).result fed).output
        → (made : BothTexts) × (answer : Answer) × (call : Answer)
        × (before : BothTexts) × (after : BothTexts)
        × RunHasResult ((run_for task).result fed) made made answer
        × AnswersWithin (run_for task).limit ((run_for task).result fed) call before after
        × (length ((run_for task).result fed).output ≤ length before.output) }
{}

/// Does nothing; by its contract the output of some first lines is a prefix of the result's output. Their
/// messages, followed by the first messages of the next line or of the end, are a prefix of the result's
/// messages. The lines whose line end was fed are such lines, whatever follows.
pub fn what_lines_make_comes_first()
    ensures begun { (task : Task) (input : List ℕ) (lines others : List InputLine) (notices : List At)
        → lines_of input ≡ lines ++ others
        → (notices ≡ []) ⊎ AreNext ((run_for task).filter.so_far lines)
        (with_one_more (run_for task).filter lines others) notices
        → Begins ((run_for task).result input).output ((run_for task).filter.so_far lines).output
        × Begins ((run_for task).result input).messages
        (notices_text ((run_for task).filter.so_far lines).warnings ++ notices_text notices) }
    ensures fed { (fed more : List ℕ)
        → (others : List InputLine) × (lines_of (fed ++ more) ≡ ended_lines_of fed ++ others) }
{}
