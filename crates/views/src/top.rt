//! The top call.

ghost use Rattle.std.specs.Prelude.{◌≡◌, ◌≢◌, ◌⊎◌, ◌<◌, ℕ, List, Some, length, Contains};
ghost use Rattle.std.specs.Prelude.{IfErr, OnOk, MatchResult};
ghost use Rattle.command_line.specs.Views.{View as Asked, Gdb, RecordedFiles, Time, TimeArguments};
ghost use Rattle.command_line.specs.Views.{AsksView, meaning_of_view, reads, writes};
ghost use Rattle.text_output.specs.Answers.{Tells};
ghost use Rattle.judged_files.specs.Failures.{file_limit};
ghost use Rattle.text_output.specs.Failures.{IsNoRefusal, status_of};
ghost use Rattle.text_output.specs.Text.{out_of_memory};
ghost use Rattle.views.specs.Headline.{AreTold, IsLayoutRefused, IsRecordRefused, IsRefused};
ghost use Rattle.views.specs.Headline.{AreWritten, Prints, PrintsPrefix, usage};
ghost use Rattle.views.specs.Answers.{AreLeft, IsFault, IsRefusalStatus};
ghost use Rattle.views.specs.Failures.{AreKept, IsFailure, IsShownFailure, IsSuccess};
ghost use Rattle.views.specs.Debugger.{HasShown, IsCutShort, streams};
ghost use Rattle.views.specs.Time.{PrintsTime};
ghost use Rattle.views.specs.Trace.{recorded};

use crate::blocks::put_blocks;
use crate::code::put_code;
use crate::cost::show_cost;
use crate::debugger::show_run;
use crate::input::{code_files, read_inputs, run_files, time_files};
use crate::page::write_page;
use crate::speedup::write_speedup;
use crate::text::USAGE;
use crate::time::put_time;
use crate::trace::{Selection, put_trace};
use byte_source::Source;
use command_line::{View, view_of};
use dsm_io::{Files, Sink, Text};
use std::alloc::Global;
use text_output::{Failure, put, tell, tell_out_of_memory};

/// Shows what the words ask for, or writes it into a file, and answers the status: 0 where the
/// whole text was put, the file written or a debugger served; 2 for a faulty command line; 3 where
/// a file, the output or the source failed; 4 where the executable or a verified file is refused; 5
/// where it was out of memory; 6 where the layout, or that of a record, is refused; 7 where the
/// record is.
pub fn shasta_view<F: Files, S: Source, O: Sink, E: Sink>(
    alloc: Global,
    words: &[Text],
    files: &mut F,
    source: &mut S,
    out: &mut O,
    err: &mut E,
) -> u8
    ensures range { (result ≡ 0) ⊎ ((result ≡ 2) ⊎ ((result ≡ 3) ⊎ ((result ≡ 5)
        ⊎ IsRefusalStatus result))) }

    // Status 2 is for words that ask for nothing, and where there is memory for exactly those; the
    // usage text is told.
    ensures faulty { result ≡ 2 → (v : Asked) → AsksView words.now v → ⊥ }
    ensures asked { result ≢ 2 → result ≢ 5 → (v : Asked) × AsksView words.now v }
    ensures usage { result ≡ 2 → Tells (E.state err.old) (E.state err.new) usage }

    // With status 0 the text is what the words ask for; `err` took nothing.
    ensures prints { (v : Asked) (contents : List ℕ → List ℕ) → AsksView words.now v
        → AreTold v (F.state files.old) contents → result ≡ 0
        → Prints v contents (O.state out.old) (O.state out.new) }
    ensures silent { result ≡ 0 → (E.state err.new).taken ≡ (E.state err.old).taken }
    // Of `time` that is the outcome of the run by the clock, which tells of an interleaved run of
    // the original's processors on one memory; and what the nodes spent their time on.
    ensures time { (a : TimeArguments) (contents : List ℕ → List ℕ) → AsksView words.now (Time a)
        → AreTold (Time a) (F.state files.old) contents → result ≡ 0
        → PrintsTime a contents (O.state out.old) (O.state out.new) }

    // Of `gdb` the bytes put are a transcript of those that came from the source, over the run on
    // one memory whose picks the run of the record stands for. With another status they are one up
    // to where the source or the output failed or memory was wanted, or nothing came and nothing
    // was put. No other view reads the source, nor does `gdb` where it refuses.
    ensures gdb { (run : RecordedFiles) (memory : ℕ) (contents : List ℕ → List ℕ)
        → AsksView words.now (Gdb run memory)
        → AreTold (Gdb run memory) (F.state files.old) contents → result ≡ 0
        → HasShown (recorded run contents)
        (streams (S.state source.old) (S.state source.new) (O.state out.old) (O.state out.new)) }
    ensures cut_short { (run : RecordedFiles) (memory : ℕ) (contents : List ℕ → List ℕ)
        → AsksView words.now (Gdb run memory)
        → AreTold (Gdb run memory) (F.state files.old) contents → result ≢ 0
        → IsCutShort (recorded run contents)
        (streams (S.state source.old) (S.state source.new) (O.state out.old) (O.state out.new)) }
    ensures unread { ((run : RecordedFiles) (memory : ℕ)
        → AsksView words.now (Gdb run memory) → ⊥)
        → S.state source.new ≡ S.state source.old }
    ensures unheard { (result ≡ 2) ⊎ IsRefusalStatus result
        → S.state source.new ≡ S.state source.old }

    // Status 4 is for a refused executable or a verified file that is that of no rewriting; the
    // refusal is told.
    ensures refused { (v : Asked) (contents : List ℕ → List ℕ) → AsksView words.now v
        → AreTold v (F.state files.old) contents → result ≡ 4
        → (line : List ℕ) × IsRefused v contents line
        × Tells (E.state err.old) (E.state err.new) line }
    ensures nothing { (result ≡ 2) ⊎ IsRefusalStatus result
        → (O.state out.new).taken ≡ (O.state out.old).taken }

    // Status 6 is for a refused layout, or that of a record, and status 7 for a refused record, by
    // its text or by the events that it tells of; the refusal is told.
    ensures layout { (v : Asked) (contents : List ℕ → List ℕ) → AsksView words.now v
        → AreTold v (F.state files.old) contents → result ≡ 6
        → (line : List ℕ) × IsLayoutRefused v contents line
        × Tells (E.state err.old) (E.state err.new) line }
    ensures record { (v : Asked) (contents : List ℕ → List ℕ) → AsksView words.now v
        → AreTold v (F.state files.old) contents → result ≡ 7
        → (line : List ℕ) × IsRecordRefused v contents line
        × Tells (E.state err.old) (E.state err.new) line }

    // Status 3 comes only where a count of faults rose in this call, or a file is too long; its
    // line names which. A fault of a file comes before anything is put, one of the output only
    // where a text that the words ask for is being put, and one of the source only where such a
    // text of `gdb` is. A file that is too long is never shown.
    ensures fault { (v : Asked) → AsksView words.now v → result ≡ 3
        → IsFault v (F.state files.old) (F.state files.new)
        (streams (S.state source.old) (S.state source.new) (O.state out.old) (O.state out.new))
        (Tells (E.state err.old) (E.state err.new)) }
    ensures longer { (v : Asked) (name content : List ℕ) → AsksView words.now v
        → Contains (reads v) name → (F.state files.old).held name ≡ Some content
        → file_limit < length content → (result ≡ 3) ⊎ (result ≡ 5) }

    // Status 5 is for want of memory, which is told; a prefix of the text may have been put.
    ensures wanted { result ≡ 5 → Tells (E.state err.old) (E.state err.new) out_of_memory }
    ensures prefix { (v : Asked) (contents : List ℕ → List ℕ) → AsksView words.now v
        → AreTold v (F.state files.old) contents → result ≡ 5
        → ((O.state out.new).taken ≡ (O.state out.old).taken)
        ⊎ PrintsPrefix v contents (O.state out.old) (O.state out.new) }

    // No file changes but one that the view writes; and that one does only with status 0, 3 or 5.
    ensures files { (name : List ℕ)
        → ((v : Asked) → AsksView words.now v → Contains (writes v) name → ⊥)
        → (F.state files.new).held name ≡ (F.state files.old).held name }
    ensures kept { (result ≡ 2) ⊎ IsRefusalStatus result
        → (name : List ℕ) → (F.state files.new).held name ≡ (F.state files.old).held name }
    ensures written { (v : Asked) (contents : List ℕ → List ℕ) → AsksView words.now v
        → AreTold v (F.state files.old) contents → result ≡ 0
        → AreWritten v contents (F.state files.new) }
    ensures left { (v : Asked) (contents : List ℕ → List ℕ) → AsksView words.now v
        → AreTold v (F.state files.old) contents → (result ≡ 3) ⊎ (result ≡ 5)
        → AreLeft v contents (F.state files.old) (F.state files.new) }
{
    let view = match view_of(alloc, words) {
        Ok(Some(view)) => view,
        Ok(None) => {
            tell(err, USAGE.as_bytes());
            return 2;
        }
        Err(_) => return tell_out_of_memory(err),
    };
    match show(alloc, &view, files, source, out) {
        Ok(()) => 0,
        Err(failure) => {
            tell(err, failure.line());
            failure.status()
        }
    }
}

/// Shows what a view asks for: to a debugger, or by its text alone.
fn show<F: Files, S: Source, O: Sink>(
    alloc: Global,
    view: &View<'_>,
    files: &mut F,
    source: &mut S,
    out: &mut O,
) -> Result<(), Failure>
    ensures ok { OnOk result (IsSuccess (meaning_of_view view.now) (F.state files.old)
        (O.state out.old) (O.state out.new)) }
    ensures gdb { OnOk result ((run : RecordedFiles) (memory : ℕ) (contents : List ℕ → List ℕ)
        → meaning_of_view view.now ≡ Gdb run memory
        → AreTold (Gdb run memory) (F.state files.old) contents
        → HasShown (recorded run contents)
        (streams (S.state source.old) (S.state source.new) (O.state out.old) (O.state out.new))) }
    ensures cut_short { IfErr result (λ f. (run : RecordedFiles) (memory : ℕ)
        (contents : List ℕ → List ℕ) → meaning_of_view view.now ≡ Gdb run memory
        → AreTold (Gdb run memory) (F.state files.old) contents
        → IsCutShort (recorded run contents)
        (streams (S.state source.old) (S.state source.new) (O.state out.old) (O.state out.new))) }
    ensures failure { IfErr result (IsShownFailure (meaning_of_view view.now) (F.state files.old)
        (F.state files.new)
        (streams (S.state source.old) (S.state source.new) (O.state out.old) (O.state out.new))) }
    ensures unread { ((run : RecordedFiles) (memory : ℕ)
        → meaning_of_view view.now ≡ Gdb run memory → ⊥)
        → S.state source.new ≡ S.state source.old }
    ensures unheard { IfErr result (λ f. IsRefusalStatus (status_of f)
        → S.state source.new ≡ S.state source.old) }
    ensures longer { (name content : List ℕ) → Contains (reads (meaning_of_view view.now)) name
        → (F.state files.old).held name ≡ Some content → file_limit < length content
        → MatchResult result (λ _. ⊥) IsNoRefusal }
    ensures others { (n : List ℕ) → (Contains (writes (meaning_of_view view.now)) n → ⊥)
        → (F.state files.new).held n ≡ (F.state files.old).held n }
    ensures kept { IfErr result (AreKept (F.state files.old) (F.state files.new)) }
    ensures written { OnOk result ((contents : List ℕ → List ℕ)
        → AreTold (meaning_of_view view.now) (F.state files.old) contents
        → AreWritten (meaning_of_view view.now) contents (F.state files.new)) }
    ensures left { IfErr result (λ f. (contents : List ℕ → List ℕ)
        → AreTold (meaning_of_view view.now) (F.state files.old) contents
        → AreLeft (meaning_of_view view.now) contents (F.state files.old) (F.state files.new)) }
{
    match view {
        View::Gdb { run, memory } => show_run(alloc, run, *memory, files, source, out),
        _ => answer(alloc, view, files, out),
    }
}

/// Reads the files of a view that shows nothing to a debugger, and puts the view's text, or writes
/// it into the view's file.
fn answer<F: Files, O: Sink>(
    alloc: Global,
    view: &View<'_>,
    files: &mut F,
    out: &mut O,
) -> Result<(), Failure>
    requires { (run : RecordedFiles) (memory : ℕ)
        → meaning_of_view view.now ≡ Gdb run memory → ⊥ }
    ensures ok { OnOk result (IsSuccess (meaning_of_view view.now) (F.state files.old)
        (O.state out.old) (O.state out.new)) }
    ensures failure { IfErr result (IsFailure (meaning_of_view view.now) (F.state files.old)
        (F.state files.new) (O.state out.old) (O.state out.new)) }
    ensures longer { (name content : List ℕ) → Contains (reads (meaning_of_view view.now)) name
        → (F.state files.old).held name ≡ Some content → file_limit < length content
        → MatchResult result (λ _. ⊥) IsNoRefusal }
    ensures others { (n : List ℕ) → (Contains (writes (meaning_of_view view.now)) n → ⊥)
        → (F.state files.new).held n ≡ (F.state files.old).held n }
    ensures kept { IfErr result (AreKept (F.state files.old) (F.state files.new)) }
    ensures written { OnOk result ((contents : List ℕ → List ℕ)
        → AreTold (meaning_of_view view.now) (F.state files.old) contents
        → AreWritten (meaning_of_view view.now) contents (F.state files.new)) }
    ensures left { IfErr result (λ f. (contents : List ℕ → List ℕ)
        → AreTold (meaning_of_view view.now) (F.state files.old) contents
        → AreLeft (meaning_of_view view.now) contents (F.state files.old) (F.state files.new)) }
{
    match view {
        View::Help => put(out, USAGE.as_bytes()),
        View::Code(arguments) => {
            let read = read_inputs(alloc, files, code_files(arguments))?;
            put_code(alloc, &read.lend(), out)
        }
        View::Cost {
            arguments,
            record_file,
        } => show_cost(alloc, arguments, *record_file, files, out),
        View::Trace {
            run,
            from,
            to,
            block,
            node,
        } => {
            let read = read_inputs(alloc, files, run_files(run))?;
            let selection = Selection {
                from: *from,
                to: *to,
                address: *block,
                node: *node,
            };
            put_trace(alloc, &read.lend(), selection, out)
        }
        View::Blocks { run } => {
            let read = read_inputs(alloc, files, run_files(run))?;
            put_blocks(alloc, &read.lend(), out)
        }
        View::Page {
            run,
            output,
            from,
            to,
        } => {
            let selection = Selection {
                from: *from,
                to: *to,
                address: None,
                node: None,
            };
            write_page(alloc, files, run, output, selection)
        }
        View::Time(arguments) => {
            let read = read_inputs(alloc, files, time_files(arguments))?;
            put_time(alloc, &read.lend(), arguments, out)
        }
        View::Speedup { arguments, output } => write_speedup(alloc, files, arguments, output),
        View::Gdb { .. } => unreachable!(),
    }
}
