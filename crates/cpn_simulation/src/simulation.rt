//! The top call of the program.

ghost use Rattle.std.specs.Prelude.{◌≡◌, ◌<◌, ◌≤◌, ◌⊎◌, ℕ, List, [], length, map, string_bytes, Some, None, IfSome};
ghost use Rattle.std.specs.Io.KnownBytes.{Appends};
ghost use Rattle.cpn_model.specs.Reading.{PlainModel, ModelRefusal, read, refused};
ghost use Rattle.cpn_model.specs.Models.{IsModel};
ghost use Rattle.cpn_model.specs.Lines.{model_line};
ghost use Rattle.cpn_io.specs.Outside.{Rose, AppendsProperPrefix};
ghost use Rattle.cpn_simulation.specs.Documents.{ReadsSource, GeneratesNet, document_of};
ghost use Rattle.cpn_simulation.specs.Limits.{most_bytes};
ghost use Rattle.cpn_simulation.specs.Options.{PlainOptions, options_from};
ghost use Rattle.cpn_probe.specs.Boxed.{Boxed};
ghost use Rattle.cpn_probe.specs.Reported.{HaveReported};
ghost use Rattle.cpn_simulation.specs.Reported.{IsReported, IsTheReport};
ghost use Rattle.cpn_simulation.specs.Causes.{bad_words, read_fault, too_long, GiveOptions, status_of_document, error_line, IsToBeWritten, IsOrExcused, IsReportedOrExcused, IsRefused};
ghost use Rattle.cpn_simulation.specs.RefusalViews.{refusal_view};

use crate::answers::answer;
use crate::refusals::{Refusal, WORDS_LINE, line_of, status_of};
use crate::statuses::Status;
use cpn_core::Memory;
use cpn_floor::Gate;
use cpn_io::{Sink, Source, write_all};
use cpn_probe::Probe;
use std::alloc::Global;
use std::sync::Wait;
use std::thread::Threads;

/// Reads the net document that the source gives, or in mode `large`, where the source is not read, generates one, runs its phases one after
/// another under the options of the words, and writes the report, or one error line, to the sink. Nothing is written before it stands whole in
/// memory.
///
/// Each run is driven by as many workers as the words say. Several share it in turns, each in a thread of its own while threads can be made, and
/// each passes the gate between a claim and its evaluation; what they leave is then taken to its end. One worker makes the run alone, and passes
/// no gate. The call may wait, and keeps its promise if it returns.
///
/// Each probe is told the committed occurrences of all runs, those of each run after it has ended, and is asked for its report after the last
/// one. The probes are dropped before the call returns.
pub fn simulate<S: Source, K: Sink, G: Gate + Sync, R: Threads + Wait + Sync>(
    rt: &R,
    alloc: Global,
    words: &[String],
    source: &mut S,
    sink: &mut K,
    probes: Vec<Box<dyn Probe>>,
    gate: &G,
) -> Status
    // The report was written: that of legal runs of the phases of the document, which was read to its end or generated, each of which some
    // schedule of at most as many workers as the words say gives, and of what the probes said when they had been told the occurrences of all
    // runs. With one worker no other could have been written, where probes say the same. The last run ended by no fault, or by the fault of
    // the outputs of an element that is covered at the printed marking and clock.
    ensures done { result ≡ Status.Done → IfSome (document_of (map string_bytes words.now) (S.left source.old)) (λ bytes. (length bytes ≤ most_bytes)
        × ((report : List ℕ) × IsTheReport bytes (map string_bytes words.now) (HaveReported (Boxed Notes) Reports probes.items) Status.Done report × Appends (K.held sink.old) (K.held sink.new) report)) }
    ensures run_fault { result ≡ Status.RunFault → IfSome (document_of (map string_bytes words.now) (S.left source.old)) (λ bytes. (length bytes ≤ most_bytes)
        × ((report : List ℕ) × IsTheReport bytes (map string_bytes words.now) (HaveReported (Boxed Notes) Reports probes.items) Status.RunFault report × Appends (K.held sink.old) (K.held sink.new) report)) }
    ensures read_to_end { IsReported result → (GeneratesNet (map string_bytes words.now) → ⊥) → IfSome (S.left source.old) (λ _. S.left source.new ≡ Some []) }
    ensures unread { GeneratesNet (map string_bytes words.now) → source.new ≡ source.old }

    // Each other status has its cause; the causes are tried in order, so all but the first asks for options.
    ensures words { result ≡ Status.BadWords → options_from (map string_bytes words.now) ≡ None }
    ensures read { result ≡ Status.ReadFault → ReadsSource (map string_bytes words.now) × Rose (S.faults source.old) (S.faults source.new) }
    ensures long { result ≡ Status.TooLong → ReadsSource (map string_bytes words.now) × IfSome (S.left source.old) (λ bytes. most_bytes < length bytes) }
    // The document is refused: as no JSON value, or for its form; for a text, the variables of a transition, or an edited
    // initial marking; or for its modules, for too many instances, for an initial marking, or for a name in a monitor or an edit.
    ensures document { result ≡ Status.BadDocument → GiveOptions (map string_bytes words.now) × ((refusal : ModelRefusal)
        × (status_of_document refusal ≡ Status.BadDocument) × Appends (K.held sink.old) (K.held sink.new) (model_line refusal)
        × IfSome (document_of (map string_bytes words.now) (S.left source.old)) (λ bytes. (length bytes ≤ most_bytes) × IsModel bytes (refused refusal))) }
    ensures inscription { result ≡ Status.BadInscription → GiveOptions (map string_bytes words.now) × ((refusal : ModelRefusal)
        × (status_of_document refusal ≡ Status.BadInscription) × Appends (K.held sink.old) (K.held sink.new) (model_line refusal)
        × IfSome (document_of (map string_bytes words.now) (S.left source.old)) (λ bytes. (length bytes ≤ most_bytes) × IsModel bytes (refused refusal))) }
    ensures net { result ≡ Status.BadNet → GiveOptions (map string_bytes words.now) × ((refusal : ModelRefusal)
        × (status_of_document refusal ≡ Status.BadNet) × Appends (K.held sink.old) (K.held sink.new) (model_line refusal)
        × IfSome (document_of (map string_bytes words.now) (S.left source.old)) (λ bytes. (length bytes ≤ most_bytes) × IsModel bytes (refused refusal))) }
    ensures write { result ≡ Status.WriteFault → Rose (K.faults sink.old) (K.faults sink.new) }

    // What the sink holds where there is no report.
    ensures words_line { result ≡ Status.BadWords → Appends (K.held sink.old) (K.held sink.new) (error_line bad_words) }
    ensures read_line { result ≡ Status.ReadFault → Appends (K.held sink.old) (K.held sink.new) (error_line read_fault) }
    ensures long_line { result ≡ Status.TooLong → Appends (K.held sink.old) (K.held sink.new) (error_line too_long) }
    ensures memory { result ≡ Status.Memory → K.held sink.new ≡ K.held sink.old }
    ensures write_part { result ≡ Status.WriteFault → (text : List ℕ)
        × IsToBeWritten (map string_bytes words.now) (HaveReported (Boxed Notes) Reports probes.items) (document_of (map string_bytes words.now) (S.left source.old)) (S.faults source.old) (S.faults source.new) text
        × AppendsProperPrefix (K.held sink.old) (K.held sink.new) text }

    // Where there is a cause, its status comes, but for faults of source and sink and want of memory.
    ensures bad_words { options_from (map string_bytes words.now) ≡ None
        → (result ≡ Status.BadWords) ⊎ ((result ≡ Status.Memory) ⊎ Rose (K.faults sink.old) (K.faults sink.new)) }
    ensures too_long { (options : PlainOptions) → options_from (map string_bytes words.now) ≡ Some options
        → (bytes : List ℕ) → document_of (map string_bytes words.now) (S.left source.old) ≡ Some bytes → most_bytes < length bytes
        → IsOrExcused result Status.TooLong (Rose (S.faults source.old) (S.faults source.new)) (Rose (K.faults sink.old) (K.faults sink.new)) }
    ensures bad_document { (options : PlainOptions) → options_from (map string_bytes words.now) ≡ Some options
        → (bytes : List ℕ) → document_of (map string_bytes words.now) (S.left source.old) ≡ Some bytes → length bytes ≤ most_bytes
        → (refusal : ModelRefusal) → IsModel bytes (refused refusal) → status_of_document refusal ≡ Status.BadDocument
        → IsOrExcused result Status.BadDocument (Rose (S.faults source.old) (S.faults source.new)) (Rose (K.faults sink.old) (K.faults sink.new)) }
    ensures bad_inscription { (options : PlainOptions) → options_from (map string_bytes words.now) ≡ Some options
        → (bytes : List ℕ) → document_of (map string_bytes words.now) (S.left source.old) ≡ Some bytes → length bytes ≤ most_bytes
        → (refusal : ModelRefusal) → IsModel bytes (refused refusal) → status_of_document refusal ≡ Status.BadInscription
        → IsOrExcused result Status.BadInscription (Rose (S.faults source.old) (S.faults source.new)) (Rose (K.faults sink.old) (K.faults sink.new)) }
    ensures bad_net { (options : PlainOptions) → options_from (map string_bytes words.now) ≡ Some options
        → (bytes : List ℕ) → document_of (map string_bytes words.now) (S.left source.old) ≡ Some bytes → length bytes ≤ most_bytes
        → (refusal : ModelRefusal) → IsModel bytes (refused refusal) → status_of_document refusal ≡ Status.BadNet
        → IsOrExcused result Status.BadNet (Rose (S.faults source.old) (S.faults source.new)) (Rose (K.faults sink.old) (K.faults sink.new)) }

    // Good input is never refused.
    ensures complete { (options : PlainOptions) → options_from (map string_bytes words.now) ≡ Some options
        → (bytes : List ℕ) → document_of (map string_bytes words.now) (S.left source.old) ≡ Some bytes → length bytes ≤ most_bytes
        → (model : PlainModel) → IsModel bytes (read model)
        → IsReportedOrExcused result (Rose (S.faults source.old) (S.faults source.new)) (Rose (K.faults sink.old) (K.faults sink.new)) }
{
    let mut probes = probes;
    let answered = answer(rt, alloc, words, source, &mut probes, gate);
    drop(probes);
    match answered {
        Ok(report) => match write_all(sink, report.text.as_bytes()) {
            Ok(()) => report.status,
            Err(_) => Status::WriteFault,
        },
        Err(refusal) => match line_of(alloc, &refusal) {
            Ok(line) => refuse(sink, &refusal, &line),
            Err(Memory) => Status::Memory,
        },
    }
}

/// Writes the line that the words are refused: for words that are no text, of which no list can be made.
pub fn refuse_words<K: Sink>(sink: &mut K) -> Status
    ensures status { (result ≡ Status.BadWords) ⊎ (result ≡ Status.WriteFault) }
    ensures line { result ≡ Status.BadWords → Appends (K.held sink.old) (K.held sink.new) (error_line bad_words) }
    ensures write { result ≡ Status.WriteFault → Rose (K.faults sink.old) (K.faults sink.new) }
    ensures write_part { result ≡ Status.WriteFault → AppendsProperPrefix (K.held sink.old) (K.held sink.new) (error_line bad_words) }
{
    match write_all(sink, WORDS_LINE.as_bytes()) {
        Ok(()) => Status::BadWords,
        Err(_) => Status::WriteFault,
    }
}

/// Writes the line of the refusal.
fn refuse<K: Sink>(sink: &mut K, refusal: &Refusal, line: &str) -> Status
    requires line { IfSome (refusal_view refusal.now) (λ plain. line.now ≡ error_line plain) }
    ensures refused { IfSome (refusal_view refusal.now) (λ plain. IsRefused plain result (K.held sink.old) (K.held sink.new) (K.faults sink.old) (K.faults sink.new)) }
{
    match write_all(sink, line.as_bytes()) {
        Ok(()) => status_of(refusal),
        Err(_) => Status::WriteFault,
    }
}
