//! The program as one call.
ghost use Rattle.std.specs.Prelude.{◌≡◌, map, length, string_bytes, IfSome};
ghost use Rattle.std.specs.List.{All};
ghost use Rattle.hp_base.specs.declared.limits.TheConstants.{MAX_PARTICIPANTS};
ghost use Rattle.hp_run.specs.Mappers.{IsUnused};
ghost use Rattle.hp_base.specs.Streams.{CountsFault, HasRisen};
ghost use Rattle.hp_run.specs.Faults.{is_read_fault, is_write_fault};
ghost use Rattle.hp_run.specs.Outcome.{IsUnlessFailure};
ghost use Rattle.hp_run.specs.Program.{Ends, status_of};

use crate::checking::check;
use crate::generating::generate_text;
use crate::kit::Kit;
use crate::one_thread::{solo_by_kits, summary_by_kits};
use crate::run_call::run_and_report;
use crate::writing::written;
use hp_base::{Clock, Gate, Mapper, Sink, Source, Status};
use hp_words::{Form, form_of};
use std::alloc::Global;
use std::sync::Wait;
use std::thread::Threads;

/// What is written where the words are none that the program takes.
const USAGE: &[u8] = b"usage: heapsim solo|run|check|generate <start> <lines> [summary]\n";

/// The program: its words, without its name, a workload, where its report goes, a kit for each participant that there can be, and a gate
/// that is asked before each line of a run on threads. It does what `solo`, `check`, `generate_text` and `generate_summary` do, over the
/// kits' mappers, each for the words that ask for it; for the word `run` it does the lines of each participant on a thread of its own, by
/// its kit; and it refuses all other words. Where it reports a workload it reports an end of it (`IsRunEnd`), whatever order the threads'
/// steps had: mappings failed by the plan or their mapper alone, all who are attached agree on the memory in use, and a growth that failed
/// left nothing; watchers were told the rows of their participant's table, and statistics are those of fronts of the histories. In one thread
/// (`IsSoloRunEnd`) growths were judged by the validators that the lines before left, and statistics are those that these leave. Growths were
/// refused as late, and asks taken back or stale, at most as often as the plan loses or repeats messages. Where the plan loses none, all that
/// heaps gave up has gone back, and all who are attached have taken in all records; and where no mapping may fail either, asks were refused
/// for lack of a list, of pages, of slots or of a place, or by a validator. For the word `run` it need not return. Own.
pub fn top<
    S: Source,
    K: Sink,
    M: Mapper + Send,
    C: Clock + Send,
    G: Gate + Sync,
    R: Threads + Wait + Sync,
>(
    rt: &R,
    alloc: Global,
    words: &[String],
    source: &mut S,
    sink: &mut K,
    kits: Vec<Kit<M, C>>,
    gate: &G,
) -> Status
    requires count { length kits.items ≡ MAX_PARTICIPANTS }
    requires unused { All (λ kit. IsUnused (M.held kit.mapper) (M.answers kit.mapper) (M.capacity kit.mapper)) kits.items }

    // What each status says of the words, the mappers, the source and the sink.
    ensures outcome { Ends (map string_bytes words.now) (map (λ kit. M.may_fail kit.mapper) kits.items)
        (S.left source.old) (S.left source.new) (K.held sink.old) (K.held sink.new)
        (HasRisen (S.faults source.old) (S.faults source.new))
        (HasRisen (K.faults sink.old) (K.faults sink.new)) result }

    // Which status it is, where the source tells its bytes, and reading, writing and memory do not fail.
    ensures settled { IfSome (S.left source.old)
        (λ input. IsUnlessFailure (status_of (map string_bytes words.now) input) result) }

    // The source's count of faults rises where reading failed, the sink's where writing did. Else they stay.
    ensures source_faults { CountsFault (S.faults source.old) (S.faults source.new)
        (is_read_fault result) }
    ensures sink_faults { CountsFault (K.faults sink.old) (K.faults sink.new)
        (is_write_fault result) }
{
    match form_of(alloc, words) {
        Ok(Some(Form::Solo)) => solo_by_kits(alloc, source, sink, kits),
        Ok(Some(Form::Run)) => run_and_report(rt, alloc, source, sink, kits, gate),
        Ok(Some(Form::Check)) => check(alloc, source, sink),
        Ok(Some(Form::Text { start, lines })) => generate_text(alloc, start, lines, sink),
        Ok(Some(Form::Summary { start, lines })) => {
            summary_by_kits(alloc, start, lines, sink, kits)
        }
        Ok(None) => written(sink, USAGE, Status::Usage),
        Err(_) => Status::OutOfMemory,
    }
}
