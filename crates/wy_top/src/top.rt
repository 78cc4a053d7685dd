//! The call that the program makes.
ghost use Rattle.std.specs.Prelude.{◌≡◌, ◌≢◌, ◌<◌, ◌⊎◌, map, string_bytes};
ghost use Rattle.wy_outside.specs.Counts.{Rose};
ghost use Rattle.wy_record.specs.declared.recorder.Phase.{Phase};
ghost use Rattle.wy_reply.specs.Statuses.{IsStatus};
ghost use Rattle.wy_words.specs.Words.{IsNoCommand};
ghost use Rattle.wy_top.specs.Answers.{AsksToExplore, Knows};
ghost use Rattle.wy_session.specs.Closings.{TookMany};
ghost use Rattle.wy_top.specs.Call.{IsOfTrace, ReadsKeysOut, RecordsNothing, Traces, WritesCarried, WritesCut, WasRefused, WritesDue, WritesFaultLine, WritesLast, WritesPrefix, WritesRefusal, failures};
ghost use Rattle.wy_top.specs.Left.{FinishesProgram, IsSettled, Leaves, LeavesAny, StartsNone};
ghost use Rattle.wy_top.specs.Recorders.{AreReady};
ghost use Rattle.wy_reply.specs.Recordings.{spelling};

use crate::answer::answer_to;
use crate::delivery::deliver;
use crate::exploring::explore_trace;
use crate::recorders::Recorders;
use std::alloc::Global;
use wy_outside::shelf::Shelf;
use wy_outside::sink::Sink;
use wy_outside::source::Source;
use wy_record::Recorder;
use wy_reply::Status;
use wy_words::laws::words_ask_one_command;
use wy_words::{Command, command};

/// Runs the command of the words, without the program's own name, over the files of `shelf`, writes
/// its text to `out` and returns its status. `keys` is read by `explore` alone, to `quit` or to its end,
/// whose lines are answered as they come, and `recorders.write` has the trace of a run that is recorded,
/// or of a file that is migrated; where it failed, or memory ran out, it has a prefix of it.
///
/// | Status | Comes |
/// |---|---|
/// | 0 | the command did what it says; how a run ended is its last line |
/// | 2 | the words are no command |
/// | 3 | there is no such file |
/// | 4 | the source has no tokens or no tree, or breaks a rule of classes and types |
/// | 5 | the trace is cut or damaged, or its source is no program |
/// | 6 | the question isn't read, asks about what isn't there, or the statement ran |
/// | 7 | a read or a write failed |
/// | 8 | the source has more than 1,048,576 bytes, the input more than 16,777,216, the trace more than 1,073,741,824, the certificate more than 536,870,912, or a line of `keys` more than 4,096, or all of them more than 16,777,216 |
/// | 9 | memory ran out |
/// | 10 | the trace isn't that of the run of its head |
/// | 11 | the certificate isn't read, or isn't good for the trace |
pub fn whyline<S: Shelf, K: Source, O: Sink, W: Recorder + Drop>(
    alloc: Global,
    words: &[String],
    shelf: &mut S,
    keys: &mut K,
    out: &mut O,
    recorders: &mut Recorders<W>,
) -> u8
    requires sound { W.Sound recorders.old.write }
    requires ready { AreReady (W.phase recorders.old.write) recorders.old.compare.phase
        recorders.old.memory.phase recorders.old.quiet.phase }
    // what is written
    ensures due { ¬ Rose (S.faults shelf.old) (S.faults shelf.new)
        → ¬ Rose (W.faults recorders.old.write) (W.faults recorders.new.write)
        → ¬ Rose (K.faults keys.old) (K.faults keys.new)
        → ¬ Rose (O.faults out.old) (O.faults out.new)
        → Knows (map string_bytes words.now) (S.held shelf.old) (K.left keys.old)
        → result ≢ 9
        → WritesDue (map string_bytes words.now) (S.held shelf.old) (K.left keys.old) result
        (O.written out.old) (O.written out.new) }
    ensures prefix { WritesPrefix (map string_bytes words.now) (S.held shelf.old) (K.left keys.old)
        (failures (S.faults shelf.old) (W.faults recorders.old.write) (K.faults keys.old))
        (failures (S.faults shelf.new) (W.faults recorders.new.write) (K.faults keys.new))
        (O.written out.old) (O.written out.new) }
    ensures carried { result ≡ 0 → WritesCarried (map string_bytes words.now)
        (S.held shelf.old) (O.written out.old) (O.written out.new) }
    ensures cut { result ≡ 0 → WritesCut (map string_bytes words.now)
        (S.held shelf.old) (O.written out.old) (O.written out.new) }
    ensures alone { WasRefused (map string_bytes words.now) (S.held shelf.old) result
        → ¬ Rose (O.faults out.old) (O.faults out.new)
        → ∥ WritesRefusal result (O.written out.old) (O.written out.new) ∥₁ }
    ensures last_line { IsOfTrace result
        → ¬ Rose (O.faults out.old) (O.faults out.new)
        → ∥ WritesLast result (O.written out.old) (O.written out.new) ∥₁ }
    ensures fault_line { result ≡ 7
        → ¬ Rose (O.faults out.old) (O.faults out.new)
        → WritesFaultLine (map string_bytes words.now) (S.held shelf.old) (K.left keys.old)
        (failures (S.faults shelf.old) (W.faults recorders.old.write) (K.faults keys.old))
        (failures (S.faults shelf.new) (W.faults recorders.new.write) (K.faults keys.new))
        (O.written out.old) (O.written out.new) }
    // what is recorded
    ensures sound { W.Sound recorders.new.write }
    ensures traces { result ≡ 0 → Traces (spelling W.opening W.frame W.closing)
        (map string_bytes words.now) (S.held shelf.old)
        (W.mirrors recorders.old.write) (W.mirrors recorders.new.write) }
    ensures leaves { Leaves (spelling W.opening W.frame W.closing)
        (map string_bytes words.now) (S.held shelf.old) (W.phase recorders.new.write)
        (W.mirrors recorders.old.write) (W.mirrors recorders.new.write) }
    ensures leaves_some { LeavesAny (spelling W.opening W.frame W.closing)
        (map string_bytes words.now) (W.phase recorders.new.write)
        (W.mirrors recorders.old.write) (W.mirrors recorders.new.write) }
    ensures starts_none { StartsNone result → recorders.new.write ≡ recorders.old.write }
    ensures records_nothing { RecordsNothing (map string_bytes words.now)
        → recorders.new.write ≡ recorders.old.write }
    ensures fails { W.faults recorders.old.write < W.faults recorders.new.write
        → W.phase recorders.new.write ≡ Phase.Failed }
    ensures finishes_first { O.faults out.old < O.faults out.new
        → ¬ Rose (W.faults recorders.old.write) (W.faults recorders.new.write)
        → IsSettled (W.phase recorders.new.write) }
    ensures finishes_program { O.faults out.old < O.faults out.new
        → ¬ Rose (S.faults shelf.old) (S.faults shelf.new)
        → ¬ Rose (W.faults recorders.old.write) (W.faults recorders.new.write)
        → FinishesProgram (map string_bytes words.now) (S.held shelf.old)
        (W.phase recorders.new.write) }
    // statuses and their causes
    ensures status { IsStatus result }
    ensures reads_out { result ≡ 0 → ReadsKeysOut (map string_bytes words.now)
        (S.held shelf.old) (K.left keys.old) (K.left keys.new) }
    ensures usage { result ≡ 2 → IsNoCommand (map string_bytes words.now) }
    ensures absent { result ≡ 3 → Rose (S.misses shelf.old) (S.misses shelf.new) }
    ensures too_long { result ≡ 8 → Rose (S.fulls shelf.old) (S.fulls shelf.new)
        ⊎ (AsksToExplore (map string_bytes words.now)
        × TookMany (K.taken keys.old) (K.taken keys.new)) }
    ensures fault { result ≡ 7
        → Rose (S.faults shelf.old) (S.faults shelf.new)
        ⊎ Rose (W.faults recorders.old.write) (W.faults recorders.new.write)
        ⊎ Rose (O.faults out.old) (O.faults out.new)
        ⊎ (AsksToExplore (map string_bytes words.now)
        × Rose (K.faults keys.old) (K.faults keys.new)) }
    ensures shelf_fault { S.faults shelf.old < S.faults shelf.new → (result ≡ 7) ⊎ (result ≡ 9) }
    ensures recorder_fault { W.faults recorders.old.write < W.faults recorders.new.write
        → (result ≡ 7) ⊎ (result ≡ 9) }
    ensures keys_fault { K.faults keys.old < K.faults keys.new → (result ≡ 7) ⊎ (result ≡ 9) }
    ensures out_fault { O.faults out.old < O.faults out.new → (result ≡ 7) ⊎ (result ≡ 9) }
    // what stays
    ensures files_stay { S.held shelf.new ≡ S.held shelf.old }
    ensures keys_stay { ¬ AsksToExplore (map string_bytes words.now) → keys.new ≡ keys.old }
    ensures others_stay { (recorders.new.compare ≡ recorders.old.compare)
        × (recorders.new.memory ≡ recorders.old.memory)
        × (recorders.new.quiet ≡ recorders.old.quiet) }
    ensures reads_nothing { IsNoCommand (map string_bytes words.now)
        → S.gets shelf.new ≡ S.gets shelf.old }
{
    words_ask_one_command();
    let command = match command(alloc, words) {
        Ok(command) => command,
        Err(_) => return Status::NoMemory.code(),
    };
    let request = match command {
        Some(Command::Explore { trace }) => {
            return explore_trace(alloc, trace, shelf, keys, out).code();
        }
        Some(Command::Once(request)) => Some(request),
        None => None,
    };
    match answer_to(alloc, request, shelf, &mut recorders.write) {
        Ok(answer) => deliver(out, &answer).code(),
        Err(_) => Status::NoMemory.code(),
    }
}
