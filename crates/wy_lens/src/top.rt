//! The call that the program makes.
ghost use Rattle.std.specs.Prelude.{◌≡◌, ◌≢◌, ◌<◌, ◌⊎◌, map, string_bytes};
ghost use Rattle.wy_lens.specs.Answers.{Knows, WritesDue, WritesPart};
ghost use Rattle.wy_lens.specs.Statuses.{IsStatus};
ghost use Rattle.wy_lens.specs.Words.{AskNothing};
ghost use Rattle.wy_outside.specs.Counts.{Rose};

use crate::answer::answer_to;
use crate::delivery::deliver;
use crate::status::Status;
use std::alloc::Global;
use wy_outside::shelf::Shelf;
use wy_outside::sink::Sink;

/// Tells what the words ask, over the files of `shelf`, writes its text to `out` and returns its status.
///
/// | Status | Comes |
/// |---|---|
/// | 0 | the source is a program, what was asked of the trace was told, or help or the version was asked |
/// | 2 | the words ask nothing |
/// | 3 | there is no such file |
/// | 4 | the source has no tokens or no tree, or breaks a rule of classes and types |
/// | 5 | the trace is cut or damaged, or its source is no program |
/// | 6 | the question isn't read, or asks about what isn't there |
/// | 7 | a read or a write failed |
/// | 8 | the source has more than 1,048,576 bytes, or the trace more than 1,073,741,824 |
/// | 9 | memory ran out |
pub fn whylens<S: Shelf, O: Sink>(alloc: Global, words: &[String], shelf: &mut S, out: &mut O) -> u8
    // what is written
    ensures due { ¬ Rose (S.faults shelf.old) (S.faults shelf.new)
        → ¬ Rose (O.faults out.old) (O.faults out.new)
        → Knows (map string_bytes words.now) (S.held shelf.old)
        → result ≢ 9
        → WritesDue (map string_bytes words.now) (S.held shelf.old) result
        (O.written out.old) (O.written out.new) }
    ensures part { WritesPart (map string_bytes words.now) (S.held shelf.old)
        (O.written out.old) (O.written out.new) }
    // statuses and their causes
    ensures status { IsStatus result }
    ensures usage { result ≡ 2 → AskNothing (map string_bytes words.now) }
    ensures absent { result ≡ 3 → Rose (S.misses shelf.old) (S.misses shelf.new) }
    ensures too_long { result ≡ 8 → Rose (S.fulls shelf.old) (S.fulls shelf.new) }
    ensures fault { result ≡ 7 → Rose (S.faults shelf.old) (S.faults shelf.new)
        ⊎ Rose (O.faults out.old) (O.faults out.new) }
    ensures out_fault { O.faults out.old < O.faults out.new → (result ≡ 7) ⊎ (result ≡ 9) }
    // what stays
    ensures files_stay { S.held shelf.new ≡ S.held shelf.old }
{
    match answer_to(alloc, words, shelf) {
        Ok(answer) => deliver(out, &answer).code(),
        Err(_) => Status::NoMemory.code(),
    }
}
