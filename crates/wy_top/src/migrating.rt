//! A trace is written anew: read whole and checked before the recorder is started.
ghost use Rattle.std.specs.Prelude.{◌≡◌, ◌<◌, IfOk, Some};
ghost use Rattle.wy_outside.specs.Counts.{Rose};
ghost use Rattle.wy_outside.specs.Shelf.{Files};
ghost use Rattle.wy_record.specs.declared.recorder.Phase.TheVariants.{Failed, Ready};
ghost use Rattle.wy_reply.specs.Recordings.{spelling};
ghost use Rattle.wy_reply.specs.Statuses.{code_of};
ghost use Rattle.wy_reply.specs.Tellings as wanted;
ghost use Rattle.wy_reply.specs.declared.status.Status.TheVariants.{Done};
ghost use Rattle.wy_top.specs.Answers.{counts};
ghost use Rattle.wy_top.specs.Call.{Rewritten};
ghost use Rattle.wy_top.specs.Due.{DueForTrace};
ghost use Rattle.wy_top.specs.Left.{FinishesTrace, IsSettled, LeavesAnew, LeftAnew, StartsNone};
ghost use Rattle.wy_top.specs.Replies.{AnswersBy, HasCause, at_shelf};

use crate::opening::{Opening, open_trace};
use crate::rewritten::sealed_traces_are_migrated;
use std::alloc::{AllocError, Global};
use wy_outside::shelf::Shelf;
use wy_record::Recorder;
use wy_reply::{Answer, answer_to_migration};

/// The trace of a name is handed to the recorder, by another name; or what is wrong with it first.
pub(crate) fn answer_to_migrate<S: Shelf, R: Recorder>(
    alloc: Global,
    shelf: &mut S,
    trace: &str,
    name: &str,
    recorder: &mut R,
) -> Result<Answer, AllocError>
    requires sound { R.Sound recorder.old }
    requires ready { R.phase recorder.old ≡ Ready }
    ensures sound { R.Sound recorder.new }
    ensures due { IfOk result (λ answer. AnswersBy
        (λ files. DueForTrace files trace.now wanted.Migrate) (S.held shelf.old)
        (counts (S.faults shelf.old) (R.faults recorder.old))
        (counts (S.faults shelf.new) (R.faults recorder.new)) answer) }
    ensures traced { IfOk result (λ answer. answer.status ≡ Done → (files : Files)
        → S.held shelf.old ≡ Some files
        → Rewritten (spelling R.opening R.frame R.closing) files trace.now
        (R.mirrors recorder.old) (R.mirrors recorder.new)) }
    ensures left { (files : Files) → S.held shelf.old ≡ Some files
        → LeftAnew (spelling R.opening R.frame R.closing) files trace.now
        (R.phase recorder.new) (R.mirrors recorder.old) (R.mirrors recorder.new) }
    ensures left_some { LeavesAnew (spelling R.opening R.frame R.closing)
        (R.phase recorder.new) (R.mirrors recorder.old) (R.mirrors recorder.new) }
    ensures settled { IfOk result (λ answer.
        ¬ Rose (R.faults recorder.old) (R.faults recorder.new) → IsSettled (R.phase recorder.new)) }
    ensures finishes { IfOk result (λ answer. ¬ Rose (S.faults shelf.old) (S.faults shelf.new)
        → ¬ Rose (R.faults recorder.old) (R.faults recorder.new)
        → FinishesTrace trace.now (S.held shelf.old) (R.phase recorder.new)) }
    ensures unstarted { IfOk result (λ answer.
        StartsNone (code_of answer.status) → recorder.new ≡ recorder.old) }
    ensures failed { R.faults recorder.old < R.faults recorder.new
        → R.phase recorder.new ≡ Failed }
    ensures causes { IfOk result (λ answer. HasCause
        (at_shelf (S.faults shelf.old) (S.misses shelf.old) (S.fulls shelf.old))
        (at_shelf (S.faults shelf.new) (S.misses shelf.new) (S.fulls shelf.new)) answer) }
    ensures files_stay { S.held shelf.new ≡ S.held shelf.old }
{
    sealed_traces_are_migrated();
    match open_trace(alloc, shelf, trace)? {
        Opening::Open { typed: _, trace } => answer_to_migration(alloc, name, trace, recorder),
        Opening::Refused(answer) => Ok(answer),
    }
}
