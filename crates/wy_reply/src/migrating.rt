//! What is answered where a trace is written anew.
ghost use Rattle.std.specs.Prelude.{◌≡◌, ◌<◌, IfOk};
ghost use Rattle.wy_record.specs.declared.recorder.Phase.TheVariants.{Done as Finished, Failed, Ready};
ghost use Rattle.wy_reply.specs.declared.status.Status.TheVariants.{Done};
ghost use Rattle.wy_reply.specs.Migrations.{HoldAnewByPhase, MigratesAs};
ghost use Rattle.wy_reply.specs.Opening.{IsViewable};
ghost use Rattle.wy_reply.specs.Recordings.{spelling};

use crate::answer::Answer;
use crate::lines::{Refusal, migrated_line};
use std::alloc::{AllocError, Global};
use wy_event::record::Trace;
use wy_fitting::{end_fits, events_fit};
use wy_migrate::{MigrationError, migrate};
use wy_record::{RecordError, Recorder};
use wy_view::MemoryView;

/// How many events a trace has that was read, once each mirror of the recorder has it as the recorder spells it. Where the recorder
/// failed or memory ran out, each has a prefix of it.
pub fn answer_to_migration<R: Recorder>(
    alloc: Global,
    name: &str,
    trace: Trace,
    recorder: &mut R,
) -> Result<Answer, AllocError>
    requires sound { R.Sound recorder.old }
    requires ready { R.phase recorder.old ≡ Ready }
    requires viewable { IsViewable trace }
    ensures sound { R.Sound recorder.new }
    ensures migrates { IfOk result (λ answer. MigratesAs (spelling R.opening R.frame R.closing)
        trace (R.mirrors recorder.old) (R.mirrors recorder.new)
        (R.faults recorder.old) (R.faults recorder.new) answer) }
    ensures held { HoldAnewByPhase (spelling R.opening R.frame R.closing) trace
        (R.phase recorder.new) (R.mirrors recorder.old) (R.mirrors recorder.new) }
    ensures finished { IfOk result (λ answer.
        answer.status ≡ Done → R.phase recorder.new ≡ Finished) }
    ensures failed { R.faults recorder.old < R.faults recorder.new
        → R.phase recorder.new ≡ Failed }
{
    let Trace { head, events, tail } = trace;
    events_fit(events.as_slice());
    end_fits(&tail);
    let count = events.as_slice().len();
    let mut view = MemoryView {
        events: events.into_vec(),
    };
    match migrate(alloc, name, &head, &mut view, &tail, recorder) {
        Ok(()) => Ok(Answer::done(migrated_line(alloc, count)?)),
        Err(MigrationError::Recorder(RecordError::SinkFault { .. })) => {
            Answer::refused(alloc, Refusal::FaultRecorder)
        }
        Err(_) => Err(AllocError),
    }
}
