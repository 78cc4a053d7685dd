//! The answers that tell nothing of what a source says.
ghost use Rattle.std.specs.Prelude.{◌≡◌, ◌++◌, IfOk};
ghost use Rattle.wy_explain.specs.Explained.{line_of};
ghost use Rattle.wy_lens.specs.Texts.{absent_line, fault_line, help_text, other_source_line, too_long_line, usage_text, version_text};

use crate::answer::Answer;
use crate::status::Status;
use std::alloc::{AllocError, Global};

fn told(alloc: Global, status: Status, text: &str) -> Result<Answer, AllocError>
    ensures { IfOk result (λ answer. (answer.status ≡ status) × (answer.text.items ≡ text.now)) }
{
    let mut copy = Vec::new(alloc);
    copy.extend_from_slice(text.as_bytes())?;
    Ok(Answer { status, text: copy })
}

/// A line of this text, with the name of a file behind it.
fn named(alloc: Global, status: Status, text: &str, name: &str) -> Result<Answer, AllocError>
    ensures { IfOk result (λ answer. (answer.status ≡ status)
        × (answer.text.items ≡ line_of (text.now ++ name.now))) }
{
    let line = format!(in alloc; "{text}{name}\n")?;
    Ok(Answer {
        status,
        text: line.into_bytes(),
    })
}

#[tactic(auto, unfolding(crate::specs::Texts::usage_text))]
pub fn usage(alloc: Global) -> Result<Answer, AllocError>
    ensures { IfOk result (λ answer. (answer.status ≡ Status.Usage)
        × (answer.text.items ≡ usage_text)) }
{
    told(
        alloc,
        Status::Usage,
        "usage: whylens COMMAND WORDS, or whylens --help\n",
    )
}

#[tactic(auto, unfolding(crate::specs::Texts::help_text))]
pub fn help(alloc: Global) -> Result<Answer, AllocError>
    ensures { IfOk result (λ answer. (answer.status ≡ Status.Done)
        × (answer.text.items ≡ help_text)) }
{
    told(
        alloc,
        Status::Done,
        "explain SRC                            says whether whyline runs the program in the file SRC, and if not, where it stops and why
show TRACE QUESTION [--all] [--data]   the answer of whyline why by the lines of the source: how often each ran, and what was last there
show TRACE --stop [--all] [--data]     the same of where the run stopped
slice TRACE QUESTION                   the source, only the lines of the answer
report TRACE QUESTION                  the answer as a page for a browser: the source, the events, and links between them
diff GOOD BAD                          where two runs of one source part, and what to ask next of the second one
expect TRACE FILE                      where the output is not what stands in a file: the first print that is another, or what never printed
events TRACE [LINE]                    all events, or those of a line
--version                              names the program
",
    )
}

#[tactic(auto, unfolding(crate::specs::Texts::version_text))]
pub fn version(alloc: Global) -> Result<Answer, AllocError>
    ensures { IfOk result (λ answer. (answer.status ≡ Status.Done)
        × (answer.text.items ≡ version_text)) }
{
    told(alloc, Status::Done, "whylens 1\n")
}

#[tactic(auto, unfolding(crate::specs::Texts::absent_line))]
pub fn absent(alloc: Global, name: &str) -> Result<Answer, AllocError>
    ensures { IfOk result (λ answer. (answer.status ≡ Status.Absent)
        × (answer.text.items ≡ absent_line name.now)) }
{
    named(alloc, Status::Absent, "absent: ", name)
}

#[tactic(auto, unfolding(crate::specs::Texts::too_long_line))]
pub fn too_long(alloc: Global, name: &str) -> Result<Answer, AllocError>
    ensures { IfOk result (λ answer. (answer.status ≡ Status.TooLong)
        × (answer.text.items ≡ too_long_line name.now)) }
{
    named(alloc, Status::TooLong, "too long: ", name)
}

/// The shelf failed.
#[tactic(auto, unfolding(crate::specs::Texts::fault_line))]
pub fn fault(alloc: Global) -> Result<Answer, AllocError>
    ensures { IfOk result (λ answer. (answer.status ≡ Status.Fault)
        × (answer.text.items ≡ fault_line)) }
{
    told(alloc, Status::Fault, "fault: shelf\n")
}

/// Two traces are of other sources.
#[tactic(auto, unfolding(crate::specs::Texts::other_source_line))]
pub fn other_source(alloc: Global) -> Result<Answer, AllocError>
    ensures { IfOk result (λ answer. (answer.status ≡ Status.Question)
        × (answer.text.items ≡ other_source_line)) }
{
    told(alloc, Status::Question, "question: other source\n")
}
