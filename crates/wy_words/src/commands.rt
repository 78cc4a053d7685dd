//! Which command a name and what is named behind it are.
ghost use Rattle.std.specs.Prelude.{◌≡◌, option_map};
ghost use Rattle.wy_words.specs.Views.{asking_of, asked_of, command_of, pair_of, triple_of};
ghost use Rattle.wy_words.specs.Reading.{audit as audit_asked, command_named as named_so};
ghost use Rattle.wy_words.specs.Reading.{explore as explore_asked, generated as gen_asked};
ghost use Rattle.wy_words.specs.Reading.{migrating as migrating_asked};
ghost use Rattle.wy_words.specs.Reading.{is_bare as bare, only_operand as alone, output as output_asked};
ghost use Rattle.wy_words.specs.Reading.{over_trace as over_trace_so};
ghost use Rattle.wy_words.specs.Reading.{recording as recording_asked, run as run_asked, run_of};
ghost use Rattle.wy_words.specs.Reading.{questions as questions_asked, two_operands as both};
ghost use Rattle.wy_words.specs.Reading.{affects as affects_asked, why as why_asked, whynot as whynot_asked};
ghost use Rattle.wy_words.specs.Reading.{certify as certify_asked, check as check_asked};
ghost use Rattle.wy_words.specs.Reading.{scope as scope_asked, scope_of as scope_of_so, three_operands as all_three};

use crate::asking::{Asking, Operands};
use crate::number::{event_number, number};

/// The steps that are run where none are asked.
const DEFAULT_STEPS: u32 = 1_000_000;

/// The methods that a generated program may have.
const MOST_METHODS: u32 = 2_000;

/// A run of the program in a file, on the input in another where one is named.
#[derive(Clone, Copy)]
pub struct Asked<'a> {
    pub source: &'a str,
    pub input: Option<&'a str>,
    pub steps: u32,
}

/// What can be asked that has one answer.
#[derive(Clone, Copy)]
pub enum Request<'a> {
    Run(Asked<'a>),
    Record {
        asked: Asked<'a>,
        trace: &'a str,
    },
    Output {
        trace: &'a str,
    },
    Why {
        trace: &'a str,
        question: &'a str,
    },
    WhyNot {
        trace: &'a str,
        statement: &'a str,
    },
    Affects {
        trace: &'a str,
        question: &'a str,
    },
    Certify {
        trace: &'a str,
        question: &'a str,
    },
    Check {
        trace: &'a str,
        certificate: &'a str,
    },
    Scope {
        trace: &'a str,
        statement: &'a str,
        call: u32,
    },
    Questions {
        trace: &'a str,
    },
    Audit {
        trace: &'a str,
    },
    /// Of a trace of either version, what is recorded now.
    Migrate {
        trace: &'a str,
        name: &'a str,
    },
    Gen {
        number: u32,
    },
}

/// What can be asked.
#[derive(Clone, Copy)]
pub enum Command<'a> {
    Once(Request<'a>),
    /// A session, in which each line of the keys has its answer.
    Explore { trace: &'a str },
}

/// The command of this name, where it takes all that is named and needs no more.
#[tactic(auto, unfolding(crate::specs::Reading::command_named))]
pub fn command_named<'a>(name: &str, asking: Asking<'a>) -> Option<Command<'a>>
    ensures { option_map command_of result ≡ named_so name.now (asking_of asking.entry) }
{
    if name == "run" {
        return run(asking);
    }
    if name == "record" {
        return recording(asking);
    }
    if name == "migrate" {
        return migrating(asking);
    }
    if name == "gen" {
        return generated(asking);
    }
    over_trace(name, asking)
}

/// The same, where the command is about a trace that is there.
#[tactic(auto, unfolding(crate::specs::Reading::over_trace))]
fn over_trace<'a>(name: &str, asking: Asking<'a>) -> Option<Command<'a>>
    ensures { option_map command_of result ≡ over_trace_so name.now (asking_of asking.entry) }
{
    if name == "output" {
        return output(asking);
    }
    if name == "why" {
        return why(asking);
    }
    if name == "whynot" {
        return whynot(asking);
    }
    if name == "affects" {
        return affects(asking);
    }
    if name == "certify" {
        return certify(asking);
    }
    if name == "check" {
        return check(asking);
    }
    if name == "scope" {
        return scope(asking);
    }
    if name == "questions" {
        return questions(asking);
    }
    if name == "explore" {
        return explore(asking);
    }
    if name == "audit" {
        return audit(asking);
    }
    None
}

#[tactic(auto, unfolding(crate::specs::Reading::run))]
fn run(asking: Asking<'_>) -> Option<Command<'_>>
    ensures { option_map command_of result ≡ run_asked (asking_of asking.entry) }
{
    if asking.trace.is_some() {
        return None;
    }
    match to_run(asking) {
        Some(asked) => Some(Command::Once(Request::Run(asked))),
        None => None,
    }
}

#[tactic(auto, unfolding(crate::specs::Reading::recording))]
fn recording(asking: Asking<'_>) -> Option<Command<'_>>
    ensures { option_map command_of result
        ≡ recording_asked (asking_of asking.entry).trace (asking_of asking.entry) }
{
    let Some(trace) = asking.trace else {
        return None;
    };
    match to_run(asking) {
        Some(asked) => Some(Command::Once(Request::Record { asked, trace })),
        None => None,
    }
}

#[tactic(auto, unfolding(crate::specs::Reading::migrating))]
fn migrating(asking: Asking<'_>) -> Option<Command<'_>>
    ensures { option_map command_of result
        ≡ migrating_asked (asking_of asking.entry).trace (asking_of asking.entry) }
{
    let Some(name) = asking.trace else {
        return None;
    };
    let without = Asking {
        operands: asking.operands,
        input: asking.input,
        trace: None,
        steps: asking.steps,
    };
    match only_operand(without) {
        Some(trace) => Some(Command::Once(Request::Migrate { trace, name })),
        None => None,
    }
}

#[tactic(auto, unfolding(crate::specs::Reading::output))]
fn output(asking: Asking<'_>) -> Option<Command<'_>>
    ensures { option_map command_of result ≡ output_asked (asking_of asking.entry) }
{
    match only_operand(asking) {
        Some(trace) => Some(Command::Once(Request::Output { trace })),
        None => None,
    }
}

#[tactic(auto, unfolding(crate::specs::Reading::why))]
fn why(asking: Asking<'_>) -> Option<Command<'_>>
    ensures { option_map command_of result ≡ why_asked (asking_of asking.entry) }
{
    match two_operands(asking) {
        Some((trace, question)) => Some(Command::Once(Request::Why { trace, question })),
        None => None,
    }
}

#[tactic(auto, unfolding(crate::specs::Reading::whynot))]
fn whynot(asking: Asking<'_>) -> Option<Command<'_>>
    ensures { option_map command_of result ≡ whynot_asked (asking_of asking.entry) }
{
    match two_operands(asking) {
        Some((trace, statement)) => Some(Command::Once(Request::WhyNot { trace, statement })),
        None => None,
    }
}

#[tactic(auto, unfolding(crate::specs::Reading::affects))]
fn affects(asking: Asking<'_>) -> Option<Command<'_>>
    ensures { option_map command_of result ≡ affects_asked (asking_of asking.entry) }
{
    match two_operands(asking) {
        Some((trace, question)) => Some(Command::Once(Request::Affects { trace, question })),
        None => None,
    }
}

#[tactic(auto, unfolding(crate::specs::Reading::certify))]
fn certify(asking: Asking<'_>) -> Option<Command<'_>>
    ensures { option_map command_of result ≡ certify_asked (asking_of asking.entry) }
{
    match two_operands(asking) {
        Some((trace, question)) => Some(Command::Once(Request::Certify { trace, question })),
        None => None,
    }
}

#[tactic(auto, unfolding(crate::specs::Reading::check))]
fn check(asking: Asking<'_>) -> Option<Command<'_>>
    ensures { option_map command_of result ≡ check_asked (asking_of asking.entry) }
{
    match two_operands(asking) {
        Some((trace, certificate)) => Some(Command::Once(Request::Check { trace, certificate })),
        None => None,
    }
}

#[tactic(auto, unfolding(crate::specs::Reading::scope))]
fn scope(asking: Asking<'_>) -> Option<Command<'_>>
    ensures { option_map command_of result ≡ scope_asked (asking_of asking.entry) }
{
    match three_operands(asking) {
        Some((trace, statement, word)) => scope_of(trace, statement, word),
        None => None,
    }
}

/// A statement in the call that a word numbers.
#[tactic(auto, unfolding(crate::specs::Reading::scope_of))]
fn scope_of<'a>(trace: &'a str, statement: &'a str, word: &str) -> Option<Command<'a>>
    ensures { option_map command_of result
        ≡ scope_of_so (trace.now, statement.now, word.now) }
{
    match event_number(word) {
        Some(call) => Some(Command::Once(Request::Scope {
            trace,
            statement,
            call,
        })),
        None => None,
    }
}

#[tactic(auto, unfolding(crate::specs::Reading::questions))]
fn questions(asking: Asking<'_>) -> Option<Command<'_>>
    ensures { option_map command_of result ≡ questions_asked (asking_of asking.entry) }
{
    match only_operand(asking) {
        Some(trace) => Some(Command::Once(Request::Questions { trace })),
        None => None,
    }
}

#[tactic(auto, unfolding(crate::specs::Reading::explore))]
fn explore(asking: Asking<'_>) -> Option<Command<'_>>
    ensures { option_map command_of result ≡ explore_asked (asking_of asking.entry) }
{
    match only_operand(asking) {
        Some(trace) => Some(Command::Explore { trace }),
        None => None,
    }
}

#[tactic(auto, unfolding(crate::specs::Reading::audit))]
fn audit(asking: Asking<'_>) -> Option<Command<'_>>
    ensures { option_map command_of result ≡ audit_asked (asking_of asking.entry) }
{
    match only_operand(asking) {
        Some(trace) => Some(Command::Once(Request::Audit { trace })),
        None => None,
    }
}

#[tactic(auto, unfolding(crate::specs::Reading::generated))]
fn generated(asking: Asking<'_>) -> Option<Command<'_>>
    ensures { option_map command_of result ≡ gen_asked (asking_of asking.entry) }
{
    match number(only_operand(asking)?, MOST_METHODS) {
        Some(number) => Some(Command::Once(Request::Gen { number })),
        None => None,
    }
}

/// What is run, where one operand names it.
#[tactic(auto, unfolding(crate::specs::Reading::run_of))]
fn to_run(asking: Asking<'_>) -> Option<Asked<'_>>
    ensures { option_map asked_of result
        ≡ run_of (asking_of asking.entry).operands (asking_of asking.entry) }
{
    match asking.operands {
        Operands::One(source) => Some(Asked {
            source,
            input: asking.input,
            steps: asking.steps.unwrap_or(DEFAULT_STEPS),
        }),
        _ => None,
    }
}

/// The operand, where one stands and no option.
#[tactic(auto, unfolding(crate::specs::Reading::only_operand))]
fn only_operand(asking: Asking<'_>) -> Option<&str>
    ensures { option_map (λ s. s.now) result
        ≡ alone (asking_of asking.entry).operands (asking_of asking.entry) }
{
    match asking.operands {
        Operands::One(word) if is_bare(&asking) => Some(word),
        _ => None,
    }
}

/// The two operands, where they stand and no option.
#[tactic(auto, unfolding(crate::specs::Reading::two_operands))]
fn two_operands(asking: Asking<'_>) -> Option<(&str, &str)>
    ensures { option_map pair_of result
        ≡ both (asking_of asking.entry).operands (asking_of asking.entry) }
{
    match asking.operands {
        Operands::Two(first, second) if is_bare(&asking) => Some((first, second)),
        _ => None,
    }
}

/// The three operands, where they stand and no option.
#[tactic(auto, unfolding(crate::specs::Reading::three_operands))]
fn three_operands(asking: Asking<'_>) -> Option<(&str, &str, &str)>
    ensures { option_map triple_of result
        ≡ all_three (asking_of asking.entry).operands (asking_of asking.entry) }
{
    match asking.operands {
        Operands::Three(first, second, third) if is_bare(&asking) => Some((first, second, third)),
        _ => None,
    }
}

#[tactic(auto, unfolding(crate::specs::Reading::is_bare))]
fn is_bare(asking: &Asking<'_>) -> bool
    ensures { result ≡ bare (asking_of asking.now) }
{
    asking.input.is_none() && asking.trace.is_none() && asking.steps.is_none()
}
