//! Lines of the report that say how a command ended.
ghost use Rattle.std.specs.Prelude.{◌≡◌, ℕ, List, IfOk, string_bytes};
ghost use Rattle.agent_base.specs.Views.{OnlyReport};
ghost use Rattle.agent_run.specs.Places.{AnswersWith, open_fault_line};

use crate::status::Status;
use agent_base::{PutFault, World};
use std::alloc::{AllocError, Global};

/// Reports a line, and answers the status, unless memory was short.
pub(crate) fn report_line<W: World>(world: &mut W, line: &[u8], status: Status) -> Status
    ensures answer { AnswersWith result status (W.view world.old).report (W.view world.new).report line.now }
    ensures only { OnlyReport (W.view world.old) (W.view world.new) }
{
    match world.report(line) {
        Err(PutFault::OutOfMemory) => Status::OutOfMemory,
        _ => status,
    }
}

/// Reports a line that was made, unless memory was short.
pub(crate) fn report_made<W: World>(
    world: &mut W,
    line: Result<String, AllocError>,
    status: Status,
) -> Status
    ensures answer { (text : List ℕ) → IfOk line (λ made. string_bytes made ≡ text)
        → AnswersWith result status (W.view world.old).report (W.view world.new).report text }
    ensures only { OnlyReport (W.view world.old) (W.view world.new) }
{
    match line {
        Ok(line) => report_line(world, line.as_bytes(), status),
        Err(_) => Status::OutOfMemory,
    }
}

/// The line that says which place wasn't opened.
fn open_fault_line(alloc: Global, place: &str) -> Result<String, AllocError>
    ensures { IfOk result (λ line. string_bytes line ≡ open_fault_line place.now) }
{
    format!(in alloc; "fault: open {place}\n")
}

/// Reports which place wasn't opened.
pub(crate) fn report_open_fault<W: World>(alloc: Global, world: &mut W, place: &str) -> Status
    ensures answer { AnswersWith result Status.OpenFault (W.view world.old).report (W.view world.new).report
        (open_fault_line place.now) }
    ensures only { OnlyReport (W.view world.old) (W.view world.new) }
{
    report_made(world, open_fault_line(alloc, place), Status::OpenFault)
}

/// Says lines to people, in order.
pub(crate) fn say_all<W: World>(alloc: Global, world: &mut W, lines: &[String])
    ensures same { W.view world.new ≡ W.view world.old }
{
    for line in lines {
        world.say(alloc, line.as_str());
    }
}
