//! Checking a configuration.
ghost use Rattle.std.specs.Prelude.{◌≡◌, IfOk, string_bytes};
ghost use Rattle.agent_base.specs.Places.{AreHome};
ghost use Rattle.agent_base.specs.Views.{OnlyReport};
ghost use Rattle.agent_run.specs.Checking.{Approves, HasChecked, class_word, config_fault_line, kind_word};
ghost use Rattle.agent_run.specs.Configured.{unread_line, unread_status};
ghost use Rattle.agent_run.specs.Places.{AnswersWith, read_fault_line};

use crate::reading::{Unread, config_at};
use crate::reporting::{report_made, report_open_fault};
use crate::status::Status;
use agent_base::{PutFault, World};
use agent_config::{Class, ConfigFault, ConfigKind};
use formats::variant_name;
use std::alloc::{AllocError, Global};

/// How a line names a class.
fn class_word(class: Class) -> &'static str
    ensures { result.now ≡ class_word class }
{
    match class {
        Class::Root => "root",
        Class::Agent => "agent",
        Class::GlobalTags => "global_tags",
        Class::Inputs => "inputs",
        Class::Processors => "processors",
        Class::Aggregators => "aggregators",
        Class::Outputs => "outputs",
    }
}

/// How a line names what is wrong.
fn kind_word(kind: ConfigKind) -> &'static str
    ensures { result.now ≡ kind_word kind }
{
    variant_name!(kind, ConfigKind:
        OutOfMemory, NotToml, UnknownKind, UnknownKey, WrongType, Missing, OutOfRange,
        BadGlob, BadPattern, BadTemplate, TooManyPlugins, NoInput, NoOutput,
        BatchAboveLimit, SamePlace)
}

/// The line that names a fault of a configuration.
fn config_fault_line(alloc: Global, fault: ConfigFault) -> Result<String, AllocError>
    ensures { IfOk result (λ line. string_bytes line ≡ config_fault_line fault) }
{
    let kind = kind_word(fault.kind);
    let class = class_word(fault.class);
    let number = fault.number;
    format!(in alloc; "config: {kind} {class} {number}\n")
}

/// Reports the fault of a configuration.
fn report_config_fault<W: World>(alloc: Global, world: &mut W, fault: ConfigFault) -> Status
    ensures answer { AnswersWith result Status.Config (W.view world.old).report (W.view world.new).report
        (config_fault_line fault) }
    ensures only { OnlyReport (W.view world.old) (W.view world.new) }
{
    report_made(world, config_fault_line(alloc, fault), Status::Config)
}

/// Reports that a configuration has no fault.
fn report_ok<W: World>(world: &mut W) -> Status
    ensures answer { Approves result (W.view world.old).report (W.view world.new).report }
    ensures only { OnlyReport (W.view world.old) (W.view world.new) }
{
    match world.report(b"ok\n") {
        Ok(()) => Status::Done,
        Err(PutFault::Failed) => Status::ReportFault,
        Err(PutFault::OutOfMemory) => Status::OutOfMemory,
    }
}

/// The line that says which place wasn't read.
fn read_fault_line(alloc: Global, place: &str) -> Result<String, AllocError>
    ensures { IfOk result (λ line. string_bytes line ≡ read_fault_line place.now) }
{
    format!(in alloc; "fault: read {place}\n")
}

/// Reports why the configuration of a place wasn't read.
pub(crate) fn report_unread<W: World>(
    alloc: Global,
    world: &mut W,
    place: &str,
    unread: Unread,
) -> Status
    ensures answer { AnswersWith result (unread_status unread) (W.view world.old).report (W.view world.new).report
        (unread_line unread place.now) }
    ensures only { OnlyReport (W.view world.old) (W.view world.new) }
{
    match unread {
        Unread::Unopened => report_open_fault(alloc, world, place),
        Unread::Failed => report_made(world, read_fault_line(alloc, place), Status::ReadFault),
        Unread::Faulty(fault) => report_config_fault(alloc, world, fault),
        Unread::OutOfMemory => Status::OutOfMemory,
    }
}

/// Checks the configuration at a place, and reports `ok` or its first fault, as `config: KIND CLASS NUMBER`.
///
/// The place is read to its end, or to one byte above 1 MiB, and given back.
pub(crate) fn check_call<W: World>(alloc: Global, world: &mut W, place: &str) -> Status
    requires ins { AreHome (W.view world.old).ins }
    ensures checked { HasChecked result place.now (W.view world.old) (W.view world.new) }
    ensures home { AreHome (W.view world.new).ins }
{
    match config_at(alloc, world, place) {
        Ok(_config) => report_ok(world),
        Err(unread) => report_unread(alloc, world, place, unread),
    }
}
