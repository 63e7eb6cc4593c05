// The words for the kinds of refusals.
ghost use Rattle.std.specs.Prelude.{◌≡◌, Some, IfOk};
ghost use Rattle.sv_run.specs.Kinds as spec;

use std::fmt;
use sv_ast::Kind;
use sv_base::NoMemory;
use sv_events::EventsError;
use sv_resolve::CheckKind;

/// Why a file of events or steps is refused.
#[derive(Clone, Copy, Debug, PartialEq, Eq)]
pub enum EventsFault {
    /// It has more bytes than its limit.
    TooLong,
    /// Its bytes are no JSON.
    NotJson,
    /// Its JSON isn't of the form of such a file.
    BadForm,
    /// It has more events or steps than it may.
    TooMany,
    /// The event or step with this number, from 0, is the first that has not the form of one.
    BadShape(u32),
    /// The step with this number, from 0, is the first whose selector is none.
    BadSelector(usize),
}

/// The word for why a file has no tree.
pub fn parse_word(kind: Kind) -> &'static str
    ensures { result.now ≡ spec.parse_word kind }
{
    match kind {
        Kind::NotUtf8 => "NotUtf8",
        Kind::Syntax => "Syntax",
        Kind::Unclosed => "Unclosed",
        Kind::TooDeep => "TooDeep",
        Kind::NumberTooWide => "NumberTooWide",
        Kind::OutOfScope => "OutOfScope",
    }
}

/// The word for the mistake of a program.
pub fn check_word(kind: CheckKind) -> &'static str
    ensures { result.now ≡ spec.check_word kind }
{
    match kind {
        CheckKind::ImportCycle => "ImportCycle",
        CheckKind::UnknownImport => "UnknownImport",
        CheckKind::DeclaredTwice => "DeclaredTwice",
        CheckKind::UnknownName => "UnknownName",
        CheckKind::AssignConst => "AssignConst",
        CheckKind::CapturedAssign => "CapturedAssign",
        CheckKind::BadStore => "BadStore",
        CheckKind::BadLifecyclePlace => "BadLifecyclePlace",
        CheckKind::BadDerived => "BadDerived",
        CheckKind::ImpureMarkup => "ImpureMarkup",
        CheckKind::UnknownProp => "UnknownProp",
        CheckKind::UnknownSlot => "UnknownSlot",
        CheckKind::BadBind => "BadBind",
        CheckKind::TooManyNames => "TooManyNames",
        CheckKind::ReactiveCycle => "ReactiveCycle",
    }
}

/// Why a file that tells no events or steps is refused. `NoMemory` comes for `NoMemory`, which refuses none.
pub fn events_fault(error: EventsError) -> Result<EventsFault, NoMemory>
    ensures { IfOk result (λ fault. spec.fault_in error ≡ Some fault) }
{
    match error {
        EventsError::NotJson => Ok(EventsFault::NotJson),
        EventsError::BadForm => Ok(EventsFault::BadForm),
        EventsError::TooMany => Ok(EventsFault::TooMany),
        EventsError::BadShape(at) => Ok(EventsFault::BadShape(at)),
        EventsError::NoMemory => Err(NoMemory),
    }
}

impl fmt::Display for EventsFault {
    ghost use Rattle.std.specs.Prelude.{Some};
    ghost use Rattle.sv_run.specs.Kinds.{events_word};

    ghost output = { λ fault. Some (events_word fault) };

    fn fmt<W: fmt::Write>(&self, f: &mut fmt::Formatter<W>) -> fmt::Result {
        match self {
            EventsFault::TooLong => f.write_str("TooLong"),
            EventsFault::NotJson => f.write_str("NotJson"),
            EventsFault::BadForm => f.write_str("BadForm"),
            EventsFault::TooMany => f.write_str("TooMany"),
            EventsFault::BadShape(at) => write!(f, "BadShape {at}"),
            EventsFault::BadSelector(at) => write!(f, "BadSelector {at}"),
        }
    }
}
