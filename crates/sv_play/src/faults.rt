// The words for faults.
ghost use Rattle.std.specs.Prelude.{◌≡◌};
ghost use Rattle.sv_play.specs.Words as spec;

use sv_ops::FaultKind;

/// The word for a fault.
pub fn fault_word(kind: FaultKind) -> &'static str
    ensures { result.now ≡ spec.fault_word kind }
{
    match kind {
        FaultKind::NotAFunction => "NotAFunction",
        FaultKind::NoMember => "NoMember",
        FaultKind::NotANumber => "NotANumber",
        FaultKind::Range => "Range",
        FaultKind::ZeroDivisor => "ZeroDivisor",
        FaultKind::CompareObjects => "CompareObjects",
        FaultKind::NotText => "NotText",
        FaultKind::BadKey => "BadKey",
        FaultKind::NotAList => "NotAList",
        FaultKind::UseBeforeInit => "UseBeforeInit",
        FaultKind::NotAStore => "NotAStore",
        FaultKind::Dead => "Dead",
        FaultKind::Deep => "Deep",
        FaultKind::Large => "Large",
        FaultKind::Steps => "Steps",
        FaultKind::CallDepth => "CallDepth",
        FaultKind::TreeDepth => "TreeDepth",
    }
}
