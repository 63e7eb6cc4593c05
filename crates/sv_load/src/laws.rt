// What holds of loading, on a function that gives nothing.
ghost use Rattle.sv_load.specs.Laws.{IsOneOutcome};

use sv_markup::components_are_read;
use sv_script::modules_are_read;

/// The same files and root come to one outcome. So a bundle is given exactly where there is one, and each refusal exactly by
/// its cause, but where a read fails or memory runs out.
pub fn one_outcome()
    ensures { IsOneOutcome }
{
    components_are_read();
    modules_are_read();
}
