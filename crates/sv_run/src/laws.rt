// Laws of the definitions, each on a function that does nothing.
ghost use Rattle.sv_run.specs.Run.{IsOneAnswer};

use sv_check::{mistake_or_clean, one_mistake};
use sv_compile::{one_order, one_program};
use sv_load::one_outcome;
use sv_words::one_form;

/// No words and files call for two different answers, so that each cause is exact.
pub fn one_answer()
    ensures { IsOneAnswer }
{
    one_outcome();
    one_mistake();
    mistake_or_clean();
    one_program();
    one_order();
    one_form();
}
