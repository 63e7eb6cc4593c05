// Laws of the definitions, each on a function that does nothing.
ghost use Rattle.sv_words.specs.Words.{IsOneForm};

/// No words are two forms.
#[tactic(auto, using(crate::proofs::Forms::one_form))]
pub fn one_form()
    ensures { IsOneForm }
{}
