// The reader and the grammar agree.
ghost use Rattle.std.specs.Prelude.{◌≡◌, ◌↔◌, ℕ, Bool, Ok};
ghost use Rattle.sv_lex.specs.Reader.{Input};
ghost use Rattle.sv_script.specs.Laws.{Sound, Complete, Blamed};
ghost use Rattle.sv_tags.specs.declared.directives.Tag.{Tag};
ghost use Rattle.sv_tags.specs.declared.holes.Filling.{Filling};
ghost use Rattle.sv_tags.specs.Grammar.{CommentAt, ScriptTagAt, StyleAt};
ghost use Rattle.sv_tags.specs.Laws.{read_braces, IsBraces, IsBracesThere, read_opening, IsOpening};
ghost use Rattle.sv_tags.specs.Raw as raw;

/// An opening that is read is in the grammar, within any limits, and one that is in the grammar is read. So no text has two
/// trees, and a refusal means that there is none. Where the grammar gives a tree within other limits, it is read or a limit is
/// what stands in the way.
pub fn openings_are_read()
    ensures sound { (tag : Tag) (owned : Bool) (from : ℕ) → Sound (read_opening tag owned from) (IsOpening tag owned) }
    ensures complete { (tag : Tag) (owned : Bool) (from : ℕ) → Complete (read_opening tag owned from) (IsOpening tag owned) }
    ensures cause { (tag : Tag) (owned : Bool) (from : ℕ) → Blamed (read_opening tag owned from) (IsOpening tag owned) }
{}

/// The same of braces, whatever they hold and with any room for constructs. That a brace comes next is taken for granted where
/// they are read, so soundness is said of texts that begin with one.
pub fn braces_are_read()
    ensures sound { (filling : Filling) → Sound (read_braces filling) (IsBracesThere filling) }
    ensures complete { (filling : Filling) → Complete (read_braces filling) (IsBraces filling) }
    ensures cause { (filling : Filling) → Blamed (read_braces filling) (IsBraces filling) }
{}

/// The same of scripts with their tags.
pub fn scripts_are_read()
    ensures sound { Sound raw.script ScriptTagAt }
    ensures complete { Complete raw.script ScriptTagAt }
    ensures cause { Blamed raw.script ScriptTagAt }
{}

/// The same of comments and styles, which have no limits.
pub fn comments_and_styles_are_read()
    ensures comments { (i o : Input) → (raw.comment i ≡ Ok (tt, o)) ↔ CommentAt i o }
    ensures styles { (i o : Input) → (raw.style i ≡ Ok (tt, o)) ↔ StyleAt i o }
{}
