// Laws of the values of parts, on functions that do nothing.
ghost use Rattle.std.specs.Prelude.{◌≡◌, ℕ, false, Some, slice_get};
ghost use Rattle.sv_code.specs.Parts.{of_program};
ghost use Rattle.sv_code.specs.Within.{IsWithin, ArePartsWithin};
ghost use Rattle.sv_code.specs.declared.parts.Part.{Part};
ghost use Rattle.sv_code.specs.declared.program.Program.{Program};
ghost use Rattle.sv_local.specs.Looks.{AreAlike, AreAlikeAt};
ghost use Rattle.sv_local.specs.Versions.{AreVersions};
ghost use Rattle.sv_meaning.specs.Moved.{moved};
ghost use Rattle.sv_meaning.specs.Parts.{part_value};
ghost use Rattle.sv_view.specs.Level.{View};

/// The value of a part depends on nothing but the names that it reads, and the cells that the arrows that are written in it read.
pub fn value_by_names()
    ensures same { (p : Program) (part : Part) (v v' : View) → AreAlike p part v v' → part_value p v part ≡ part_value p v' part }
{}

/// The value of a part that reads nothing but what it looks at depends on nothing else.
pub fn value_by_looks()
    ensures same { (p : Program) (part : Part) (v v' : View) → IsWithin p part → AreAlikeAt part.reads v v' → part_value p v part ≡ part_value p v' part }
{}

/// Where nothing that a part looks at moved, its value is what it was.
pub fn value_by_versions()
    ensures same { (p : Program) (part : Part) (v v' : View) → IsWithin p part → AreVersions v v' → moved part.reads v v' ≡ false → part_value p v part ≡ part_value p v' part }
{}

/// In a program each of whose parts reads nothing but what it looks at, a part of which nothing moved has the value that it had.
pub fn still_parts()
    ensures same { (p : Program) (i : ℕ) (part : Part) (v v' : View) → ArePartsWithin p → slice_get (of_program p) i ≡ Some part → AreVersions v v' → moved part.reads v v' ≡ false → part_value p v part ≡ part_value p v' part }
{}
