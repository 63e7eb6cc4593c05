// Laws of the definitions, each on a function that does nothing.
ghost use Rattle.sv_within.specs.Keys.{AreMarkupKeysSeen};
ghost use Rattle.sv_within.specs.Staying.{ArePartsMadeWithin, IsMarkupMadeWithin};

/// The code of an expression of markup reads nothing but what the names that stand free in it look at, in the arrows that are written in it
/// too.
pub fn part_is_within()
    ensures { ArePartsMadeWithin }
{}

/// Each part of the markup of a component reads nothing but what it looks at, those of its component tags and handlers among them. The content
/// of a component's tag looks at nothing but what the tag does, whatever stands for a tag or a handler looks at what that does, and each `<slot>`
/// looks at the owner's view.
pub fn markup_is_within()
    ensures { IsMarkupMadeWithin }
{}

/// The list of an each block in the markup of a component looks at what the key of its rows looks at, but for the names of the row, in its component
/// tags too.
pub fn lists_see_keys()
    ensures { AreMarkupKeysSeen }
{}
