// What holds of the mistakes of a program.
ghost use Rattle.sv_check.specs.Checked.{IsOneMistake, IsMistakeOrClean};

/// A program is refused for one mistake alone.
pub fn one_mistake()
    ensures { IsOneMistake }
{}

/// A program that is clean isn't refused for a mistake.
pub fn mistake_or_clean()
    ensures { IsMistakeOrClean }
{}
