// What holds of elements and of printed numbers, on functions that give nothing.
ghost use Rattle.sv_document.specs.Laws.{IsValuePrinted, IsCheckPrinted, StaysFair, IsNumberKept, IsNumberNew};

/// What an element shows is what is printed of it, with what was typed laid over.
pub fn shown_as_printed()
    ensures value { IsValuePrinted }
    ensures check { IsCheckPrinted }
{}

/// A mark that stays keeps its printed number, one without a number gets one that none had, and no two marks have the same.
pub fn one_number()
    ensures fair { StaysFair }
    ensures kept { IsNumberKept }
    ensures new { IsNumberNew }
{}
