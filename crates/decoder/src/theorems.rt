// Theorems over the definitions, on the contracts of functions that compute nothing.
ghost use Rattle.decoder.specs.Theorems.{ListingStands, StartStands, ChoiceStands, AnswerStands, DifferencesSmall};
ghost use Rattle.decoder.specs.Worked.{WorkedRows};

// For costs of any type: the enumeration and the definitions agree, and the definitions settle every answer.
pub fn definitions_stand<C>()
    ensures listing { ListingStands C }
    ensures start { StartStands C }
    ensures choice { ChoiceStands C }
    ensures answer { AnswerStands C }
    ensures differences { DifferencesSmall C }
{}

// The worked rows come out as they are written.
pub fn worked_rows_stand()
    ensures { WorkedRows }
{}
