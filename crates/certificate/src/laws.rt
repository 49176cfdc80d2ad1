// That lists and sheets are right, each as the contract of a function, so that the check asks for its proof.
ghost use Rattle.certificate.specs.Laws.{ListsRight, SheetsRight};

// In a sound frame, a set with a list that keeps its rules is free.
pub fn lists_are_right()
    ensures { ListsRight }
{}

// A sheet that keeps its rules for a set bounds every free part of the set.
pub fn sheets_are_right()
    ensures { SheetsRight }
{}
