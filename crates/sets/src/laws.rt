// The laws of counts, as the contract of a function, so that the check asks for their proof.
ghost use Rattle.sets.specs.Laws.{Counting};

pub fn counts_obey()
    ensures { Counting }
{}
