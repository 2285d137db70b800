ghost use Rattle.gsub.specs.Examples.{Examples, FurtherExamples};

// What the definitions make of a small table: no fault, and these candidates.
pub fn meaning_examples()
    ensures { Examples }
{}

// The same of another table, for the forms and clauses that the first one leaves open.
pub fn further_meaning_examples()
    ensures { FurtherExamples }
{}
