ghost use Rattle.layout.specs.Examples.{Examples};

// What the definitions make of small coverages and class definitions.
pub fn reading_examples()
    ensures { Examples }
{}
