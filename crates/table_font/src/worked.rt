ghost use Rattle.table_font.specs.Examples.{Examples};

// What the definitions make of small tables.
pub fn font_examples()
    ensures { Examples }
{}
