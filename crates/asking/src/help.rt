pub const HELP: &str = "mitqorad: lines of shaped text whose breaks are proved safe

usage: mitqorad glyphs FONT [--codes] TEXT
       mitqorad check --gsub FILE [--gdef FILE]
       mitqorad shape FONT --gsub FILE --plan LOOKUPS [--limit N] [--room N] [--codes] TEXT
       mitqorad lines .. as shape .. [--breaks PLACES] TEXT
       mitqorad calls .. as shape .. TEXT SCRIPT
       mitqorad --help | --version
FONT:  --label FILE [--stand-in FILE]
       --cmap FILE --hmtx FILE --metrics N [--gdef FILE] [--stand-in FILE]

glyphs   prints the glyph of each character of TEXT, and the width of them all
check    says whether a GSUB table, and then a GDEF table, is accepted, or its first fault
shape    prints the glyphs of TEXT as GLYPH:CLUSTER, its break marks, hits and width
lines    prints the lines of TEXT, shaped once: each kept as it is there, or paid for by
         shaping it alone, where the text may not be broken at its ends
calls    prints what a paragraph of TEXT answers to the lines of SCRIPT: shape, line A B,
         pay K, waive K, clear

  --label FILE      the font: lines of character, glyph, class, mark class and advance,
                    decimal and parted by tabs
  --cmap FILE       the font, in place of --label: its cmap subtable of format 12,
  --hmtx FILE       its hmtx table,
  --metrics N       how many metrics hmtx has, from 0 to 65535,
  --gdef FILE       and its GDEF table; without it no glyph has a class
  --stand-in FILE   pairs of characters, decimal and parted by a tab: where the font has
                    no glyph for the first, the second's is taken
  --gsub FILE       the GSUB table that TEXT is shaped with
  --plan LOOKUPS    its lookups to run, rising and parted by commas, as 0,3=2: each alone or
                    with an alternate value, which else is 1; an empty word is an empty plan
  --limit N         how many matches there may be, 1000000 at most and if not given
  --room N          how many glyphs there may be, 65535 at most and if not given
  --breaks PLACES   where lines end, characters from the text's start, as 4,9
  --codes           TEXT is character numbers, decimal, one a line, and not UTF-8

FILE, TEXT and SCRIPT are paths, or - for standard input. A refusal goes to standard error
with its number, and the exit status is then 1.
A fault of a table is told in the same way.
";
