ghost use Rattle.std.specs.Prelude.{◌≡◌, length, map, slice_set, None, IfSome};
ghost use Rattle.std.specs.List.{AllByRecursion};
ghost use Rattle.std.specs.Option.{SomeIff};
ghost use Rattle.std.specs.Str.Parse.{digits_value};
ghost use Rattle.parsing.specs.Number.{IsNumber};
ghost use Rattle.parsing.specs.Items.{IsEntry, entry_in, items_in, plan_in, put_into};

use crate::number::{number_of, short_of};
use font::table::Table;
use model::Entry;

// An item of a plan: a lookup number, and behind an equals sign the alternate value, which is 1 where there is none.
pub fn entry_of(item: &str) -> Option<Entry>
    ensures { SomeIff result (IsEntry item.now) (entry_in item.now) }
{
    let Some((lookup, alternate)) = item.split_once('=') else {
        return Some(Entry {
            lookup: short_of(item)?,
            alternate: 1,
        });
    };
    Some(Entry {
        lookup: short_of(lookup)?,
        alternate: short_of(alternate)?,
    })
}

// The plan that a word writes, up to its 65th entry: shaping refuses a plan of more than 64.
pub fn plan_of(word: &str) -> Option<Table<Entry, 65>>
    ensures { SomeIff result (AllByRecursion IsEntry (items_in word.now)) (plan_in word.now) }
{
    let mut plan = Table::new();
    if word.is_empty() {
        return Some(plan);
    }
    for item in word.split(',') {
        // A full table stays as it is.
        let _ = plan.push(entry_of(item)?);
    }
    Some(plan)
}

// How many numbers a word writes.
fn count_numbers(word: &str) -> Option<usize>
    ensures { SomeIff result (AllByRecursion IsNumber (items_in word.now)) (length (items_in word.now)) }
{
    if word.is_empty() {
        return Some(0);
    }
    for item in word.split(',') {
        number_of(item)?;
    }
    Some(word.split(',').count())
}

// Puts a number into its place, if there is that place.
fn put(places: &mut [u32], index: usize, number: u32)
    ensures { places.new ≡ slice_set places.old index number }
{
    if index < places.len() {
        places[index] = number;
    }
}

// How many numbers a word writes. They are put into places, as many as there is room for.
pub fn numbers_of(word: &str, places: &mut [u32]) -> Option<usize>
    ensures count { SomeIff result (AllByRecursion IsNumber (items_in word.now)) (length (items_in word.now)) }
    ensures refused { result ≡ None → places.new ≡ places.old }
    ensures places { IfSome result (λ n. places.new ≡ put_into places.old (map (digits_value 10) (items_in word.now))) }
{
    let count = count_numbers(word)?;
    if word.is_empty() {
        return Some(0);
    }
    for (index, item) in word.split(',').enumerate() {
        if let Some(number) = number_of(item) {
            put(places, index, number);
        }
    }
    Some(count)
}
