ghost use Rattle.std.specs.Prelude.{◌≡◌, map, IfOk, IfErr, OnOk, IsUtf8, encode_utf8_all};
ghost use Rattle.std.specs.List.{AllByRecursion};
ghost use Rattle.std.specs.Str.Lines.{lines};
ghost use Rattle.std.specs.Str.Parse.{digits_value};
ghost use Rattle.parsing.specs.Errors.{not_utf8};
ghost use Rattle.parsing.specs.Faults.{NotRead};
ghost use Rattle.parsing.specs.Number.{IsNumber};
ghost use Rattle.parsing.specs.Text.{text_in};

use crate::error::ReadError;
use crate::number::number_of;
use std::alloc::Global;

// A file's bytes as a text that people edit: UTF-8, without the line feed that ends its last line.
pub fn text_of(bytes: &[u8]) -> Result<&str, ReadError>
    ensures utf8 { OnOk result (IsUtf8 bytes.now) }
    ensures text { IfOk result (λ text. text.now ≡ text_in bytes.now) }
    ensures not_read { IfErr result (λ error. (error ≡ not_utf8) × ¬ (IsUtf8 bytes.now)) }
{
    match std::str::from_utf8(bytes) {
        Ok(text) => Ok(text.strip_suffix('\n').unwrap_or(text)),
        Err(_) => Err(ReadError::NotUtf8),
    }
}

// The characters of a text.
pub fn characters(heap: Global, bytes: &[u8]) -> Result<Vec<u32>, ReadError>
    ensures utf8 { OnOk result (IsUtf8 bytes.now) }
    ensures characters { IfOk result (λ all. encode_utf8_all all.items ≡ text_in bytes.now) }
    ensures not_read { IfErr result (λ error. NotRead (λ line. Unit) bytes.now error) }
{
    let text = text_of(bytes)?;
    if text.is_empty() {
        return Ok(Vec::new(heap));
    }
    Ok(text.chars().map(u32::from).collect(heap)?)
}

// Character numbers, one a line. What is wrong with a line is told before want of memory.
pub fn numbers(heap: Global, bytes: &[u8]) -> Result<Vec<u32>, ReadError>
    ensures utf8 { OnOk result (IsUtf8 bytes.now) }
    ensures numbers { OnOk result (AllByRecursion IsNumber (lines (text_in bytes.now))) }
    ensures values { IfOk result (λ all. all.items ≡ map (digits_value 10) (lines (text_in bytes.now))) }
    ensures not_read { IfErr result (λ error. NotRead IsNumber bytes.now error) }
{
    let text = text_of(bytes)?;
    let mut all = Vec::new(heap);
    let mut full = false;
    for (index, line) in text.lines().enumerate() {
        let Some(character) = number_of(line) else {
            return Err(ReadError::Line(index + 1));
        };
        // Where memory is wanting, the lines that are left may still be bad.
        full = full || all.push(character).is_err();
    }
    if full {
        return Err(ReadError::Memory);
    }
    Ok(all)
}
