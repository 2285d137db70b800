ghost use Rattle.std.specs.Prelude.{◌≡◌, ◌≢◌, ℕ, List, [], ◌∷◌, None, codes, IfOk, IfErr, IfSome, MatchOption, OnOk, IsUtf8};
ghost use Rattle.std.specs.List.{AllByRecursion, AllZip};
ghost use Rattle.std.specs.Str.Lines.{lines};
ghost use Rattle.parsing.specs.Faults.{IsFirstBad, NotRead};
ghost use Rattle.parsing.specs.Script.{IsCall, Says, ScriptCall, Writes, words_in};
ghost use Rattle.parsing.specs.Text.{text_in};

use crate::error::ReadError;
use crate::number::number_of;
use crate::text::text_of;
use paragraph::calls::Call;
use std::alloc::Global;

// The call of a name that stands alone.
fn bare_call(name: &str) -> Option<Call<()>>
    ensures says { IfSome result (λ call. Says (name.now ∷ []) call) }
    ensures none { result ≡ None → (name.now ≢ codes "shape") × (name.now ≢ codes "clear") }
{
    match name {
        "shape" => Some(Call::Shape(())),
        "clear" => Some(Call::Clear),
        _ => None,
    }
}

// The call of a name with a slip's number.
fn slip_call(name: &str, slip: usize) -> Option<Call<()>>
    ensures says { IfSome result (λ call. (word : List ℕ) → Writes word slip → Says (name.now ∷ word ∷ []) call) }
    ensures none { result ≡ None → (name.now ≢ codes "pay") × (name.now ≢ codes "waive") }
{
    match name {
        "pay" => Some(Call::Pay { slip }),
        "waive" => Some(Call::Waive { slip }),
        _ => None,
    }
}

// The call of a name with two places.
fn line_call(name: &str, a: u32, b: u32) -> Option<Call<()>>
    ensures says { IfSome result (λ call. (from to : List ℕ) → Writes from a → Writes to b → Says (name.now ∷ from ∷ to ∷ []) call) }
    ensures none { result ≡ None → name.now ≢ codes "line" }
{
    match name {
        "line" => Some(Call::Line { a, b }),
        _ => None,
    }
}

// The call that a line writes.
pub fn call_of(line: &str) -> Option<Call<()>>
    ensures says { IfSome result (λ call. Says (words_in line.now) call) }
    ensures none { result ≡ None → (call : ScriptCall) → ¬ (Says (words_in line.now) call) }
{
    let Some((name, rest)) = line.split_once(' ') else {
        return bare_call(line);
    };
    let Some((from, to)) = rest.split_once(' ') else {
        return slip_call(name, number_of(rest)? as usize);
    };
    // A fourth word would stand in the third, which is then no number.
    line_call(name, number_of(from)?, number_of(to)?)
}

// The first line that is not a call.
fn first_bad_call(text: &str) -> Option<usize>
    ensures { MatchOption result (AllByRecursion IsCall (lines text.now)) (λ n. IsFirstBad IsCall (lines text.now) n) }
{
    for (index, line) in text.lines().enumerate() {
        if call_of(line).is_none() {
            return Some(index + 1);
        }
    }
    None
}

// Calls, one a line. All lines are seen before there is memory for any.
pub fn script(heap: Global, bytes: &[u8]) -> Result<Vec<Call<()>>, ReadError>
    ensures utf8 { OnOk result (IsUtf8 bytes.now) }
    ensures calls { IfOk result (λ calls. AllZip (λ line call. Says (words_in line) call) (lines (text_in bytes.now)) calls.items) }
    ensures not_read { IfErr result (λ error. NotRead IsCall bytes.now error) }
{
    let text = text_of(bytes)?;
    if let Some(line) = first_bad_call(text) {
        return Err(ReadError::Line(line));
    }
    let mut calls = Vec::new(heap);
    for line in text.lines() {
        if let Some(call) = call_of(line) {
            calls.push(call)?;
        }
    }
    Ok(calls)
}
