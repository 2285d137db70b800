ghost use Rattle.std.specs.Prelude.{◌≡◌, ◌≤◌, ℕ, if◌then◌else◌, List, ◌++◌, Option, drop, take};
ghost use Rattle.paragraph.specs.declared.calls.Call.TheVariants.{Shape, Line as LineOf, Pay, Waive, Clear};
ghost use Rattle.paragraph.specs.Calls.{Inputs as AllInputs, Memory as AnyMemory};
ghost use Rattle.paragraph.specs.Hand.{slips_in};
ghost use Rattle.paragraph.specs.Law.{CuttingLaw};
ghost use Rattle.paragraph.specs.Performs.{Desk, Subject, Takes, desk, first_of, given_by, is_waived, joined, nothing, shaped_from, still_blank};
ghost use Rattle.paragraph.specs.SaidBy.{Performed, all_asked, asked, desktop, inputs_given, lent, said_by};
ghost use Rattle.paragraph.specs.Whole.{AllWaived, AreWritten, IsWritten, subject_in};

use crate::blank::Blank as BlankParagraph;
use crate::calls::{Answer, Call, Given, Memory};
use crate::hand::{places_used, put_slip, take_slip};
use crate::line::Line;
use crate::shaped::Shaped as ShapedParagraph;
use crate::slip::Slip;
use font::source::FontSource;

// A paragraph, blank, or shaped with what it was asked with.
enum Whole<'a, S: FontSource> {
    Blank(BlankParagraph),
    Shaped(ShapedParagraph, &'a Given<'a, S>),
}

fn shape_call<'a, S: FontSource>(
    blank: BlankParagraph,
    given: &'a Given<'a, S>,
    memory: &mut Memory,
) -> (Answer, Whole<'a, S>)
    ensures { (advances : S → ℕ → ℕ) (hand : List (Option Slip)) (used : ℕ) (own : AnyMemory)
        → Takes (Shape (inputs_given S.FontSource.means advances given.now)) (said_by result.0)
        (desk (still_blank blank.number) hand used (lent memory.old) own)
        (desk (subject_in S.FontSource.means advances result.1) hand used (lent memory.new) own) }
{
    let Given { inputs, text } = given;
    match blank.shape(
        inputs,
        text,
        memory.run.as_mut_slice(),
        memory.marks.as_mut_slice(),
    ) {
        Ok(shaped) => {
            let answer = Answer::Shaped {
                glyphs: shaped.count,
                marks: shaped.length,
                hits: shaped.hits,
            };
            (answer, Whole::Shaped(shaped, given))
        }
        Err((blank, refusal)) => (Answer::Refused(refusal), Whole::Blank(blank)),
    }
}

fn line_call(
    shaped: &mut ShapedParagraph,
    hand: &mut [Option<Slip>],
    used: &mut usize,
    a: u32,
    b: u32,
    memory: &Memory,
) -> Answer
    requires empty { slips_in (drop used.old hand.old) ≡ 0 }
    ensures { (x : AllInputs) (own : AnyMemory)
        → Takes (LineOf a b) (said_by result)
        (desk (shaped_from x shaped.old) hand.old used.old (lent memory.now) own)
        (desk (shaped_from x shaped.new) hand.new used.new (lent memory.now) own) }
{
    if *used >= hand.len() {
        return Answer::NoPlace;
    }
    match shaped.line(a, b, memory.run.as_slice(), memory.marks.as_slice()) {
        Ok(Line::Kept { first, count }) => Answer::Kept { first, count },
        Ok(Line::Owed(slip)) => {
            put_slip(hand, *used, slip);
            *used += 1;
            Answer::Owed { slip: *used }
        }
        Err(refusal) => Answer::Refused(refusal),
    }
}

fn pay_call<S: FontSource>(
    shaped: &mut ShapedParagraph,
    given: &Given<'_, S>,
    hand: &mut [Option<Slip>],
    slip: usize,
    own: &mut Memory,
) -> Answer
    ensures { (advances : S → ℕ → ℕ) (used : ℕ) (memory : AnyMemory)
        → let x = inputs_given S.FontSource.means advances given.now in
        Takes (Pay slip) (said_by result)
        (desk (shaped_from x shaped.old) hand.old used memory (lent own.old))
        (desk (shaped_from x shaped.new) hand.new used memory (lent own.new)) }
{
    let Some(found) = take_slip(hand, slip) else {
        return Answer::NotInHand;
    };
    let marks = found.last.saturating_sub(found.first) as usize;
    let Given { inputs, text } = given;
    match found.pay(
        shaped,
        inputs,
        text,
        own.run.as_mut_slice(),
        own.marks.as_mut_slice(),
    ) {
        Ok(laid) => Answer::Paid {
            glyphs: laid.glyphs,
            marks,
            hits: laid.hits,
        },
        Err((found, refusal)) => {
            put_slip(hand, slip - 1, found);
            Answer::Refused(refusal)
        }
    }
}

fn waive_call(shaped: &mut ShapedParagraph, hand: &mut [Option<Slip>], slip: usize) -> Answer
    ensures gives_nothing { (e : Desk) → given_by (said_by result) e ≡ nothing }
    ensures takes { (x : AllInputs) (used : ℕ) (memory own : AnyMemory)
        → Takes (Waive slip) (said_by result)
        (desk (shaped_from x shaped.old) hand.old used memory own)
        (desk (shaped_from x shaped.new) hand.new used memory own) }
{
    let Some(found) = take_slip(hand, slip) else {
        return Answer::NotInHand;
    };
    match found.waive(shaped) {
        Ok(()) => Answer::Waived,
        Err((found, refusal)) => {
            put_slip(hand, slip - 1, found);
            Answer::Refused(refusal)
        }
    }
}

fn clear_call<'a, S: FontSource>(
    shaped: ShapedParagraph,
    given: &'a Given<'a, S>,
) -> (Answer, Whole<'a, S>)
    ensures { (advances : S → ℕ → ℕ) (hand : List (Option Slip)) (used : ℕ) (memory own : AnyMemory)
        → let x = inputs_given S.FontSource.means advances given.now in
        Takes Clear (said_by result.0)
        (desk (shaped_from x shaped) hand used memory own)
        (desk (subject_in S.FontSource.means advances result.1) hand used memory own) }
{
    match shaped.clear() {
        Ok(blank) => (Answer::Cleared, Whole::Blank(blank)),
        Err((shaped, refusal)) => (Answer::Refused(refusal), Whole::Shaped(shaped, given)),
    }
}

fn blank_call<'a, S: FontSource>(
    blank: BlankParagraph,
    call: &'a Call<Given<'a, S>>,
    memory: &mut Memory,
) -> (Answer, Whole<'a, S>)
    ensures { (advances : S → ℕ → ℕ) (hand : List (Option Slip)) (used : ℕ) (own : AnyMemory)
        → Takes (asked S.FontSource.means advances call.now) (said_by result.0)
        (desk (still_blank blank.number) hand used (lent memory.old) own)
        (desk (subject_in S.FontSource.means advances result.1) hand used (lent memory.new) own) }
{
    match call {
        Call::Shape(given) => shape_call(blank, given, memory),
        Call::Line { a: _, b: _ } => (Answer::Unknown, Whole::Blank(blank)),
        Call::Pay { slip: _ } => (Answer::Unknown, Whole::Blank(blank)),
        Call::Waive { slip: _ } => (Answer::Unknown, Whole::Blank(blank)),
        Call::Clear => (Answer::Unknown, Whole::Blank(blank)),
    }
}

fn shaped_call<'a, S: FontSource>(
    mut shaped: ShapedParagraph,
    given: &'a Given<'a, S>,
    call: &'a Call<Given<'a, S>>,
    hand: &mut [Option<Slip>],
    used: &mut usize,
    memory: &Memory,
    own: &mut Memory,
) -> (Answer, Whole<'a, S>)
    requires empty { slips_in (drop used.old hand.old) ≡ 0 }
    ensures { (advances : S → ℕ → ℕ)
        → let x = inputs_given S.FontSource.means advances given.now in
        Takes (asked S.FontSource.means advances call.now) (said_by result.0)
        (desk (shaped_from x shaped) hand.old used.old (lent memory.now) (lent own.old))
        (desk (subject_in S.FontSource.means advances result.1)
        hand.new used.new (lent memory.now) (lent own.new)) }
{
    match call {
        Call::Shape(_) => (Answer::Unknown, Whole::Shaped(shaped, given)),
        Call::Line { a, b } => {
            let answer = line_call(&mut shaped, hand, used, *a, *b, memory);
            (answer, Whole::Shaped(shaped, given))
        }
        Call::Pay { slip } => {
            let answer = pay_call(&mut shaped, given, hand, *slip, own);
            (answer, Whole::Shaped(shaped, given))
        }
        Call::Waive { slip } => {
            let answer = waive_call(&mut shaped, hand, *slip);
            (answer, Whole::Shaped(shaped, given))
        }
        Call::Clear => clear_call(shaped, given),
    }
}

// One call of a list.
fn make<'a, S: FontSource>(
    whole: Whole<'a, S>,
    call: &'a Call<Given<'a, S>>,
    hand: &mut [Option<Slip>],
    used: &mut usize,
    memory: &mut Memory,
    own: &mut Memory,
) -> (Answer, Whole<'a, S>)
    requires empty { slips_in (drop used.old hand.old) ≡ 0 }
    ensures { (advances : S → ℕ → ℕ)
        → Takes (asked S.FontSource.means advances call.now) (said_by result.0)
        (desk (subject_in S.FontSource.means advances whole.entry)
        hand.old used.old (lent memory.old) (lent own.old))
        (desk (subject_in S.FontSource.means advances result.1)
        hand.new used.new (lent memory.new) (lent own.new)) }
{
    match whole {
        Whole::Blank(blank) => blank_call(blank, call, memory),
        Whole::Shaped(shaped, given) => shaped_call(shaped, given, call, hand, used, memory, own),
    }
}

// Copies so many elements, as far as there is room, behind those that are there. Answers how many
// there are then.
fn copy_behind<T: Copy>(to: &mut [T], there: usize, from: &[T], count: usize) -> usize
    ensures { (list old : List T) → IsWritten there list old to.old
        → IsWritten result (list ++ take count from.now) old to.new }
{
    let start = there.min(to.len());
    let count = count.min(from.len()).min(to.len() - start);
    to[start..start + count].copy_from_slice(&from[..count]);
    start + count
}

// How many glyphs and marks are copied.
#[derive(Drop)]
struct Copied {
    glyphs: usize,
    marks: usize,
}

impl Copied {
    fn add(&mut self, copies: &mut Memory, from: &Memory, glyphs: usize, marks: usize)
        ensures { (gave old : AnyMemory) → AreWritten self.old gave old (lent copies.old)
            → let new = joined gave (first_of (lent from.now) glyphs marks) in
            AreWritten self.new new old (lent copies.new) }
    {
        let run = copies.run.as_mut_slice();
        self.glyphs = copy_behind(run, self.glyphs, from.run.as_slice(), glyphs);
        let bytes = copies.marks.as_mut_slice();
        self.marks = copy_behind(bytes, self.marks, from.marks.as_slice(), marks);
    }

    // What a call gave: an accepted shape in the paragraph's memory, a pay in its own.
    fn add_given(&mut self, copies: &mut Memory, answer: Answer, memory: &Memory, own: &Memory)
        ensures { (gave old : AnyMemory) (s : Subject) (hand : List (Option Slip)) (used : ℕ)
            → AreWritten self.old gave old (lent copies.old)
            → let e = desk s hand used (lent memory.now) (lent own.now) in
            AreWritten self.new (joined gave (given_by (said_by answer) e)) old (lent copies.new) }
    {
        match answer {
            Answer::Shaped {
                glyphs,
                marks,
                hits: _,
            } => self.add(copies, memory, glyphs, marks),
            Answer::Paid {
                glyphs,
                marks,
                hits: _,
            } => self.add(copies, own, glyphs, marks),
            _ => (),
        }
    }
}

// How many slips an answer says were waived.
fn slips_waived(answer: Answer) -> usize
    ensures count { result ≡ (if is_waived (said_by answer) then 1 else 0) }
    ensures one { result ≤ 1 }
{
    match answer {
        Answer::Waived => 1,
        _ => 0,
    }
}

fn waive_owed(shaped: &mut ShapedParagraph, hand: &mut [Option<Slip>], used: usize) -> usize
    ensures { (x : AllInputs) (memory own : AnyMemory)
        → AllWaived (desk (shaped_from x shaped.old) hand.old used memory own) hand.new result }
{
    let mut waived = 0;
    for at in 0..used {
        waived += slips_waived(waive_call(shaped, hand, at + 1));
    }
    waived
}

// Waives the slip of each place in use. Answers how many were waived.
fn waive_all<S: FontSource>(whole: Whole<'_, S>, hand: &mut [Option<Slip>], used: usize) -> usize
    ensures { (advances : S → ℕ → ℕ) (memory own : AnyMemory)
        → let s = subject_in S.FontSource.means advances whole.entry in
        AllWaived (desk s hand.old used memory own) hand.new result }
{
    match whole {
        Whole::Blank(_) => 0,
        Whole::Shaped(mut shaped, _) => waive_owed(&mut shaped, hand, used),
    }
}

// Performs a list of calls on a paragraph from its making, as many as there are places for answers.
// Pay has memory of its own; each call but shape gets what the accepted shape was asked with. The
// hand may hold slips that are not this paragraph's: they stay. Slips that lines give go behind
// them, and those that are owed at the end are waived: answers how many. What accepted shapes and
// pays gave is copied, one behind the other, as far as there is room.
pub fn perform<S: FontSource>(
    number: u32,
    calls: &[Call<Given<'_, S>>],
    answers: &mut [Answer],
    hand: &mut [Option<Slip>],
    memory: &mut Memory,
    own: &mut Memory,
    copies: &mut Memory,
) -> usize
    ensures performed { (advances : S → ℕ → ℕ)
        → Performed number (all_asked S.FontSource.means advances calls.now)
        (desktop answers.old hand.old memory.old own.old copies.old)
        (desktop answers.new hand.new memory.new own.new copies.new) result }
    ensures slips { slips_in hand.new ≡ slips_in hand.old }
    ensures law { CuttingLaw }
{
    let mut whole = Whole::Blank(BlankParagraph::new(number));
    let mut used = places_used(hand);
    let mut copied = Copied {
        glyphs: 0,
        marks: 0,
    };
    let made = calls.len().min(answers.len());
    for (at, call) in calls[..made].iter().enumerate() {
        let (answer, next) = make(whole, call, hand, &mut used, memory, own);
        whole = next;
        copied.add_given(copies, answer, memory, own);
        answers[at] = answer;
    }
    waive_all(whole, hand, used)
}
