use crate::content::bytes;
use crate::failure::Failure;
use crate::files::Files;
use crate::hand::{empty_hand, put_away};
use crate::performed::{Performed, Room};
use asking::asked::ShapeOptions;
use asking::usage::UsageError;
use font::source::FontSource;
use font::table::Table;
use gsub::table::Gsub;
use model::{Entry, Glyph};
use paragraph::calls::{Answer, Call, Given, Memory};
use paragraph::perform::perform;
use parsing::list::plan_of;
use shaping::shape::Inputs;
use std::alloc::{AllocError, Global};

// What a text is shaped with besides the font, as it was read.
#[derive(Drop)]
pub struct Setup {
    plan: Table<Entry, 65>,
    // The bytes of the table.
    table: Vec<u8>,
    limit: u32,
    room: u32,
}

fn plan(heap: Global, word: &str) -> Result<Table<Entry, 65>, Failure> {
    match plan_of(word) {
        Some(plan) => Ok(plan),
        None => Err(Failure::usage(heap, UsageError::BadPlan(word))),
    }
}

impl Setup {
    pub fn read<F: Files>(files: &F, asked: ShapeOptions) -> Result<Setup, Failure> {
        Ok(Setup {
            plan: plan(files.heap(), asked.plan)?,
            table: bytes(files, asked.gsub)?,
            limit: asked.limit,
            room: asked.room,
        })
    }

    pub fn inputs<'a, S: FontSource>(
        &'a self,
        heap: Global,
        source: &'a S,
    ) -> Result<Inputs<'a, S>, Failure> {
        Ok(Inputs {
            source,
            table: Gsub::checked(heap, self.table.as_slice())?,
            plan: self.plan.items(),
            limit: self.limit,
        })
    }

    // Room for a text of so many characters. Any room above 65,535 is refused alike, so no more is taken for it.
    pub fn memory(&self, heap: Global, characters: usize) -> Result<Memory, Failure> {
        let blank = Glyph {
            glyph: 0,
            cluster: 0,
        };
        Ok(Memory {
            run: vec![in heap; blank; self.room.min(65_536) as usize]?,
            marks: vec![in heap; 0; characters]?,
        })
    }

    // What a paragraph of a text answers to a list of calls. Pay has as much memory as the paragraph. Where more was given than there was room to copy, all is done once more, with room for just that: the answers are the same.
    pub fn perform<S: FontSource>(
        &self,
        heap: Global,
        source: &S,
        text: &[u32],
        calls: &[Call<()>],
    ) -> Result<Performed, Failure> {
        let inputs = self.inputs(heap, source)?;
        let calls = with_inputs(heap, calls, &inputs, text)?;
        let guess = Room {
            glyphs: text.len().saturating_mul(2),
            marks: text.len().saturating_mul(2),
        };
        let performed = self.perform_within(heap, text.len(), calls.as_slice(), guess)?;
        let wanted = Room::wanted(performed.answers.as_slice());
        if wanted.is_within(guess) {
            return Ok(performed);
        }
        self.perform_within(heap, text.len(), calls.as_slice(), wanted)
    }

    fn perform_within<S: FontSource>(
        &self,
        heap: Global,
        characters: usize,
        calls: &[Call<Given<'_, S>>],
        room: Room,
    ) -> Result<Performed, Failure> {
        let mut answers = vec![in heap; Answer::Unknown; calls.len()]?;
        let mut memory = self.memory(heap, characters)?;
        let mut own = self.memory(heap, characters)?;
        let mut copies = room.memory(heap)?;
        let mut hand = empty_hand(heap, line_count(calls))?;
        let waived = perform(
            1,
            calls,
            answers.as_mut_slice(),
            hand.as_mut_slice(),
            &mut memory,
            &mut own,
            &mut copies,
        );
        put_away(hand);
        Ok(Performed {
            answers,
            copies,
            waived,
        })
    }
}

// How many slips a list of calls may ask for.
fn line_count<S: FontSource>(calls: &[Call<Given<'_, S>>]) -> usize {
    calls
        .iter()
        .filter(|call| matches!(call, Call::Line { a: _, b: _ }))
        .count()
}

// The calls, with what shape is asked with.
fn with_inputs<'a, S: FontSource>(
    heap: Global,
    calls: &[Call<()>],
    inputs: &Inputs<'a, S>,
    text: &'a [u32],
) -> Result<Vec<Call<Given<'a, S>>>, AllocError> {
    let mut asked = Vec::new(heap);
    for call in calls {
        asked.push(match *call {
            Call::Shape(()) => Call::Shape(Given {
                inputs: Inputs {
                    source: inputs.source,
                    table: inputs.table,
                    plan: inputs.plan,
                    limit: inputs.limit,
                },
                text,
            }),
            Call::Line { a, b } => Call::Line { a, b },
            Call::Pay { slip } => Call::Pay { slip },
            Call::Waive { slip } => Call::Waive { slip },
            Call::Clear => Call::Clear,
        })?;
    }
    Ok(asked)
}
