//! Playing a list of calls on a new sheet.
ghost use Rattle.std.specs.Prelude.{◌≡◌, ◌≤◌, length, vec_items};
ghost use Rattle.sheet.specs.Sheets.{told_of, bounds_of};
ghost use Rattle.play.specs.Plays.{asks_for, Serves, Played};

use super::answer::{Answer, Stopped};
use super::serving::{asks_for, serve};
use domain::Halves;
use engine::Propagator;
use history::{Call, Entered};
use sheet::Sheet;
use std::alloc::{AllocError, Global};

// Serves a call in the part of the memory that it asks for.
fn serve_in<C: Halves, B: Drop, R: Propagator<C, B>, E: Entered<C, B>>(
    heap: Global,
    sheet: &mut Sheet<C, B, R>,
    call: Call<E, R>,
    memory: &mut [C],
) -> Result<Answer<C>, AllocError>
    requires { asks_for call ≤ length memory.old }
    ensures { Serves C.Domain C.Halves.own R.Propagator E.Entered (told_of sheet.old) (bounds_of sheet.old) call result (told_of sheet.new) (bounds_of sheet.new) }
{
    let asked = asks_for(call);
    serve(heap, sheet, call, &mut memory[..asked])
}

/// Makes the calls, one after another, to a new sheet, and gives their answers. Each call is lent as much of the memory as it asks for.
pub fn play<C: Halves, B: Drop, R: Propagator<C, B>, E: Entered<C, B>>(
    heap: Global,
    book: B,
    calls: &[Call<E, R>],
    memory: &mut [C],
) -> Result<Vec<Answer<C>>, Stopped>
    ensures { Played C.Domain C.Halves.own R.Propagator E.Entered vec_items book calls.now (length memory.old) result }
{
    let mut sheet = Sheet::new(heap, book)?;
    let mut answers = Vec::new(heap);
    for (i, call) in calls.iter().enumerate() {
        if memory.len() < asks_for(*call) {
            return Err(Stopped::Short(i));
        }
        let answer = serve_in(heap, &mut sheet, *call, memory)?;
        answers.push(answer)?;
    }
    Ok(answers)
}
