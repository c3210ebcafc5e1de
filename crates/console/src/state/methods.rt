// The console's calls.
ghost use Rattle.std.specs.Prelude.{◌≡◌, [], ◌∷◌, take};
ghost use Rattle.controller.specs.Logbook.{first_day};
ghost use Rattle.controller.specs.View.{book_of};
ghost use Rattle.console.specs.Turns.{AnswersLine};

use super::Console;
use crate::printing::{ROOM, put_answer};
use controller::state::Controller;
use fault::{Fault, Rule};
use file::stored::MOST_BYTES;
use legs::squared::Squared;
use legs::stepped::Stepped;

// The front of a table file.
fn front(file: &[u8]) -> &[u8]
    ensures { result.now ≡ take 4096 file.now }
{
    if file.len() > MOST_BYTES {
        &file[0..MOST_BYTES]
    } else {
        file
    }
}

impl<'a> Console<'a> {
    // A console on its first day, with a table file that is not loaded yet.
    pub fn new(file: &'a [u8]) -> Console<'a>
        ensures file { result.file.now ≡ take 4096 file.now }
        ensures book { book_of result.controller ≡ first_day (1 ∷ (1 ∷ (1 ∷ []))) }
    {
        let leg = Stepped::npc();
        Console {
            file: front(file),
            controller: Controller::new(1, Squared, leg, leg, leg),
        }
    }

    // Answers a line: the answer is written to the front of `out`, and its length is given.
    pub fn answer(&mut self, line: &[u8], out: &mut [u8]) -> Result<usize, Fault>
        ensures answers { AnswersLine self.old.file.now line.now (book_of self.old.controller) out.old result out.new (book_of self.new.controller) }
        ensures file { self.new.file ≡ self.old.file }
    {
        if out.len() < ROOM {
            return Err(Rule::AnswerBuffer.into());
        }
        let answer = self.respond(line);
        Ok(put_answer(out, &answer))
    }
}
