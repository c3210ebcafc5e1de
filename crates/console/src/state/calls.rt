// What is asked for, done on the controller.
ghost use Rattle.std.specs.Prelude.{◌≡◌, ◌≤◌, true, length, take, drop};
ghost use Rattle.controller.specs.View.{Does, book_of, closes};
ghost use Rattle.controller.specs.declared.calls.Call.TheVariants.{Plan as PlanCall};
ghost use Rattle.controller.specs.declared.calls.Reply.TheVariants.{Granted};
ghost use Rattle.console.specs.Lines.{Asked, asked, line_refusal};
ghost use Rattle.console.specs.Ready.{Complete, Opened, Ready, reply_of};
ghost use Rattle.console.specs.Requests.{Means, asked_with};
ghost use Rattle.console.specs.Said.{Responds, answer_text, said};
ghost use Rattle.console.specs.Turns.{Performed, Turn, as_limit, lent};
ghost use Rattle.console.specs.Words.{words};

use super::{Console, Npc};
use crate::answer::Answer;
use crate::requests::{Request, requested};
use controller::calls::Reading;
use controller::order::{Closing, Order};
use fault::Fault;

// Spends the open order. While one is open, what the console's type says does not hold: so this function and the next take the
// controller alone.
fn spend(ctl: &mut Npc, order: Order, how: Closing)
    requires open { ctl.old.pending ≡ true }
    requires bears { order.identity ≡ ctl.old.identity }
    ensures { Does ctl.old (closes how order.identity) Granted ctl.new }
{
    ctl.close(how, order).unwrap();
}

// Plans from some numbers, the currents first, and reads the plan.
fn plan(ctl: &mut Npc, numbers: &[i32]) -> Result<(Order, Option<Reading<u64>>), Fault>
    requires ready { Ready ctl.old }
    requires some { 2 ≤ length numbers.now }
    ensures { Opened ctl.old (PlanCall (take 2 numbers.now) (lent (drop 2 numbers.now))) result ctl.new }
{
    let order = ctl.plan([numbers[0], numbers[1]], &numbers[2..])?;
    Ok((order, ctl.reading()))
}

// A number as a limit. What is below 0 is passed on as 0, for the controller to refuse.
fn limit_of(n: i32) -> u32
    ensures { result ≡ as_limit n }
{
    u32::try_from(n).unwrap_or(0)
}

impl Console<'_> {
    // Plans, and spends the order.
    fn plan_and_spend(
        &mut self,
        numbers: &[i32],
        how: Closing,
    ) -> Result<Option<Reading<u64>>, Fault>
        requires { 2 ≤ length numbers.now }
        ensures done { Performed self.old.file.now (asked_with how numbers.now) (book_of self.old.controller) (reply_of result) (book_of self.new.controller) }
        ensures file { self.new.file ≡ self.old.file }
    {
        let (order, plan) = plan(&mut self.controller, numbers)?;
        spend(&mut self.controller, order, how);
        Ok(plan)
    }

    // Does what is asked for, and gives the plan where one was made.
    fn perform(&mut self, request: Request) -> Result<Option<Reading<u64>>, Fault>
        requires { Complete request }
        ensures done { (a : Asked) → Means request a → Performed self.old.file.now a (book_of self.old.controller) (reply_of result) (book_of self.new.controller) }
        ensures file { self.new.file ≡ self.old.file }
    {
        match request {
            Request::Load => self.controller.load(self.file).map(|()| None),
            Request::Limit(n) => self.controller.limit(limit_of(n)).map(|()| None),
            Request::Bar(phase) => self.controller.bar(phase).map(|()| None),
            Request::Free(phase) => self.controller.free(phase).map(|()| None),
            Request::Plan(numbers, how) => self.plan_and_spend(&numbers, how),
        }
    }

    // Does what a line asks for.
    pub(super) fn respond(&mut self, line: &[u8]) -> Result<Answer, Fault>
        ensures responds { Responds (line_refusal line.now) (asked (words line.now)) self.old.file.now self.old.controller (said result) self.new.controller }
        ensures turn { Turn (line_refusal line.now) (asked (words line.now)) self.old.file.now (book_of self.old.controller) (answer_text result) (book_of self.new.controller) }
        ensures file { self.new.file ≡ self.old.file }
    {
        let Some(request) = requested(line)? else {
            return Ok(Answer::Nothing);
        };
        match self.perform(request)? {
            Some(plan) => Ok(Answer::Planned(plan)),
            None => Ok(Answer::Done),
        }
    }
}
