// The calls on a controller, and its readings.
ghost use Rattle.std.specs.Prelude.{◌≡◌, cond, [], ◌∷◌, take};
ghost use Rattle.std.specs.Option.{option_map};
ghost use Rattle.controller.specs.Book.{plan_entries};
ghost use Rattle.fault.specs.Refusals.{Answers};
ghost use Rattle.controller.specs.Logbook.{first_day, first_stage, open_refusal, order_refusal};
ghost use Rattle.controller.specs.View.{Bears, Does, HandsBack, Plans, Redeems, book_of, closes, entry_at, plan_reply, reading_of, reply, reply_back, settings_of, setup_of};
ghost use Rattle.controller.specs.declared.calls.Call.TheVariants.{Load, Limit, Bar, Free, Plan as PlanCall, Fire, Withdraw};

use super::{Controller, Settings};
use crate::calls::Reading;
use crate::order::{Closing, Denied, Order};
use crate::sequence::Plan;
use decoder::Mark;
use fault::{Fault, Rule};
use file::tables::read;
use legs::barred::Barred;
use legs::leg::Leg;
use legs::measure::Measure;
use legs::phases::Legs;

// The limit of the first day.
const FIRST_LIMIT: u32 = 130;

// The highest limit.
const HIGHEST_LIMIT: u32 = 100_000;

// What a plan applies when it is fired.
fn first_stage<K>(plan: &Option<Plan<K>>, applied: [u8; 3]) -> [u8; 3]
    ensures { result ≡ first_stage (option_map plan_entries plan.now) applied }
{
    plan.as_ref().map_or(
        applied,
        |p| -> [u8; 3]
            ensures { result ≡ take 3 (plan_entries p.now) }
        { p.sequence.first_stage() },
    )
}

impl<M: Measure, A: Leg, B: Leg, C: Leg> Controller<M, A, B, C> {
    // A controller on its first day: every leg rests, nothing is loaded, barred, planned or remembered.
    pub fn new(identity: u16, measure: M, a: A, b: B, c: C) -> Self
        ensures book { book_of result ≡ first_day ((A.Leg.model a).rest ∷ ((B.Leg.model b).rest ∷ ((C.Leg.model c).rest ∷ []))) }
        ensures identity { result.identity ≡ identity }
        ensures measure { result.measure ≡ measure }
        ensures legs { (result.legs.a.below ≡ a) × (result.legs.b.below ≡ b) × (result.legs.c.below ≡ c) }
    {
        let applied = [a.rest(), b.rest(), c.rest()];
        Controller {
            identity,
            measure,
            legs: Legs {
                a: Barred::new(a),
                b: Barred::new(b),
                c: Barred::new(c),
            },
            tables: None,
            limit: FIRST_LIMIT,
            applied,
            remembered: None,
            plan: None,
            pending: false,
        }
    }

    // Refuses a call while an order is open.
    fn check_idle(&self) -> Result<(), Fault>
        ensures { Answers (open_refusal self.now.pending) (λ _. Unit {0}) result }
    {
        if self.pending {
            return Err(Rule::NoOpenOrder.into());
        }
        Ok(())
    }

    // Takes the tables of a file. The last plan and the remembered sequence were made for other tables, and are forgotten.
    pub fn load(&mut self, file: &[u8]) -> Result<(), Fault>
        ensures { Does self.old (Load file.entry) (reply result) self.new }
    {
        self.check_idle()?;
        let tables = read(file)?;
        self.tables = Some(tables);
        self.remembered = None;
        self.plan = None;
        Ok(())
    }

    // Sets how many nodes a plan may visit.
    pub fn limit(&mut self, nodes: u32) -> Result<(), Fault>
        ensures { Does self.old (Limit nodes) (reply result) self.new }
    {
        self.check_idle()?;
        if !(1..=HIGHEST_LIMIT).contains(&nodes) {
            return Err(Rule::NodeLimit.into());
        }
        self.limit = nodes;
        Ok(())
    }

    // Sets the bar of a phase, or lifts it.
    fn put_bar(&mut self, phase: u8, bar: bool) -> Result<(), Fault>
        ensures { Does self.old (cond bar (Bar phase) (Free phase)) (reply result) self.new }
    {
        self.check_idle()?;
        if phase > 2 {
            return Err(Rule::PhaseNumber.into());
        }
        self.legs.set_bar(phase, bar);
        Ok(())
    }

    // Bars a phase, whether it is barred already or not.
    pub fn bar(&mut self, phase: u8) -> Result<(), Fault>
        ensures { Does self.old (Bar phase) (reply result) self.new }
    {
        self.put_bar(phase, true)
    }

    // Lifts a phase's bar, whether it is barred or not.
    pub fn free(&mut self, phase: u8) -> Result<(), Fault>
        ensures { Does self.old (Free phase) (reply result) self.new }
    {
        self.put_bar(phase, false)
    }

    // Plans one period, from its two currents and the references of every stage. The order has to be fired or withdrawn
    // before the next call.
    pub fn plan(&mut self, currents: [i32; 2], references: &[i32]) -> Result<Order, Fault>
        ensures plans { Plans (setup_of M.Measure.meaning A.Leg.model B.Leg.model C.Leg.model self.old) self.old (PlanCall currents references.entry) (plan_reply result self.new.plan) self.new }
        ensures bears { Bears self.old.identity self.new.pending result }
    {
        self.check_idle()?;
        let plan = self.search(&currents, references)?;
        self.plan = Some(plan);
        self.pending = true;
        Ok(Order {
            identity: self.identity,
        })
    }

    // Takes an order that can be closed now; any other is handed back, with the reason.
    fn redeem(&self, order: Order) -> Result<(), Denied>
        ensures { Redeems (order_refusal self.now.identity self.now.pending order.identity) order result }
    {
        if order.identity != self.identity {
            return Err(Denied {
                fault: Rule::OwnOrder.into(),
                order,
            });
        }
        if !self.pending {
            return Err(Denied {
                fault: Rule::OpenOrder.into(),
                order,
            });
        }
        // a value that is not `Drop` is spent by taking it apart
        let Order { identity: _ } = order;
        Ok(())
    }

    // Applies the first stage of the plan that the order is for, and remembers the plan's sequence.
    pub fn fire(&mut self, order: Order) -> Result<(), Denied>
        ensures does { Does self.old (Fire order.identity) (reply_back result) self.new }
        ensures back { HandsBack order result }
    {
        self.redeem(order)?;
        self.applied = first_stage(&self.plan, self.applied);
        self.remembered = self.plan.map(|p| p.sequence);
        self.pending = false;
        Ok(())
    }

    // Closes an order without applying anything. The plan can still be read.
    pub fn withdraw(&mut self, order: Order) -> Result<(), Denied>
        ensures does { Does self.old (Withdraw order.identity) (reply_back result) self.new }
        ensures back { HandsBack order result }
    {
        self.redeem(order)?;
        // what is applied stays, and so does the plan
        self.pending = false;
        Ok(())
    }

    // Fires an order, or withdraws it.
    pub fn close(&mut self, closing: Closing, order: Order) -> Result<(), Denied>
        ensures does { Does self.old (closes closing order.identity) (reply_back result) self.new }
        ensures back { HandsBack order result }
    {
        match closing {
            Closing::Fire => self.fire(order),
            Closing::Withdraw => self.withdraw(order),
        }
    }

    // Entry i of the last plan, counted from 1, where there is one.
    pub fn entry(&self, i: usize) -> Option<u8>
        ensures { result ≡ entry_at self.now.plan i }
    {
        let plan = self.plan.as_ref()?;
        plan.sequence.as_slice().get(i.checked_sub(1)?).copied()
    }

    // What the last plan costs.
    pub fn cost(&self) -> Option<M::Cost>
        ensures { result ≡ option_map (λ p. p.cost) self.now.plan }
    {
        self.plan.as_ref().map(|p| p.cost)
    }

    // How many nodes the last plan counted.
    pub fn count(&self) -> Option<u32>
        ensures { result ≡ option_map (λ p. p.count) self.now.plan }
    {
        self.plan.as_ref().map(|p| p.count)
    }

    // How the search for the last plan ended.
    pub fn mark(&self) -> Option<Mark>
        ensures { result ≡ option_map (λ p. p.mark) self.now.plan }
    {
        self.plan.as_ref().map(|p| p.mark)
    }

    // The last plan, whole.
    pub fn reading(&self) -> Option<Reading<M::Cost>>
        ensures { result ≡ option_map reading_of self.now.plan }
    {
        self.plan.as_ref().map(|p| p.reading())
    }

    // The identity that its orders bear.
    pub fn identity(&self) -> u16
        ensures { result ≡ self.now.identity }
    {
        self.identity
    }

    // What it is set to.
    pub fn settings(&self) -> Settings
        ensures { result ≡ settings_of self.now }
    {
        Settings {
            horizon: self.tables.as_ref().map(|t| t.horizon().stages()),
            limit: self.limit,
            barred: [
                self.legs.a.is_barred(),
                self.legs.b.is_barred(),
                self.legs.c.is_barred(),
            ],
            applied: self.applied,
            order_is_open: self.pending,
        }
    }
}
