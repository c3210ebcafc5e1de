// Answers as text.
ghost use Rattle.std.specs.Prelude.{◌≡◌, ℕ, ◌+◌, ◌≤◌, ◌++◌, length, codes};
ghost use Rattle.std.specs.Fmt.{signed_decimal};
ghost use Rattle.arrayvec.specs.ArrayString.{array_string_len};
ghost use Rattle.fault.specs.Printed.{refusal_line};
ghost use Rattle.controller.specs.declared.calls.Reply.TheVariants.{Planned};
ghost use Rattle.console.specs.Said.{answer_text};
ghost use Rattle.console.specs.Texts.{Puts, level_of, levels_text, mark_word, npc, reply_text, search_text};

use crate::answer::Answer;
use arrayvec::ArrayString;
use controller::calls::Reading;
use decoder::Mark;
use fault::Fault;
use itoa::{Buffer, Integer};
use legs::leg::Leg;
use legs::stepped::Stepped;

// Room for any answer.
pub const ROOM: usize = 96;

// The text of an answer. Its parts are pushed one by one and not formatted: a `write!` may fail for all that its contract says,
// also where there is room, and an answer may not.
pub(crate) type Text = ArrayString<ROOM>;

// A number in decimal, with its minus.
fn push_number<I: Integer>(text: &mut Text, n: I)
    requires { array_string_len text.old + I.MAX_STR_LEN ≤ 96 }
    ensures text { text.new.bytes ≡ text.old.bytes ++ I.text n }
    ensures short { array_string_len text.new ≤ array_string_len text.old + I.MAX_STR_LEN }
{
    text.push_str(Buffer::new().format(n));
}

// The level of a position.
fn push_level(text: &mut Text, position: u8)
    requires { array_string_len text.old ≤ 90 }
    ensures text { text.new.bytes ≡ text.old.bytes ++ signed_decimal (npc.level position) }
    ensures short { array_string_len text.new ≤ array_string_len text.old + 4 }
{
    push_number(text, Stepped::npc().level(position));
}

// The levels of a plan's first stage.
fn push_levels(text: &mut Text, plan: &Reading<u64>)
    requires { array_string_len text.old ≤ 70 }
    ensures text { text.new.bytes ≡ text.old.bytes ++ levels_text (level_of plan.now 0) (level_of plan.now 1) (level_of plan.now 2) }
    ensures short { array_string_len text.new ≤ array_string_len text.old + 17 }
{
    text.push_str("ok ");
    push_level(text, plan.entries[0]);
    text.push_str(" ");
    push_level(text, plan.entries[1]);
    text.push_str(" ");
    push_level(text, plan.entries[2]);
}

// The console's own words for how a search ended.
fn mark_text(mark: Mark) -> &'static str
    ensures is { result.now ≡ mark_word mark }
    ensures short { length result.now ≤ 9 }
{
    match mark {
        Mark::Certified => "certified",
        Mark::Stopped => "stopped",
    }
}

// What the search for a plan came to.
fn push_search(text: &mut Text, cost: u64, nodes: u32, mark: Mark)
    requires { array_string_len text.old ≤ 30 }
    ensures { text.new.bytes ≡ text.old.bytes ++ search_text cost nodes mark }
{
    text.push_str(" cost ");
    push_number(text, cost);
    text.push_str(" nodes ");
    push_number(text, nodes);
    text.push_str(" ");
    text.push_str(mark_text(mark));
    text.push_str("\n");
}

fn plan_text(plan: &Reading<u64>) -> Text
    ensures { result.bytes ≡ reply_text (Planned plan.now) }
{
    let mut text = Text::new();
    push_levels(&mut text, plan);
    push_search(&mut text, plan.cost, plan.count, plan.mark);
    text
}

// A refusal, as one line.
fn fault_text(fault: Fault) -> Text
    ensures { result.bytes ≡ refusal_line fault ++ codes "\n" }
{
    let mut text = Text::new();
    text.push_str("no ");
    text.push_str(fault.layer().word());
    text.push_str(" ");
    push_number(&mut text, fault.number());
    text.push_str(" ");
    push_number(&mut text, fault.place);
    text.push_str("\n");
    text
}

fn done_text() -> Text
    ensures { result.bytes ≡ codes "ok\n" }
{
    let mut text = Text::new();
    text.push_str("ok\n");
    text
}

// What a line came to, as the text that is printed.
fn answer_text(answer: &Result<Answer, Fault>) -> Text
    ensures { result.bytes ≡ answer_text answer.now }
{
    match answer {
        Ok(Answer::Nothing) => Text::new(),
        Ok(Answer::Done) => done_text(),
        Ok(Answer::Planned(plan)) => plan_text(plan),
        Err(fault) => fault_text(*fault),
    }
}

// Writes what a line came to in front of a buffer, and gives the end of it.
pub(crate) fn put_answer(out: &mut [u8], answer: &Result<Answer, Fault>) -> usize
    requires { 96 ≤ length out.old }
    ensures puts { Puts out.old 0 (answer_text answer.now) result out.new }
    ensures end { result ≤ 96 }
{
    let text = answer_text(answer);
    let end = text.len();
    out[..end].copy_from_slice(text.as_str().as_bytes());
    end
}
