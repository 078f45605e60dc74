// The calls on a history text. The place of a refusal is the line.
ghost use Rattle.std.specs.Prelude.{◌≡◌};
ghost use Rattle.bidding.specs.Rule.{done};
ghost use Rattle.replay.specs.Replay.{replay_of};
ghost use Rattle.history.specs.Output.{refusal_line};
ghost use Rattle.history.specs.Plan.{fitted, plan_of, sheet_of};
ghost use Rattle.exports.specs.Answers.{answered, replay_answer, told_bytes, plan_answer};

use crate::answers::{Answer, planned_told, replay_answer};
use history::planning::{plan_text, print_text, refusal_line};
use refusals::Told;
use replay::replay;

// Replays a text. The value is the number of bids in all, up to the refusal where there is one.
#[unsafe(no_mangle)]
pub extern "C" fn noughtelm_replay(text: &[u8]) -> Answer
    ensures { done result ≡ answered replay_answer (replay_of text.now) }
{
    let replayed = replay(text);
    replay_answer(replayed)
}

// Replays a text and writes its plan. The value is the number of bytes.
#[unsafe(no_mangle)]
pub extern "C" fn noughtelm_plan_text(text: &[u8], out: &mut [u8]) -> Told
    ensures { done (told_bytes result out.new) ≡ answered plan_answer (plan_of text.now out.old) }
{
    let planned = plan_text(text, out);
    planned_told(planned)
}

// Writes the line that a refused text prints. The value is the number of bytes.
#[unsafe(no_mangle)]
pub extern "C" fn noughtelm_refusal_line(number: u64, line: u64, out: &mut [u8]) -> Told
    ensures { told_bytes result out.new ≡ plan_answer (fitted (refusal_line number line) out.old) }
{
    let planned = refusal_line(number, line, out);
    planned_told(planned)
}

// Writes what the program prints, a plan or a refusal. The value is the number of bytes.
#[unsafe(no_mangle)]
pub extern "C" fn noughtelm_sheet_text(text: &[u8], out: &mut [u8]) -> Told
    ensures { told_bytes result out.new ≡ plan_answer (fitted (sheet_of text.now) out.old) }
{
    let printed = print_text(text, out);
    planned_told(printed)
}
