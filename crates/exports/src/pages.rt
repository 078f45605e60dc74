// The calls of the page for the kitchen wall.
ghost use Rattle.std.specs.Prelude.{◌≡◌};
ghost use Rattle.layout.specs.Stored.{row_lists};
ghost use Rattle.page.specs.Writing.{write_page_of};
ghost use Rattle.page.specs.Reading.{read_page_of};
ghost use Rattle.history.specs.Plan.{fitted};
ghost use Rattle.history.specs.Wall.{wall_of};
ghost use Rattle.exports.specs.Answers.{told_bytes, plan_answer, write_answer, told_rows, read_answer};

use crate::answers::{number_told, planned_told};
use history::wall::page_text;
use page::reading::read_page;
use page::writing::write_page;
use refusals::Told;
use supply::record::Board;

// Writes the page of a board. The value is the number of bytes.
#[unsafe(no_mangle)]
pub extern "C" fn noughtelm_write_page(board: Board, page: &mut [u8]) -> Told
    ensures { told_bytes result page.new ≡ write_answer (write_page_of board page.old) }
{
    number_told(write_page(&board, page))
}

// Reads a page into three lent lists. The value is the number of bidders.
#[unsafe(no_mangle)]
pub extern "C" fn noughtelm_read_page(
    text: &[u8],
    plan: &mut [u64],
    weights: &mut [u64],
    gains: &mut [u64],
) -> Told
    ensures { told_rows result (row_lists plan.new weights.new gains.new) ≡ read_answer (read_page_of text.now (row_lists plan.old weights.old gains.old)) }
{
    number_told(read_page(text, plan, weights, gains))
}

// Replays a text and writes the page of its board, or its refusal. The value is the number of bytes.
#[unsafe(no_mangle)]
pub extern "C" fn noughtelm_page_text(text: &[u8], out: &mut [u8]) -> Told
    ensures { told_bytes result out.new ≡ plan_answer (fitted (wall_of text.now) out.old) }
{
    let planned = page_text(text, out);
    planned_told(planned)
}
