// Reading: the rows of a page, into three lent lists.
ghost use Rattle.std.specs.Prelude.{◌≡◌};
ghost use Rattle.layout.specs.Stored.{row_lists};
ghost use Rattle.page.specs.Reading.{room_for, read, read_page_of};

use board::record::Auction;
use layout::read::{BadLine, read, store_rows};
use refusals::Refusal;

// Whether three lists have so many cells: one expression, as board's `has_room` is of a definition of its own.
#[tactic(auto, unfolding(crate::specs::Reading::room_for))]
fn has_room_for(rows: usize, plan: usize, weights: usize, gains: usize) -> bool
    ensures { result ≡ room_for rows plan weights gains }
{
    rows <= plan && rows <= weights && rows <= gains
}

// Reads a page: a cell of each list for each of its rows, and answers how many rows it has.
pub fn read_page(
    text: &[u8],
    plan: &mut [u64],
    weights: &mut [u64],
    gains: &mut [u64],
) -> Result<u64, Refusal>
    ensures { read result (row_lists plan.new weights.new gains.new) ≡ read_page_of text.now (row_lists plan.old weights.old gains.old) }
{
    if Auction::MAX_TEXT < text.len() {
        return Err(Refusal::Long);
    }
    match read(text) {
        Err(BadLine(line)) => Err(Refusal::Line(line)),
        Ok(rows) => {
            if !has_room_for(rows.len(), plan.len(), weights.len(), gains.len()) {
                return Err(Refusal::Short);
            }
            store_rows(rows.as_slice(), plan, weights, gains);
            Ok(rows.len() as u64)
        }
    }
}
