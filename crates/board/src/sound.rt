// The test that a board is sound. Market, weights and state go one by one, as they lie in the record of `board` and in that of `supply`. It takes the
// weights lent, and reads each edge once; those of placed bidders once more.
ghost use Rattle.std.specs.Prelude.{◌≡◌, true, not, cond, ◌&&◌, ◌+◌, ◌-◌, ◌*◌, ◌≤◌, ◌<◌, length, eqb};
ghost use Rattle.duality.specs.Decide.{Decides};
ghost use Rattle.board.specs.Limits.{max_items, max_bidders, max_weight, max_q, word_limit};
ghost use Rattle.board.specs.Cells.{auction};
ghost use Rattle.board.specs.SoundTest.{limits_test, flag_limit, item_test, items_test, limit_at, pair_test, sound_test};
ghost use Rattle.board.specs.SoundPass.{PlacingOf, max_need, lack_of, room_of, LimitsOf, LacksOf, Bounded, need_test, needs_test, empty_test, rows_test, RowsHold, Placed, PlacesHold};

use crate::ranges::{is_slack, is_within};
use crate::record::{Auction, Market, State};
use crate::units::{Pence, Scaled, Slack, weight_in};

// The most that an edge within limits asks of gain and price together.
const MAX_NEED: u64 = Auction::MAX_Q * Auction::MAX_WEIGHT;

// Counts and slack.
#[tactic(auto, unfolding(crate::specs::SoundTest::limits_test))]
fn within_limits(items: u64, arrived: u64, slack: Slack) -> bool
    ensures { result ≡ limits_test items arrived slack.p slack.q }
{
    is_within(Auction::MAX_ITEMS as u64, items)
        && arrived <= Auction::MAX_BIDDERS as u64
        && is_slack(1, slack.p, slack.q)
}

// Whether a holder's cell names a bidder that has an item already.
fn taken(cell: usize, item: u8) -> bool
    ensures { result ≡ (not (eqb cell 0) && not (eqb item 0)) }
{
    cell != 0 && item != 0
}

// Which item each bidder holds, by the bidder's number: the item's number, 0 for none, as `Placed` of specs/SoundPass
// has it. Cell 0 is nobody's. None where an item's cell names a bidder that
// has not arrived, or one that holds another item.
fn placing_of(
    holder: &[u8; Auction::MAX_ITEMS],
    items: usize,
    arrived: usize,
) -> Option<[u8; Auction::MAX_BIDDERS + 1]>
    requires items { items ≤ max_items }
    requires arrived { arrived ≤ max_bidders }
    ensures { PlacingOf holder.now items arrived result }
{
    let mut item = [0; Auction::MAX_BIDDERS + 1];
    for (k, &named) in holder[..items].iter().enumerate() {
        let cell = usize::from(named);
        if cell > arrived {
            return None;
        }
        if taken(cell, item[cell]) {
            return None;
        }
        item[cell] = k as u8 + 1;
    }
    Some(item)
}

// How high the byte may be that tells whether an item is withdrawn: 0 past the count.
fn flag_limit(used: bool) -> u8
    ensures { result ≡ flag_limit used }
{
    u8::from(used)
}

// An item that nobody holds has price 0; one past the count is also not held and not withdrawn.
#[tactic(auto, unfolding(crate::specs::SoundTest::item_test))]
fn item_holds(used: bool, price: Scaled, holder: u8, flag: u8) -> bool
    ensures { result ≡ item_test used price.0 holder flag }
{
    (holder != 0 || price.0 == 0) && (used || holder == 0) && flag <= flag_limit(used)
}

fn items_hold<'a>(
    price: [Scaled; Auction::MAX_ITEMS],
    holder: &'a [u8; Auction::MAX_ITEMS],
    withdrawn: &'a [u8; Auction::MAX_ITEMS],
    items: usize,
) -> bool
    ensures { result ≡ items_test price holder.now withdrawn.now items }
{
    for k in 0..Auction::MAX_ITEMS {
        if !item_holds(k < items, price[k], holder[k], withdrawn[k]) {
            return false;
        }
    }
    true
}

// How heavy an edge may be at an item: not at all past the count.
fn limit_at(k: usize, items: usize) -> u64
    ensures { result ≡ limit_at items k }
{
    if k < items { Auction::MAX_WEIGHT } else { 0 }
}

// What a price lacks of MAX_NEED. At a withdrawn item nothing need be covered.
fn lack_of(price: Scaled, withdrawn: bool) -> u64
    ensures { result ≡ lack_of price.0 withdrawn }
{
    if withdrawn {
        0
    } else {
        MAX_NEED.saturating_sub(price.0)
    }
}

// How heavy an edge may be at each item.
fn limits_of(items: usize) -> [u64; Auction::MAX_ITEMS]
    ensures { LimitsOf items result }
{
    let mut limit = [0; Auction::MAX_ITEMS];
    for k in 0..Auction::MAX_ITEMS {
        limit[k] = limit_at(k, items);
    }
    limit
}

// What each price lacks.
fn lacks_of(
    price: [Scaled; Auction::MAX_ITEMS],
    withdrawn: &[u8; Auction::MAX_ITEMS],
) -> [u64; Auction::MAX_ITEMS]
    ensures { LacksOf price withdrawn.now result }
{
    let mut lack = [0; Auction::MAX_ITEMS];
    for k in 0..Auction::MAX_ITEMS {
        lack[k] = lack_of(price[k], withdrawn[k] != 0);
    }
    lack
}

// What an edge's need and the lack of its item's price may add up to.
fn room_of(gain: Scaled) -> u64
    ensures { result ≡ room_of gain.0 }
{
    gain.0.min(MAX_NEED) + MAX_NEED
}

// A cell of a row: an edge within its limit and covered, without adding a gain to a price.
#[tactic(auto, unfolding(crate::specs::SoundPass::need_test))]
fn cell_holds(weight: Pence, limit: u64, lack: u64, room: u64, slack: Slack) -> bool
    requires weight { weight.0 < word_limit }
    requires limit { limit ≤ max_weight }
    requires lack { lack ≤ max_need }
    requires below { slack.p < slack.q }
    requires q { slack.q ≤ max_q }
    ensures { result ≡ need_test (slack.q - slack.p) limit lack room weight.0 }
{
    weight.0 <= limit && slack.least(weight).0 + lack <= room
}

// The row of edges that begins at a cell. By index: a closure cannot show `cell_holds` the bounds of the limits and lacks.
fn row_holds<'a>(
    weights: &'a [u32; Auction::MAX_CELLS],
    from: usize,
    limit: &'a [u64; Auction::MAX_ITEMS],
    lack: &'a [u64; Auction::MAX_ITEMS],
    room: u64,
    slack: Slack,
) -> bool
    requires row { from + max_items ≤ max_bidders * max_items }
    requires bounded { Bounded limit.now lack.now }
    requires below { slack.p < slack.q }
    requires q { slack.q ≤ max_q }
    ensures { result ≡ needs_test (slack.q - slack.p) weights.now from limit.now lack.now room }
{
    for k in 0..Auction::MAX_ITEMS {
        if !cell_holds(weight_in(weights[from + k]), limit[k], lack[k], room, slack) {
            return false;
        }
    }
    true
}

// No edge from a cell on. Cell by cell: by an iterator's `all` the test of a board takes a sixth more instructions, over the 3 in 100 of
// docs/BENCHMARK.md.
fn no_edges(weights: &[u32; Auction::MAX_CELLS], from: usize) -> bool
    ensures { result ≡ empty_test weights.now from }
{
    for k in from..Auction::MAX_CELLS {
        if weights[k] != 0 {
            return false;
        }
    }
    true
}

// The rows of the bidders that have arrived, and no edge of any other.
fn rows_hold<'a>(
    weights: &'a [u32; Auction::MAX_CELLS],
    limit: &'a [u64; Auction::MAX_ITEMS],
    lack: &'a [u64; Auction::MAX_ITEMS],
    gain: [Scaled; Auction::MAX_BIDDERS],
    arrived: usize,
    slack: Slack,
) -> bool
    requires arrived { arrived ≤ max_bidders }
    requires bounded { Bounded limit.now lack.now }
    requires below { slack.p < slack.q }
    requires q { slack.q ≤ max_q }
    ensures { result ≡ rows_test (slack.q - slack.p) weights.now limit.now lack.now gain arrived }
{
    if !no_edges(weights, arrived * Auction::MAX_ITEMS) {
        return false;
    }
    for i in 0..arrived {
        if !row_holds(
            weights,
            i * Auction::MAX_ITEMS,
            limit,
            lack,
            room_of(gain[i]),
            slack,
        ) {
            return false;
        }
    }
    true
}

// A bidder's place: at no item with gain 0, or at an item by a live edge, gain and price together q + p times its weight.
fn place_holds(
    item: u8,
    weight: Pence,
    price: Scaled,
    withdrawn: bool,
    gain: Scaled,
    slack: Slack,
) -> bool
    requires weight { weight.0 < word_limit }
    requires below { slack.p < slack.q }
    requires q { slack.q ≤ max_q }
    ensures { result ≡ cond (eqb item 0) (eqb gain.0 0) (pair_test (slack.q + slack.p) weight.0 price.0 withdrawn gain.0) }
{
    if item == 0 {
        return gain.0 == 0;
    }
    if withdrawn || weight.0 == 0 {
        return false;
    }
    let whole = slack.whole(weight).0;
    price.0 <= whole && gain.0 == whole - price.0
}

// Every edge is within limits and covered, and no bidder that has not arrived has one.
fn edges_hold(market: Market, weights: &[u32; Auction::MAX_CELLS], state: State) -> bool
    requires { limits_test market.items market.arrived market.slack.p market.slack.q ≡ true }
    ensures { Decides result (RowsHold (auction market weights.now state)) }
{
    let limit = limits_of(market.items as usize);
    let lack = lacks_of(state.price, &market.withdrawn);
    rows_hold(
        weights,
        &limit,
        &lack,
        state.gain,
        market.arrived as usize,
        market.slack,
    )
}

// Every bidder's place holds; `item` has each bidder's cell of the matching.
fn places_hold(
    item: [u8; Auction::MAX_BIDDERS + 1],
    market: Market,
    weights: &[u32; Auction::MAX_CELLS],
    state: State,
) -> bool
    requires limits { limits_test market.items market.arrived market.slack.p market.slack.q ≡ true }
    requires placed { Placed item (auction market weights.now state) }
    ensures { Decides result (PlacesHold (auction market weights.now state)) }
{
    let slack = market.slack;
    for i in 0..Auction::MAX_BIDDERS {
        let cell = item[i + 1];
        let k = usize::from(cell).saturating_sub(1);
        let weight = weight_in(weights[i * Auction::MAX_ITEMS + k]);
        if !place_holds(
            cell,
            weight,
            state.price[k],
            market.withdrawn[k] != 0,
            state.gain[i],
            slack,
        ) {
            return false;
        }
    }
    true
}

// Whether a board of these parts is sound, whatever numbers they hold.
pub fn is_sound_in(market: Market, weights: &[u32; Auction::MAX_CELLS], state: State) -> bool
    ensures { result ≡ sound_test (auction market weights.now state) }
{
    if !within_limits(market.items, market.arrived, market.slack) {
        return false;
    }
    let items = market.items as usize;
    let Some(item) = placing_of(&state.holder, items, market.arrived as usize) else {
        return false;
    };
    if !items_hold(state.price, &state.holder, &market.withdrawn, items) {
        return false;
    }
    if !edges_hold(market, weights, state) {
        return false;
    }
    places_hold(item, market, weights, state)
}

// Whether a board is sound. `is_sound_in` is the same of parts that lie in another record, as in that of `supply`.
pub fn is_sound(auction: Auction) -> bool
    ensures { result ≡ sound_test auction }
{
    is_sound_in(auction.market, &auction.weights, auction.state)
}
