// The units: whole pence, q-ths of a penny, and the slack p/q. The two units meet in functions of the slack alone.
ghost use Rattle.std.specs.Prelude.{◌≡◌, ◌+◌, ◌-◌, ◌*◌, ◌/◌, ◌≤◌, ◌<◌, ltb};
ghost use Rattle.duality.specs.Steps.{utility};
ghost use Rattle.board.specs.Limits.{max_q, word_limit};

// Whole pence. Numbers in two units are compared by what they count, as the contracts do: an order of the types would say no less.
#[repr(C)]
#[derive(Clone, Copy, Default)]
pub struct Pence(pub u64);

// q-ths of a penny: prices, gains and utilities.
#[repr(C)]
#[derive(Clone, Copy)]
pub struct Scaled(pub u64);

// The slack p/q. C shares this record, which holds any two numbers: that p is below q, and q at most 1,000, is asked where a slack is used.
#[repr(C)]
#[derive(Clone, Copy)]
pub struct Slack {
    pub p: u64,
    pub q: u64,
}

impl Slack {
    // A factor of q-ths for each penny, times a weight. Only the functions below choose the factor.
    fn times(factor: u64, weight: Pence) -> Scaled
        requires factor { factor ≤ 2 * max_q }
        requires weight { weight.0 < word_limit }
        ensures { result.0 ≡ factor * weight.0 }
    {
        Scaled(factor * weight.0)
    }

    // p times a weight: what a bid raises a price by.
    pub fn step(self, weight: Pence) -> Scaled
        requires below { self.p < self.q }
        requires q { self.q ≤ max_q }
        requires weight { weight.0 < word_limit }
        ensures { result.0 ≡ self.p * weight.0 }
    {
        Slack::times(self.p, weight)
    }

    // q - p times a weight: what gain and price must cover.
    pub fn least(self, weight: Pence) -> Scaled
        requires below { self.p < self.q }
        requires q { self.q ≤ max_q }
        requires weight { weight.0 < word_limit }
        ensures { result.0 ≡ (self.q - self.p) * weight.0 }
    {
        Slack::times(self.q - self.p, weight)
    }

    // q + p times a weight: what a placed bidder's gain and its item's price add up to.
    pub fn whole(self, weight: Pence) -> Scaled
        requires below { self.p < self.q }
        requires q { self.q ≤ max_q }
        requires weight { weight.0 < word_limit }
        ensures { result.0 ≡ (self.q + self.p) * weight.0 }
    {
        Slack::times(self.q + self.p, weight)
    }

    // The weight of which so many q-ths are q + p times: the inverse of `whole`.
    pub fn weight_of(self, whole: Scaled) -> Pence
        requires below { self.p < self.q }
        requires q { self.q ≤ max_q }
        ensures { result.0 ≡ whole.0 / (self.q + self.p) }
    {
        Pence(whole.0 / (self.q + self.p))
    }

    // So many q-ths divided by q - p, the whole part: the greatest weight that `least` does not take above a price.
    pub fn floor(self, price: Scaled) -> Pence
        requires { self.p < self.q }
        ensures { result.0 ≡ price.0 / (self.q - self.p) }
    {
        Pence(price.0 / (self.q - self.p))
    }

    // So many q-ths in whole pence: divided by q, the whole part.
    pub fn pence(self, price: Scaled) -> Pence
        requires { self.p < self.q }
        ensures { result.0 ≡ price.0 / self.q }
    {
        Pence(price.0 / self.q)
    }

    // Whether q times a weight is above a price.
    pub fn exceeds(self, weight: Pence, price: Scaled) -> bool
        requires q { self.q ≤ max_q }
        requires weight { weight.0 < word_limit }
        ensures { result ≡ ltb price.0 (self.q * weight.0) }
    {
        price.0 < Slack::times(self.q, weight).0
    }

    // q times a weight less a price that is below it: the utility of an edge.
    pub fn utility(self, weight: Pence, price: Scaled) -> Scaled
        requires q { self.q ≤ max_q }
        requires weight { weight.0 < word_limit }
        requires exceeds { price.0 < self.q * weight.0 }
        ensures { result.0 ≡ utility self.q weight.0 price.0 }
    {
        Scaled(Slack::times(self.q, weight).0 - price.0)
    }
}

// The weight in a row's cell. No `From<u32>`: its callers need the bound that it promises.
pub fn weight_in(cell: u32) -> Pence
    ensures weight { result.0 ≡ cell }
    ensures small { result.0 < word_limit }
{
    Pence(u64::from(cell))
}
