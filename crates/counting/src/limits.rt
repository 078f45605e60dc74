// How many bidders the count takes, and how many places, so items too; and so many rows of so many cells.
pub(crate) const COUNTED: usize = 6;

pub(crate) const CELLS: usize = COUNTED * COUNTED;
