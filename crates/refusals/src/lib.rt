#![tactic(auto)]

// What is refused: the rows of document 01's table, and those that document 02 adds, with their numbers and places.
ghost use Rattle.std.specs.Prelude.{◌≡◌};
ghost use Rattle.refusals.specs.Codes.{code_of};

use thiserror::Error;

// The refusals of the table, each by its word; a place where it has one.
#[derive(Clone, Copy, Debug, PartialEq, Eq, Hash, Error)]
pub enum Refusal {
    #[error("count")]
    Count,
    #[error("slack")]
    Slack,
    #[error("full")]
    Full,
    #[error("unknown")]
    Unknown(u64),
    #[error("gone")]
    Gone(u64),
    #[error("worth")]
    Worth(u64),
    #[error("order")]
    Order(u64),
    #[error("short")]
    Short,
    #[error("uneven")]
    Uneven,
    #[error("clash")]
    Clash(u64),
    #[error("price")]
    Price(u64),
    #[error("bare")]
    Bare(u64),
    #[error("spoilt")]
    Spoilt,
    #[error("line")]
    Line(u64),
    #[error("long")]
    Long,
    #[error("places")]
    Places(u64),
    #[error("large")]
    Large,
}

// A refusal of a text, and the line at which it is told: 0 for the text as a whole. A number, since C is told the line as the place.
#[derive(Clone, Copy, Debug, PartialEq, Eq, Hash, Error)]
#[error("{refusal} at line {line}")]
pub struct AtLine {
    pub refusal: Refusal,
    pub line: u64,
}

// A call's answer in numbers, for C, which takes no enum. Number 0 says that the call served, with a value where it has one. Any other number is the
// refusal's, with its place.
#[repr(C)]
#[derive(Clone, Copy)]
pub struct Told {
    pub number: u64,
    pub place: u64,
    pub value: u64,
}

impl Refusal {
    // Its number in the table, which C reads: by a name of its own, as docs and `code_of` have it.
    pub fn number(self) -> u64
        ensures { result ≡ (code_of self).number }
    {
        match self {
            Refusal::Count => 1,
            Refusal::Slack => 2,
            Refusal::Full => 3,
            Refusal::Unknown(_) => 4,
            Refusal::Gone(_) => 5,
            Refusal::Worth(_) => 6,
            Refusal::Order(_) => 7,
            Refusal::Short => 8,
            Refusal::Uneven => 9,
            Refusal::Clash(_) => 10,
            Refusal::Price(_) => 11,
            Refusal::Bare(_) => 12,
            Refusal::Spoilt => 13,
            Refusal::Line(_) => 14,
            Refusal::Long => 15,
            Refusal::Places(_) => 16,
            Refusal::Large => 17,
        }
    }

    // Its place, 0 where it has none.
    pub fn place(self) -> u64
        ensures { result ≡ (code_of self).place }
    {
        match self {
            Refusal::Unknown(place) => place,
            Refusal::Gone(place) => place,
            Refusal::Worth(place) => place,
            Refusal::Order(place) => place,
            Refusal::Clash(place) => place,
            Refusal::Price(place) => place,
            Refusal::Bare(place) => place,
            Refusal::Line(place) => place,
            Refusal::Places(place) => place,
            _ => 0,
        }
    }
}

#[cfg(test)]
mod tests {
    use super::*;
    use std::test::Fail;

    #[test]
    fn says_the_words_of_the_table(rt: HostRuntime) -> Result<(), Fail> {
        let alloc = rt.alloc();
        assert_eq!(rt; format!(in alloc; "{}", Refusal::Count)?.as_str(), "count");
        assert_eq!(rt; format!(in alloc; "{}", Refusal::Bare(3))?.as_str(), "bare");
        assert_eq!(rt;
            format!(in alloc; "{:?}", Refusal::Bare(3))?.as_str(),
            "Bare(3)"
        );
        assert!(rt; Refusal::Bare(3) != Refusal::Bare(4));
        Ok(())
    }
}
