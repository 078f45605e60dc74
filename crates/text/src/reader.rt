// A text and a position in it, which moves forward field by field. Each function over it is thin, and leaves the work to
// a function on the text and the position.
ghost use Rattle.std.specs.Prelude.{◌≡◌};
ghost use Rattle.text.specs.Reader.{number_in, after_of, tabbed_at};

use crate::scan::{self, Field};

#[derive(Clone, Copy)]
pub struct Reader<'a> {
    pub text: &'a [u8],
    pub at: usize,
}

impl<'a> Reader<'a> {
    // A reader at a position of a text.
    pub fn new(text: &'a [u8], at: usize) -> Reader<'a>
        ensures text { result.text ≡ text.entry }
        ensures at { result.at ≡ at }
    {
        Reader { text, at }
    }

    // The field at the reader's position: a tab, and a number.
    pub fn current(self) -> Option<Field>
        ensures { result ≡ tabbed_at self.entry.text.now self.entry.at }
    {
        scan::tabbed_at(self.text, self.at)
    }

    // The reader moved past a field; where there is none, it stays.
    pub fn past(self, field: Option<Field>) -> Reader<'a>
        ensures text { result.text ≡ self.entry.text }
        ensures at { result.at ≡ after_of field self.entry.at }
    {
        let at = match field {
            Some(field) => field.next,
            None => self.at,
        };
        Reader::new(self.text, at)
    }

    // The number of the field at the reader's position, and past it; where none stands there, the reader stays.
    pub fn next_field(&mut self) -> Option<u64>
        ensures number { result ≡ number_in (tabbed_at self.old.text.now self.old.at) }
        ensures text { self.new.text ≡ self.old.text }
        ensures at { self.new.at ≡ after_of (tabbed_at self.old.text.now self.old.at) self.old.at }
    {
        let field = self.current();
        *self = self.past(field);
        Some(field?.number)
    }
}
