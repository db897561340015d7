// The state between the bytes of a name, and the bytes of a form one by one, as two forms are compared.
ghost use Rattle.std.specs.Prelude.{◌≡◌, ◌∷◌, false};
ghost use Rattle.std.specs.Iterator.{YieldsFirst, item_count};
ghost use Rattle.identifier.specs.Byte.{is_break};
ghost use Rattle.identifier.specs.Left.{first_by, state_after, form_left};

use super::tables::{is_break, is_upper, lower_of, upper_of};

/// How the words of a form begin.
#[derive(Clone, Copy, Drop)]
pub enum Case {
    Snake,
    Camel,
    Pascal,
}

/// What has been written of a form at a place of its name.
#[derive(Clone, Copy, Drop)]
pub enum State {
    // no word
    Before,
    // the first bytes of a word
    Inside,
    // a word that a break has ended
    Between,
    // the `_` before a later word
    Barred,
}

impl State {
    pub(crate) fn after(self, b: u8) -> State
        ensures { result ≡ state_after self b }
    {
        if !is_break(b) {
            return State::Inside;
        }
        match self {
            State::Inside => State::Between,
            other => other,
        }
    }
}

/// What is left of a form, where `rest` is left of its name.
#[derive(Drop)]
pub struct FormBytes<'a> {
    pub(crate) rest: &'a [u8],
    pub(crate) case: Case,
    pub(crate) state: State,
}

impl<'a> FormBytes<'a> {
    // The next byte where b, which is no break, is the name's next byte, and `rest` is left behind it.
    fn word_byte(&mut self, b: u8, rest: &'a [u8]) -> u8
        requires { (self.old.rest.now ≡ b ∷ rest.now) × (is_break b ≡ false) }
        ensures { form_left self.old ≡ result ∷ form_left self.new }
    {
        // One machine for the three cases.
        let byte = match (self.state, self.case) {
            (State::Before, Case::Pascal) => upper_of(b),
            (State::Before | State::Barred, _) => lower_of(b),
            (State::Inside, _) if !is_upper(b) => lower_of(b),
            (_, Case::Snake) => {
                self.state = State::Barred;
                return b'_';
            }
            _ => upper_of(b),
        };
        self.rest = rest;
        self.state = State::Inside;
        byte
    }
}

impl<'a> Iterator for FormBytes<'a> {
    type Item = u8;

    ghost next_gives = { YieldsFirst form_left };

    ghost remaining = { item_count form_left };

    fn next(&mut self) -> Option<u8> {
        loop {
            let (&b, rest) = self.rest.split_first()?;
            if !is_break(b) {
                return Some(self.word_byte(b, rest));
            }
            self.rest = rest;
            self.state = self.state.after(b);
        }
    }
}
