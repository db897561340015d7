// The names of schemas, after identifier.rs: the forms of a name and the order of two names.
#![tactic(auto)]

mod form_bytes;
mod order;
pub mod tables;

ghost use Rattle.std.specs.Prelude.{◌≡◌, ◌≤◌, length};
ghost use Rattle.wire.specs.Put.{Wrote};
ghost use Rattle.wire.specs.Puts.{Puts};
ghost use Rattle.identifier.specs.Left.{word_added, form_of};
ghost use Rattle.identifier.specs.Forms.{snake_of, camel_of, pascal_of, IsForm};

use form_bytes::{Case, State};
pub use order::{compare, same};
pub use std::cmp::Ordering as Order;
pub use tables::{class_of, is_name};
use tables::{is_break, is_upper, lower_of, upper_of};
use wire::Writer;

/// A form of a name, as document 01 names it: 256 bytes, which hold any form, with a length. Zeros stand behind it.
#[derive(Clone, Copy, Drop)]
pub struct Form {
    pub bytes: [u8; 256],
    pub len: usize,
}

// 256 bytes hold any form of a name of 128.
fn build(name: &[u8], case: Case) -> Form
    requires { length name.now ≤ 128 }
    ensures { IsForm result.bytes result.len (form_of case name.now) }
{
    let mut bytes = [0; 256];
    let mut w = Writer::new(&mut bytes);
    put_form(&mut w, name, case);
    let len = w.at;
    Form { bytes, len }
}

// Document 01 names the three forms; `Case` stays private.
pub fn snake(name: &[u8]) -> Form
    requires { length name.now ≤ 128 }
    ensures { IsForm result.bytes result.len (snake_of name.now) }
{
    build(name, Case::Snake)
}

pub fn camel(name: &[u8]) -> Form
    requires { length name.now ≤ 128 }
    ensures { IsForm result.bytes result.len (camel_of name.now) }
{
    build(name, Case::Camel)
}

pub fn pascal(name: &[u8]) -> Form
    requires { length name.now ≤ 128 }
    ensures { IsForm result.bytes result.len (pascal_of name.now) }
{
    build(name, Case::Pascal)
}

// What a byte of a name that is no break adds to a form.
#[tactic(auto, unfolding(wire::specs::Pick::pick))]
fn put_word_byte(w: &mut Writer, case: Case, state: State, b: u8)
    ensures { Puts w.old (word_added case state b) w.new }
{
    match (state, case) {
        (State::Before, Case::Pascal) => w.put_byte(upper_of(b)),
        (State::Before | State::Barred, _) => w.put_byte(lower_of(b)),
        (State::Inside, _) if !is_upper(b) => w.put_byte(lower_of(b)),
        (_, Case::Snake) => {
            w.put_byte(b'_');
            w.put_byte(lower_of(b));
        }
        _ => w.put_byte(upper_of(b)),
    }
}

// A byte of the name at a time: by the form's own bytes a capital would be looked at twice.
fn put_bytes(w: &mut Writer, name: &[u8], case: Case)
    ensures { Puts w.old (form_of case name.now) w.new }
{
    let mut state = State::Before;
    for b in name {
        if is_break(*b) {
            state = state.after(*b);
        } else {
            put_word_byte(w, case, state, *b);
            state = State::Inside;
        }
    }
}

// A writer of its own keeps the place out of memory.
fn put_at(out: &mut [u8], at: usize, name: &[u8], case: Case) -> usize
    ensures { Wrote out.old at (form_of case name.now) out.new result }
{
    let mut w = Writer { out, at };
    put_bytes(&mut w, name, case);
    w.at
}

// A form is put byte by byte: an array of 256 bytes in between would cost more than the form.
fn put_form(w: &mut Writer, name: &[u8], case: Case)
    ensures { Puts w.old (form_of case name.now) w.new }
{
    w.at = put_at(w.out, w.at, name, case);
}

pub fn put_snake(w: &mut Writer, name: &[u8])
    ensures { Puts w.old (snake_of name.now) w.new }
{
    put_form(w, name, Case::Snake)
}

pub fn put_pascal(w: &mut Writer, name: &[u8])
    ensures { Puts w.old (pascal_of name.now) w.new }
{
    put_form(w, name, Case::Pascal)
}
