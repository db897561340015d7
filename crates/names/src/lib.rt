// Names and namespaces as a caller lends them: each function refuses what is no name or no namespace with R10, and what does not fit with R8.
#![tactic(auto)]

ghost use Rattle.std.specs.Prelude.{◌≡◌, true, false, ◌+◌, ◌≤◌, length, take, MatchOption, MatchResult, ◌&&◌};
ghost use Rattle.std.specs.Iterator.{YieldsFirstRef, item_count};
ghost use Rattle.wire.specs.Puts.{Puts};
ghost use Rattle.wire.specs.Refusal.{refused_by};
ghost use Rattle.identifier.specs.Name.{is_name};
ghost use Rattle.identifier.specs.Forms.{snake_of, camel_of, pascal_of};
ghost use Rattle.identifier.specs.Join.{join_of};
ghost use Rattle.identifier.specs.Survive.{survives};
ghost use Rattle.names.specs.Namespace.{is_namespace, names_of, text_of, relative_of, steps_up};
ghost use Rattle.names.specs.Whole.{is_whole, Split, whole_of, Parted};
ghost use Rattle.names.specs.Answer.{Answers, Relatives, compared_of, sameness_of, is_joinable, survival_of};

use identifier::Form;
use std::cmp::Ordering;
use wire::{Refusal, Refused, Writer};

const MOST_NAMES: usize = 64;

// R10 where a test of the input fails.
fn check(good: bool) -> Result<(), Refused>
    ensures { MatchResult result (λ _. good ≡ true) (λ e. (good ≡ false) × (e ≡ refused_by Refusal.NotAName)) }
{
    if good {
        return Ok(());
    }
    Err(Refusal::NotAName.into())
}

// Puts the bytes at the front of the buffer, where they fit.
fn store(out: &mut [u8], bytes: &[u8]) -> Result<usize, Refused>
    ensures { Answers true bytes.now out.old out.new result }
{
    let n = bytes.len();
    if out.len() < n {
        return Err(Refusal::NoRoom.into());
    }
    out[..n].copy_from_slice(bytes);
    Ok(n)
}

fn store_form(out: &mut [u8], form: &Form) -> Result<usize, Refused>
    requires { form.now.len ≤ length form.now.bytes }
    ensures { Answers true (take form.now.len form.now.bytes) out.old out.new result }
{
    store(out, &form.bytes[..form.len])
}

// Document 01 has a function for each form.
pub fn snake_case(out: &mut [u8], name: &[u8]) -> Result<usize, Refused>
    ensures { Answers (is_name name.now) (snake_of name.now) out.old out.new result }
{
    check(identifier::is_name(name))?;
    store_form(out, &identifier::snake(name))
}

pub fn camel_case(out: &mut [u8], name: &[u8]) -> Result<usize, Refused>
    ensures { Answers (is_name name.now) (camel_of name.now) out.old out.new result }
{
    check(identifier::is_name(name))?;
    store_form(out, &identifier::camel(name))
}

pub fn pascal_case(out: &mut [u8], name: &[u8]) -> Result<usize, Refused>
    ensures { Answers (is_name name.now) (pascal_of name.now) out.old out.new result }
{
    check(identifier::is_name(name))?;
    store_form(out, &identifier::pascal(name))
}

fn are_names(a: &[u8], b: &[u8]) -> bool
    ensures { result ≡ (is_name a.now && is_name b.now) }
{
    identifier::is_name(a) && identifier::is_name(b)
}

/// The order of two names.
pub fn cmp(a: &[u8], b: &[u8]) -> Result<Ordering, Refused>
    ensures { result ≡ compared_of a.now b.now }
{
    check(are_names(a, b))?;
    Ok(identifier::compare(a, b))
}

/// Whether two names are equal.
pub fn eq(a: &[u8], b: &[u8]) -> Result<bool, Refused>
    ensures { result ≡ sameness_of a.now b.now }
{
    check(are_names(a, b))?;
    Ok(identifier::same(a, b))
}

fn is_joinable(a: &[u8], b: &[u8]) -> bool
    ensures { result ≡ is_joinable a.now b.now }
{
    are_names(a, b) && a.len() + 1 + b.len() <= 128
}

fn store_join(out: &mut [u8], a: &[u8], b: &[u8]) -> Result<usize, Refused>
    requires { length a.now + 1 + length b.now ≤ 128 }
    ensures { Answers true (join_of a.now b.now) out.old out.new result }
{
    if out.len() < a.len() + 1 + b.len() {
        return Err(Refusal::NoRoom.into());
    }
    let mut w = Writer::new(out);
    w.put_slice(a);
    w.put_byte(b'_');
    w.put_slice(b);
    Ok(w.at)
}

pub fn join(out: &mut [u8], a: &[u8], b: &[u8]) -> Result<usize, Refused>
    ensures { Answers (is_joinable a.now b.now) (join_of a.now b.now) out.old out.new result }
{
    check(is_joinable(a, b))?;
    store_join(out, a, b)
}

fn is_kept(name: &[u8]) -> bool
    requires { length name.now ≤ 128 }
    ensures { result ≡ survives name.now }
{
    let pascal = identifier::pascal(name);
    identifier::same(&pascal.bytes[..pascal.len], name)
}

/// Whether a name survives printing.
pub fn survives(name: &[u8]) -> Result<bool, Refused>
    ensures { result ≡ survival_of name.now }
{
    check(identifier::is_name(name))?;
    Ok(is_kept(name))
}

// The first name and the bytes behind it, where it is not cut short.
fn split_first_name(bytes: &[u8]) -> Option<(&[u8], &[u8])>
    ensures { MatchOption result (is_whole bytes.now ≡ false) (λ p. Split bytes.now p.0.now p.1.now) }
{
    let (size, rest) = bytes.split_at_checked(2)?;
    rest.split_at_checked(wire::u16_at(size, 0) as usize)
}

// The names in these bytes, up to the first that is cut short.
#[derive(Drop)]
struct Names<'a> {
    left: &'a [u8],
}

impl<'a> Iterator for Names<'a> {
    type Item = &'a [u8];

    ghost next_gives = { YieldsFirstRef (λ s. whole_of s.left.now) };

    ghost remaining = { item_count (λ s. whole_of s.left.now) };

    fn next(&mut self) -> Option<&'a [u8]> {
        let (name, rest) = split_first_name(self.left)?;
        self.left = rest;
        Some(name)
    }
}

fn is_namespace(ns: &[u8]) -> bool
    ensures { result ≡ is_namespace ns.now }
{
    let mut rest = ns;
    // What is left after so many names is asked, which `take` would lose.
    for _ in 0..MOST_NAMES {
        let Some((name, after)) = split_first_name(rest) else {
            break;
        };
        if !identifier::is_name(name) {
            return false;
        }
        rest = after;
    }
    rest.is_empty()
}

// Bytes that passed the check.
#[derive(Clone, Copy, Drop)]
struct Namespace<'a> {
    bytes: &'a [u8],
    ghost good: { is_namespace bytes.now ≡ true },
}

impl<'a> Namespace<'a> {
    fn checked(bytes: &'a [u8]) -> Result<Namespace<'a>, Refused>
        ensures { MatchResult result (λ ns. ns.bytes.now ≡ bytes.now) (λ e. (is_namespace bytes.now ≡ false) × (e ≡ refused_by Refusal.NotAName)) }
    {
        check(is_namespace(bytes))?;
        Ok(Namespace { bytes })
    }
}

fn put_text(w: &mut Writer, ns: Namespace)
    ensures { Puts w.old (text_of ns.entry.bytes.now) w.new }
{
    let mut names = Names { left: ns.bytes };
    if let Some(first) = names.next() {
        identifier::put_snake(w, first);
        for name in names {
            w.put_byte(b'.');
            identifier::put_snake(w, name);
        }
    }
}

fn store_text(out: &mut [u8], ns: Namespace) -> Result<usize, Refused>
    ensures { Answers true (text_of ns.entry.bytes.now) out.old out.new result }
{
    let mut measured = Writer::new(&mut []);
    put_text(&mut measured, ns);
    if out.len() < measured.at {
        return Err(Refusal::NoRoom.into());
    }
    let mut w = Writer::new(out);
    put_text(&mut w, ns);
    Ok(w.at)
}

/// The text of a namespace.
pub fn text(out: &mut [u8], ns: &[u8]) -> Result<usize, Refused>
    ensures { Answers (is_namespace ns.now) (text_of ns.now) out.old out.new result }
{
    store_text(out, Namespace::checked(ns)?)
}

fn count_names(ns: Namespace) -> usize
    ensures { result ≡ length (whole_of ns.entry.bytes.now) }
{
    Names { left: ns.bytes }.count()
}

// What follows the longest common start in each.
fn common<'a, 'b>(a: Namespace<'a>, b: Namespace<'b>) -> (&'a [u8], Namespace<'b>)
    ensures { Parted a.entry.bytes.now b.entry.bytes.now result.0.now result.1.bytes.now }
{
    let mut one = a.bytes;
    let mut other = b.bytes;
    // Both rests are the answer, which `zip` would lose.
    while let (Some((x, x_rest)), Some((y, y_rest))) = (
        split_first_name(one),
        split_first_name(other),
    ) {
        if !identifier::same(x, y) {
            break;
        }
        one = x_rest;
        other = y_rest;
    }
    (one, Namespace { bytes: other })
}

/// How many bytes were written, and how many steps it is up to the common start.
#[derive(Clone, Copy, Drop, PartialEq, Eq, Debug)]
pub struct Relative {
    pub size: usize,
    pub up: usize,
}

fn store_relative(out: &mut [u8], a: Namespace, b: Namespace) -> Result<Relative, Refused>
    ensures { Relatives true (relative_of a.entry.bytes.now b.entry.bytes.now) (steps_up a.entry.bytes.now b.entry.bytes.now) out.old out.new result }
{
    let (rest, other) = common(a, b);
    let size = store(out, rest)?;
    Ok(Relative {
        size,
        up: count_names(other),
    })
}

/// The first namespace relative to the second: the names after their longest common start, and the steps up from the second to it.
pub fn relativize(out: &mut [u8], a: &[u8], b: &[u8]) -> Result<Relative, Refused>
    ensures { Relatives (is_namespace a.now && is_namespace b.now) (relative_of a.now b.now) (steps_up a.now b.now) out.old out.new result }
{
    store_relative(out, Namespace::checked(a)?, Namespace::checked(b)?)
}
