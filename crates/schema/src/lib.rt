// Schema tables: the check of document 01 (R9), and the walk over a table that passed it.
#![tactic(auto)]

ghost use Rattle.std.specs.Prelude.{◌≡◌, true, false, ◌+◌, ◌≤◌, ◌<◌, length, MatchOption};
ghost use Rattle.wire.specs.Le.{u16_at};
ghost use Rattle.identifier.specs.Order.{is_before};
ghost use Rattle.token.specs.Split.{held};
ghost use Rattle.schema.specs.Kinds.{number_of, number_at};
ghost use Rattle.schema.specs.Payload.{is_sized, name_of, after_name, is_named, is_import, is_counted, is_declaration, is_field};
ghost use Rattle.schema.specs.Payload.{is_deleted, is_plain_type, is_custom, is_payload};
ghost use Rattle.schema.specs.Table.{is_outside, is_importing, is_opening, is_inside, is_type, may_follow, row_after, is_later};
ghost use Rattle.schema.specs.Table.{is_next, seen, Adds, is_schema_table};
ghost use Rattle.schema.specs.Checked.{checked};
ghost use Rattle.schema.specs.Walk.{kind_at, start_at, end_at, next_at, payload_at, WholeAt};

pub mod kind;

use identifier::is_name;
use kind::Kind;
use token::kind::Kind as TokenKind;
use token::{Record, split_record, split_sized};
use wire::{Refusal, Refused};

// Where a name ends that begins with its length.
#[tactic(auto, unfolding(crate::specs::Payload::is_sized))]
fn name_end(p: &[u8]) -> usize
    requires { is_sized p.now ≡ true }
    ensures end { result ≡ 2 + u16_at p.now 0 }
    ensures inside { result ≤ length p.now }
{
    2 + wire::u16_at(p, 0) as usize
}

// A name after its length, and what follows it.
#[tactic(auto, unfolding(token::specs::Payload::paragraph_of))]
pub fn name_of(p: &[u8]) -> &[u8]
    requires { is_sized p.now ≡ true }
    ensures { result.now ≡ name_of p.now }
{
    &p[2..name_end(p)]
}

#[tactic(auto, unfolding(token::specs::Payload::after_paragraph))]
pub fn after_name(p: &[u8]) -> &[u8]
    requires { is_sized p.now ≡ true }
    ensures { result.now ≡ after_name p.now }
{
    &p[name_end(p)..]
}

// What follows the name that these bytes begin with, if they do.
#[tactic(auto, unfolding(crate::specs::Payload::is_named, crate::specs::Payload::is_sized))]
fn strip_name(p: &[u8]) -> Option<&[u8]>
    ensures { MatchOption result (is_named p.now ≡ false) (λ rest. (is_named p.now ≡ true) × (rest.now ≡ after_name p.now)) }
{
    let (name, rest) = split_sized(p)?;
    if is_name(name) { Some(rest) } else { None }
}

#[tactic(auto, unfolding(crate::specs::Payload::is_import))]
fn is_import(p: &[u8]) -> bool
    ensures { result ≡ is_import p.now }
{
    let Some(path) = strip_name(p) else {
        return false;
    };
    token::is_path(path)
}

#[tactic(auto, unfolding(crate::specs::Payload::is_counted))]
fn is_counted(p: &[u8]) -> bool
    ensures { result ≡ is_counted p.now }
{
    if p.len() < 2 {
        return false;
    }
    let count = wire::u16_at(p, 0);
    let comment = &p[2..];
    if comment.is_empty() {
        return count == 0;
    }
    token::is_comment(comment) && count == token::paragraph_count(comment)
}

#[tactic(auto, unfolding(crate::specs::Payload::is_declaration))]
fn is_declaration(p: &[u8]) -> bool
    ensures { result ≡ is_declaration p.now }
{
    let Some(comment) = strip_name(p) else {
        return false;
    };
    is_counted(comment)
}

#[tactic(auto, unfolding(crate::specs::Payload::is_field))]
fn is_field(p: &[u8]) -> bool
    ensures { result ≡ is_field p.now }
{
    // A field's rule is 0, 1 or 2.
    9 <= p.len() && p[0] <= 2 && is_declaration(&p[9..])
}

#[tactic(auto, unfolding(crate::specs::Payload::is_deleted))]
fn is_deleted(p: &[u8]) -> bool
    ensures { result ≡ is_deleted p.now }
{
    let (indices, rest) = p.as_chunks::<8>();
    if indices.is_empty() || !rest.is_empty() {
        return false;
    }
    indices.is_sorted_by(|a, b| wire::u64_at(a, 0) < wire::u64_at(b, 0))
}

#[tactic(auto, unfolding(crate::specs::Payload::is_plain_type))]
fn is_plain_type(p: &[u8]) -> bool
    ensures { result ≡ is_plain_type p.now }
{
    p.len() == 2 && TokenKind::try_from(wire::u16_at(p, 0)).is_ok_and(TokenKind::is_plain)
}

#[tactic(auto, unfolding(crate::specs::Payload::is_custom, crate::specs::Payload::is_sized))]
fn is_custom(p: &[u8]) -> bool
    ensures { result ≡ is_custom p.now }
{
    let Some((import, name)) = split_sized(p) else {
        return false;
    };
    (import.is_empty() || is_name(import)) && is_name(name)
}

#[tactic(auto, unfolding(crate::specs::Payload::is_payload, crate::specs::Payload::is_type_payload, wire::specs::Pick::pick))]
fn is_payload(kind: Kind, p: &[u8]) -> bool
    ensures { result ≡ is_payload (number_of kind) p.now }
{
    match kind {
        Kind::Comment => token::is_comment(p),
        Kind::Import => is_import(p),
        Kind::Struct | Kind::Choice => is_declaration(p),
        Kind::Field => is_field(p),
        Kind::Deleted => is_deleted(p),
        Kind::Array => p.is_empty(),
        Kind::Plain => is_plain_type(p),
        Kind::Custom => is_custom(p),
    }
}

// None is a table's start or its end.
fn is_outside(kind: Option<Kind>) -> bool
    ensures { result ≡ is_outside (number_at kind) }
{
    matches!(kind, None | Some(Kind::Struct | Kind::Choice))
}

fn is_importing(kind: Option<Kind>) -> bool
    ensures { result ≡ is_importing (number_at kind) }
{
    matches!(kind, Some(Kind::Import)) || is_outside(kind)
}

fn is_opening(kind: Option<Kind>) -> bool
    ensures { result ≡ is_opening (number_at kind) }
{
    matches!(kind, Some(Kind::Comment)) || is_importing(kind)
}

fn is_inside(kind: Option<Kind>) -> bool
    ensures { result ≡ is_inside (number_at kind) }
{
    matches!(kind, Some(Kind::Field | Kind::Deleted)) || is_outside(kind)
}

fn is_type(kind: Option<Kind>) -> bool
    ensures { result ≡ is_type (number_at kind) }
{
    matches!(kind, Some(Kind::Array | Kind::Plain | Kind::Custom))
}

#[tactic(auto, unfolding(crate::specs::Table::may_follow, wire::specs::Pick::pick))]
fn may_follow(last: Option<Kind>, kind: Option<Kind>) -> bool
    ensures { result ≡ may_follow (number_at last) (number_at kind) }
{
    match last {
        None => is_opening(kind),
        Some(Kind::Comment | Kind::Import) => is_importing(kind),
        Some(Kind::Field | Kind::Array) => is_type(kind),
        Some(Kind::Deleted) => is_outside(kind),
        Some(Kind::Struct | Kind::Choice | Kind::Plain | Kind::Custom) => is_inside(kind),
    }
}

// token's walk in form; what is asked of the table and the kinds differ, and one walk for both would want a trait.
// The record at a place: the number of its kind, its source range, what it holds, and the place after it.
pub fn kind_at(t: &[u8], at: usize) -> u16
    requires { at + 4 ≤ length t.now }
    ensures { result ≡ kind_at t.now at }
{
    wire::u16_at(t, at + 2)
}

// The kind of a record that the check let pass.
pub fn known_kind_at(t: &[u8], at: usize) -> Kind
    requires { (WholeAt t.now at) × (is_payload (kind_at t.now at) (payload_at t.now at) ≡ true) }
    ensures { number_of result ≡ kind_at t.now at }
{
    Kind::try_from(kind_at(t, at)).unwrap()
}

pub fn start_at(t: &[u8], at: usize) -> u32
    requires { at + 8 ≤ length t.now }
    ensures { result ≡ start_at t.now at }
{
    wire::u32_at(t, at + 4)
}

pub fn end_at(t: &[u8], at: usize) -> u32
    requires { at + 12 ≤ length t.now }
    ensures { result ≡ end_at t.now at }
{
    wire::u32_at(t, at + 8)
}

pub fn next_at(t: &[u8], at: usize) -> usize
    requires { (at + 2 ≤ length t.now) × (next_at t.now at ≤ length t.now) }
    ensures { result ≡ next_at t.now at }
{
    at + (wire::u16_at(t, at) as usize)
}

pub fn payload_at(t: &[u8], at: usize) -> &[u8]
    requires { WholeAt t.now at }
    ensures { result.now ≡ payload_at t.now at }
{
    let next = next_at(t, at);
    &t[at + 12..next]
}

#[tactic(auto, unfolding(identifier::specs::Order::is_before))]
fn is_before(a: &[u8], b: &[u8]) -> bool
    ensures { result ≡ is_before a.now b.now }
{
    identifier::compare(a, b).is_lt()
}

// As token's, over other kinds.
#[tactic(auto, unfolding(crate::specs::Table::row_after, wire::specs::Pick::pick))]
fn row_after(row: usize, kind: Kind) -> usize
    requires { row ≤ 64 }
    ensures { result ≡ row_after row (number_of kind) }
{
    match kind {
        Kind::Array => row + 1,
        _ => 0,
    }
}

// What the records so far leave: the last one's kind and payload, none and empty before the first, and how many arrays in a row.
#[derive(Clone, Copy, Drop)]
struct Before<'a> {
    kind: Option<Kind>,
    // Three tests ask the kind alone, and only `is_later` the payload.
    payload: &'a [u8],
    row: usize,
    ghost shallow: { row ≤ 64 },
    ghost sized: { number_at kind ≡ 102 → is_sized payload.now ≡ true },
}

impl<'a> Before<'a> {
    // Imports ascend by snake case.
    #[tactic(auto, unfolding(crate::specs::Table::is_later, wire::specs::Pick::pick))]
    fn is_later(self, kind: Kind, p: &[u8]) -> bool
        requires { number_of kind ≡ 102 → is_sized p.now ≡ true }
        ensures { result ≡ is_later (number_at self.entry.kind) self.entry.payload.now (number_of kind) p.now }
    {
        match (self.kind, kind) {
            (Some(Kind::Import), Kind::Import) => is_before(name_of(self.payload), name_of(p)),
            _ => true,
        }
    }

    // With one more record, if it is right after them.
    #[tactic(auto, using(crate::proofs::Judging::of_payloads), unfolding(crate::specs::Table::is_next, crate::specs::Table::is_right))]
    fn add(self, r: Record<'a>) -> Option<Before<'a>>
        ensures { let last = seen (number_at self.entry.kind) self.entry.payload.now in MatchOption result (is_next last self.entry.row (held r.entry) ≡ false)
            (λ b. Adds last self.entry.row (held r.entry) (number_at b.kind) b.payload.now b.row) }
    {
        let Ok(kind) = Kind::try_from(r.kind) else {
            return None;
        };
        let payload = r.payload;
        if !may_follow(self.kind, Some(kind)) || !is_payload(kind, payload) {
            return None;
        }
        let row = row_after(self.row, kind);
        if 64 < row || !self.is_later(kind, payload) {
            return None;
        }
        Some(Before {
            kind: Some(kind),
            payload,
            row,
        })
    }
}

fn is_table(t: &[u8]) -> bool
    ensures { result ≡ is_schema_table t.now }
{
    let mut before = Before {
        kind: None,
        payload: &[],
        row: 0,
    };
    let mut rest = t;
    // The state and what is left step together, and either ends it.
    while !rest.is_empty() {
        let Some((record, after)) = split_record(rest) else {
            return false;
        };
        let Some(next) = before.add(record) else {
            return false;
        };
        before = next;
        rest = after;
    }
    may_follow(before.kind, None)
}

#[tactic(auto, unfolding(crate::specs::Checked::checked, crate::specs::Decode::decode_schema, wire::specs::Pick::pick))]
pub fn check(t: &[u8]) -> Result<(), Refused>
    ensures { result ≡ checked t.now }
{
    if 131072 < t.len() {
        return Err(Refusal::TableTooLong.into());
    }
    if !is_table(t) {
        return Err(Refusal::NotASchema.into());
    }
    Ok(())
}
