// Token tables: the check of document 01 (R1 to R7), and the walk over a table that passed it.
#![tactic(auto)]

ghost use Rattle.std.specs.Prelude.{◌≡◌, ◌+◌, ◌≤◌, ◌<◌, true, false, length, MatchOption};
ghost use Rattle.wire.specs.Le.{le_number, u16_at};
ghost use Rattle.token.specs.Kind.{k_integer};
ghost use Rattle.token.specs.Kinds.{number_of};
ghost use Rattle.token.specs.Payload.{is_name_start, is_name_byte, is_path_byte, is_identifier, is_path, is_paragraph, is_comment, is_payload, paragraphs_of};
ghost use Rattle.token.specs.Table.{token_of, is_whole, row_after, token_fault, fault_of};
ghost use Rattle.token.specs.Split.{held, after_record, SplitsRecord, SplitsSized};
ghost use Rattle.token.specs.Checked.{Faults, Passed, numbered, checked};
ghost use Rattle.token.specs.Places.{tok_at, next_at, Wf};

pub mod kind;

use identifier::class_of;
use kind::Kind;
use wire::{Refusal, Refused};

// of a name or a path
const LONGEST: usize = 128;

// Three bounds on a byte's class, each with a law of its own.
#[tactic(auto, using(identifier::proofs::Table::class_start))]
fn is_name_start(b: u8) -> bool
    ensures { result ≡ is_name_start b }
{
    6 <= class_of(b)
}

#[tactic(auto, using(identifier::proofs::Table::class_name))]
fn is_name_byte(b: u8) -> bool
    ensures { result ≡ is_name_byte b }
{
    4 <= class_of(b)
}

#[tactic(auto, using(identifier::proofs::Table::class_path))]
fn is_path_byte(b: u8) -> bool
    ensures { result ≡ is_path_byte b }
{
    2 <= class_of(b)
}

#[tactic(auto, unfolding(crate::specs::Payload::is_identifier))]
fn is_identifier(p: &[u8]) -> bool
    ensures { result ≡ is_identifier p.now }
{
    if p.is_empty() || LONGEST < p.len() || !is_name_start(p[0]) {
        return false;
    }
    p.iter().all(|b| is_name_byte(*b))
}

#[tactic(auto, unfolding(crate::specs::Payload::is_path))]
pub fn is_path(p: &[u8]) -> bool
    ensures { result ≡ is_path p.now }
{
    p.len() <= LONGEST && p.iter().all(|b| is_path_byte(*b))
}

// No early return in the loop: the compiler then tests many bytes at once.
#[tactic(auto, unfolding(crate::specs::Payload::is_paragraph))]
fn is_paragraph(p: &[u8]) -> bool
    ensures { result ≡ is_paragraph p.now }
{
    if p.is_empty() || 1024 < p.len() {
        return false;
    }
    let mut gap = true;
    let mut good = true;
    for b in p {
        let class = class_of(*b);
        let space = class == 2;
        good &= (0 < class) & !(gap & space);
        gap = space;
    }
    good & !gap
}

/// The bytes that their number, a u16, comes before, and what follows them.
pub fn split_sized(p: &[u8]) -> Option<(&[u8], &[u8])>
    ensures { MatchOption result (length p.now < 2 + u16_at p.now 0) (λ s. SplitsSized p.now s.0.now s.1.now) }
{
    if p.len() < 2 {
        return None;
    }
    p[2..].split_at_checked(wire::u16_at(p, 0) as usize)
}

#[tactic(auto, unfolding(crate::specs::Payload::is_comment))]
pub fn is_comment(p: &[u8]) -> bool
    ensures { result ≡ is_comment p.now }
{
    let mut rest = p;
    for _ in 0..32usize {
        let Some((paragraph, after)) = split_sized(rest) else {
            return false;
        };
        if !is_paragraph(paragraph) {
            return false;
        }
        if after.is_empty() {
            return true;
        }
        rest = after;
    }
    false
}

/// How many paragraphs a Comment's payload holds.
pub fn paragraph_count(p: &[u8]) -> u16
    requires { is_comment p.now ≡ true }
    ensures { result ≡ length (paragraphs_of p.now) }
{
    let mut count: u16 = 0;
    let mut rest = p;
    while let Some((_, after)) = split_sized(rest) {
        count += 1;
        rest = after;
    }
    count
}

#[tactic(auto, unfolding(crate::specs::Payload::is_payload, crate::specs::Payload::is_integer, wire::specs::Pick::pick))]
fn is_payload(kind: Kind, p: &[u8]) -> bool
    ensures { result ≡ is_payload (number_of kind) p.now }
{
    match kind {
        Kind::Identifier => is_identifier(p),
        Kind::Path => is_path(p),
        Kind::Integer => p.len() == 8,
        Kind::Comment => is_comment(p),
        _ => p.is_empty(),
    }
}

/// A record of a table: its kind's number, its source range and what it holds.
#[derive(Clone, Copy, Drop)]
pub struct Record<'a> {
    // Still a number: token and schema tables have different kinds, and each check decodes its own.
    pub kind: u16,
    pub start: u32,
    pub end: u32,
    pub payload: &'a [u8],
}

/// Whether these bytes begin with a whole record.
#[tactic(auto, using(crate::proofs::Records::whole_is))]
pub fn is_whole(bs: &[u8]) -> bool
    ensures { result ≡ is_whole bs.now }
{
    if bs.len() < 12 {
        return false;
    }
    let size = wire::u16_at(bs, 0) as usize;
    12 <= size && size <= bs.len()
}

/// The record that these bytes begin with, if it is whole, and what follows it.
#[tactic(auto, using(crate::proofs::Records::whole_is))]
pub fn split_record(bs: &[u8]) -> Option<(Record<'_>, &[u8])>
    ensures { MatchOption result (is_whole bs.now ≡ false) (λ s. SplitsRecord bs.now s.0 s.1.now) }
{
    if !is_whole(bs) {
        return None;
    }
    let size = wire::u16_at(bs, 0) as usize;
    let record = Record {
        kind: wire::u16_at(bs, 2),
        start: wire::u32_at(bs, 4),
        end: wire::u32_at(bs, 8),
        payload: &bs[12..size],
    };
    Some((record, &bs[size..]))
}

#[tactic(auto, unfolding(crate::specs::Table::row_after, wire::specs::Pick::pick))]
fn row_after(row: usize, kind: Kind) -> usize
    requires { row ≤ 64 }
    ensures { result ≡ row_after row (number_of kind) }
{
    match kind {
        Kind::LeftSquare => row + 1,
        _ => 0,
    }
}

// What the tokens so far leave: where the last of them ends, and how many LeftSquares in a row.
#[derive(Clone, Copy, Drop)]
struct Before {
    end: u32,
    row: usize,
    ghost shallow: { row ≤ 64 },
}

impl Before {
    // With one more token, unless it is refused.
    #[tactic(auto, unfolding(crate::specs::Table::token_fault, wire::specs::Pick::pick))]
    fn add(self, token: Record) -> Result<Before, Refusal>
        ensures { Faults (token_fault self.end self.row (held token.entry)) result (λ b. Passed self.row (held token.entry) b.end b.row) }
    {
        let Ok(kind) = Kind::try_from(token.kind) else {
            return Err(Refusal::UnknownKind);
        };
        if !is_payload(kind, token.payload) {
            return Err(Refusal::WrongPayload);
        }
        if token.start < self.end || token.end < token.start {
            return Err(Refusal::WrongRange);
        }
        let row = row_after(self.row, kind);
        if 64 < row {
            return Err(Refusal::TooManyBrackets);
        }
        Ok(Before {
            end: token.end,
            row,
        })
    }

    // With the token that these bytes begin with, and the bytes that follow it.
    #[tactic(auto, unfolding(crate::specs::Table::fault_of, wire::specs::Pick::pick))]
    fn add_first(self, bs: &[u8]) -> Result<(Before, &[u8]), Refusal>
        ensures { Faults (fault_of self.end self.row bs.now) result
            (λ s. Passed self.row (token_of bs.now) s.0.end s.0.row × (s.1.now ≡ after_record bs.now)) }
    {
        let Some((token, rest)) = split_record(bs) else {
            return Err(Refusal::RecordCutShort);
        };
        Ok((self.add(token)?, rest))
    }
}

/// How many tokens a table holds, and where the last of them ends.
#[derive(Clone, Copy, Drop, PartialEq, Eq, Debug)]
pub struct Checked {
    pub count: usize,
    pub end: u32,
}

// Record by record, in a table that is not too large.
fn check_records(t: &[u8]) -> Result<Checked, Refused>
    requires { length t.now ≤ 65536 }
    ensures { numbered result ≡ checked t.now }
{
    let mut count: usize = 0;
    let mut before = Before { end: 0, row: 0 };
    let mut rest = t;
    while !rest.is_empty() {
        let offset = t.len() - rest.len();
        if count == 4096 {
            return Err(Refused {
                refusal: Refusal::TooManyTokens,
                offset,
            });
        }
        (before, rest) = before
            .add_first(rest)
            .map_err(|refusal| Refused { refusal, offset })?;
        count += 1;
    }
    Ok(Checked {
        count,
        end: before.end,
    })
}

#[tactic(auto, using(crate::proofs::Records::checked_large))]
pub fn check(t: &[u8]) -> Result<Checked, Refused>
    ensures { numbered result ≡ checked t.now }
{
    if 65536 < t.len() {
        return Err(Refusal::TableTooLong.into());
    }
    check_records(t)
}

// The walk over a table that passed the check: what stands at a place, and the place after it.
/// The number of a token's kind, which need not be decoded to be compared with one that is known.
pub fn number_at(t: &[u8], at: usize) -> u16
    requires { (Wf t.now at) × (at < length t.now) }
    ensures { result ≡ (tok_at t.now at).kind }
{
    wire::u16_at(t, at + 2)
}

pub fn kind_at(t: &[u8], at: usize) -> Kind
    requires { (Wf t.now at) × (at < length t.now) }
    ensures { number_of result ≡ (tok_at t.now at).kind }
{
    Kind::try_from(number_at(t, at)).unwrap()
}

pub fn start_at(t: &[u8], at: usize) -> u32
    requires { (Wf t.now at) × (at < length t.now) }
    ensures { result ≡ (tok_at t.now at).start }
{
    wire::u32_at(t, at + 4)
}

pub fn end_at(t: &[u8], at: usize) -> u32
    requires { (Wf t.now at) × (at < length t.now) }
    ensures { result ≡ (tok_at t.now at).end }
{
    wire::u32_at(t, at + 8)
}

pub fn payload_at(t: &[u8], at: usize) -> &[u8]
    requires { (Wf t.now at) × (at < length t.now) }
    ensures { result.now ≡ (tok_at t.now at).payload }
{
    let size = wire::u16_at(t, at) as usize;
    &t[at + 12..at + size]
}

pub fn integer_at(t: &[u8], at: usize) -> u64
    requires { (Wf t.now at) × (at < length t.now) × ((tok_at t.now at).kind ≡ k_integer) }
    ensures { result ≡ le_number (tok_at t.now at).payload }
{
    wire::u64_at(t, at + 12)
}

pub fn next_at(t: &[u8], at: usize) -> usize
    requires { (Wf t.now at) × (at < length t.now) }
    ensures { result ≡ next_at t.now at }
{
    at + wire::u16_at(t, at) as usize
}
