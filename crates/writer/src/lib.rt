// The canonical text of a schema table: schema.rs's writers, over the records of a table that the check let pass.
#![tactic(auto)]

ghost use Rattle.std.specs.Prelude.{◌≡◌, true, ◌+◌, ◌*◌, ◌<◌, ◌≤◌, length};
ghost use Rattle.wire.specs.Le.{u16_at};
ghost use Rattle.wire.specs.Put.{Wrote};
ghost use Rattle.wire.specs.Puts.{Puts};
ghost use Rattle.token.specs.Kinds as token_kinds;
ghost use Rattle.schema.specs.Kinds.{number_of};
ghost use Rattle.schema.specs.Payload.{is_field, is_plain_type};
ghost use Rattle.schema.specs.Table.{records_of, is_inside, is_type, is_schema_table};
ghost use Rattle.schema.specs.Decode.{declarations_of, schema_of};
ghost use Rattle.schema.specs.Walk.{records_from, Stands};
ghost use Rattle.text.specs.Text.{type_text, is_unit, field_type, declarations_text, text_of};
ghost use Rattle.writer.specs.Parts.{type_at, depth_at, is_base, base_text, field_from, is_commented};
ghost use Rattle.writer.specs.Written.{Writes};
ghost use Rattle.writer.specs.Steps.{Nested, Outside, Opened, Fielded, Fields, Ended, Declared, Imported, Commented};

use schema::kind::Kind;
use token::kind::Kind as TokenKind;
use wire::{Refusal, Refused, Writer};

// Records are told by their places in the table, as schema tells them (`known_kind_at`, `next_at`, `payload_at`), so the loops over them step from place to
// place.

// The place of the type inside all arrays of a type.
fn innermost(t: &[u8], from: usize) -> usize
    requires { Stands t.now from is_type }
    ensures { result ≡ from + 12 * depth_at t.now from }
{
    let mut at = from;
    while schema::known_kind_at(t, at) == Kind::Array {
        at += 12;
    }
    at
}

// The token kind of a plain type, from its payload.
fn plain_kind(p: &[u8]) -> TokenKind
    requires { is_plain_type p.now ≡ true }
    ensures { token_kinds.number_of result ≡ u16_at p.now 0 }
{
    TokenKind::try_from(wire::u16_at(p, 0)).unwrap()
}

// A plain type or a custom one.
fn put_base(w: &mut Writer, kind: Kind, p: &[u8])
    requires { is_base (number_of kind) p.now ≡ true }
    ensures { Puts w.old (base_text (number_of kind) p.now) w.new }
{
    match kind {
        Kind::Plain => text::put_plain_of_kind(w, plain_kind(p)),
        _ => text::put_custom(w, schema::name_of(p), schema::after_name(p)),
    }
}

// Type and TypeVariant write each other; `left` is the number of arrays still inside, which bounds how deep the calls go.
#[cycle(put_type_put_variant)]
fn put_type(w: &mut Writer, t: &[u8], from: usize, left: usize)
    requires { Nested t.now from left }
    ensures { Puts w.old (type_text (type_at t.now from)) w.new }
{
    put_variant(w, t, from, left);
}

#[cycle(put_type_put_variant)]
fn put_variant(w: &mut Writer, t: &[u8], from: usize, left: usize)
    requires { Nested t.now from left }
    ensures { Puts w.old (type_text (type_at t.now from)) w.new }
{
    match schema::known_kind_at(t, from) {
        Kind::Array => {
            w.put_byte(b'[');
            put_type(w, t, from + 12, left - 1);
            w.put_byte(b']');
        }
        kind => put_base(w, kind, schema::payload_at(t, from)),
    }
}

fn is_unit(t: &[u8], from: usize) -> bool
    requires { Stands t.now from is_type }
    ensures { result ≡ is_unit (type_at t.now from) }
{
    schema::known_kind_at(t, from) == Kind::Plain
        && plain_kind(schema::payload_at(t, from)) == TokenKind::Unit
}

// A field's own Unit type is omitted.
fn put_field_type(w: &mut Writer, t: &[u8], from: usize, left: usize)
    requires { Nested t.now from left }
    ensures { Puts w.old (field_type (type_at t.now from)) w.new }
{
    if !is_unit(t, from) {
        w.put_slice(b": ");
        put_type(w, t, from, left);
    }
}

// A field from its payload and its type, which begins at `next`.
fn put_field(w: &mut Writer, p: &[u8], t: &[u8], next: usize, left: usize)
    requires { (is_field p.now ≡ true) × Nested t.now next left }
    ensures { Puts w.old (field_from p.now (type_at t.now next)) w.new }
{
    text::put_field_name(w, p[0], &p[9..]);
    put_field_type(w, t, next, left);
    text::put_field_index(w, wire::u64_at(p, 1));
}

// Whether a field has a comment, from its payload.
fn has_comment(p: &[u8]) -> bool
    requires { is_field p.now ≡ true }
    ensures { result ≡ is_commented p.now }
{
    2 < schema::after_name(&p[9..]).len()
}

fn put_fields(w: &mut Writer, t: &[u8], from: usize) -> usize
    requires { Stands t.now from is_inside }
    ensures { Fields t.now from w.old result w.new }
{
    let mut at = from;
    // Whether the field before has a comment decides the line between the two.
    let mut commented = false;
    while at < t.len() && schema::known_kind_at(t, at) == Kind::Field {
        let next = schema::next_at(t, at);
        let inner = innermost(t, next);
        let p = schema::payload_at(t, at);
        let has = has_comment(p);
        text::put_blank(w, at != from && (commented || has));
        put_field(w, p, t, next, (inner - next) / 12);
        commented = has;
        at = schema::next_at(t, inner);
    }
    at
}

// What stands after a declaration's fields: its deleted indices, where there are any, and its end.
fn put_end(w: &mut Writer, t: &[u8], at: usize, fields: bool) -> usize
    requires { Fielded t.now at }
    ensures { Ended t.now at fields w.old result w.new }
{
    let mut next = at;
    if at < t.len() && schema::known_kind_at(t, at) == Kind::Deleted {
        text::put_deleted(w, fields, schema::payload_at(t, at));
        next = schema::next_at(t, at);
    }
    w.put_slice(b"}\n");
    next
}

fn put_declaration(w: &mut Writer, t: &[u8], at: usize) -> usize
    requires { Outside t.now at × (at < length t.now) }
    ensures { Declared t.now at w.old result w.new }
{
    let first = schema::next_at(t, at);
    text::put_head_of_kind(w, schema::known_kind_at(t, at), schema::payload_at(t, at));
    let end = put_fields(w, t, first);
    put_end(w, t, end, end != first)
}

fn put_declarations(w: &mut Writer, t: &[u8], from: usize, imported: bool)
    requires { Outside t.now from }
    ensures { Puts w.old (declarations_text imported (declarations_of (records_from t.now from))) w.new }
{
    let mut parted = imported;
    let mut at = from;
    while at < t.len() {
        text::put_blank(w, parted);
        at = put_declaration(w, t, at);
        parted = true;
    }
}

fn put_imports(w: &mut Writer, t: &[u8], from: usize) -> usize
    requires { Opened t.now from }
    ensures { Imported t.now from w.old result w.new }
{
    let mut at = from;
    while at < t.len() && schema::known_kind_at(t, at) == Kind::Import {
        let p = schema::payload_at(t, at);
        text::put_import(w, schema::name_of(p), schema::after_name(p));
        at = schema::next_at(t, at);
    }
    at
}

// The schema comment, where there is one, parted from what follows.
fn put_opening(w: &mut Writer, t: &[u8]) -> usize
    requires { is_schema_table t.now ≡ true }
    ensures { Commented t.now w.old result w.new }
{
    if t.is_empty() || schema::known_kind_at(t, 0) != Kind::Comment {
        return 0;
    }
    let next = schema::next_at(t, 0);
    text::put_comment(w, b"", schema::payload_at(t, 0));
    text::put_blank(w, next < t.len());
    next
}

fn put_schema(w: &mut Writer, t: &[u8])
    requires { is_schema_table t.now ≡ true }
    ensures { Puts w.old (text_of (schema_of (records_of t.now))) w.new }
{
    let first = put_opening(w, t);
    let next = put_imports(w, t, first);
    put_declarations(w, t, next, next != first);
}

// The text from the buffer's start on, and its length, however much of it the buffer holds.
fn put_text(t: &[u8], out: &mut [u8]) -> usize
    requires { is_schema_table t.now ≡ true }
    ensures { Wrote out.old 0 (text_of (schema_of (records_of t.now))) out.new result }
{
    let mut w = Writer { out, at: 0 };
    put_schema(&mut w, t);
    w.at
}

fn write_measured(t: &[u8], out: &mut [u8]) -> Result<usize, Refused>
    requires { (length t.now ≤ 131072) × (is_schema_table t.now ≡ true) }
    ensures { Writes t.now out.old out.new result }
{
    let need = put_text(t, &mut out[..0]);
    if out.len() < need {
        return Err(Refusal::NoRoom.into());
    }
    Ok(put_text(t, out))
}

// A text has at most four bytes for each byte of its table: it is measured first only where those might not fit.
fn write_table(t: &[u8], out: &mut [u8]) -> Result<usize, Refused>
    requires { (length t.now ≤ 131072) × (is_schema_table t.now ≡ true) }
    ensures { Writes t.now out.old out.new result }
{
    if t.len() <= out.len() / 4 {
        return Ok(put_text(t, out));
    }
    write_measured(t, out)
}

// The canonical text of a schema table, at the start of the buffer. An empty table has none.
pub fn write(t: &[u8], out: &mut [u8]) -> Result<usize, Refused>
    ensures { Writes t.now out.old out.new result }
{
    if t.is_empty() {
        return Ok(0);
    }
    schema::check(t)?;
    write_table(t, out)
}
