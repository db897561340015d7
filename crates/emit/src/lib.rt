// The schema table of a token table that is read without errors. The walks step from cursor to cursor, by what the rules of the parser answer.
#![tactic(auto)]

ghost use Rattle.std.specs.Prelude.{◌≡◌, ltb};
ghost use Rattle.wire.specs.Puts.{Puts};
ghost use Rattle.token.specs.Places.{tokens_from, Wf};
ghost use Rattle.schema.specs.Encode.{indices, encode_deleted, encode_schema};
ghost use Rattle.grammar.specs.Sort.{sort_by};
ghost use Rattle.grammar.specs.Meaning.{schema_of};
ghost use Rattle.grammar.specs.Reading.{is_end, skip, parse_deleted, parse_schema};
ghost use Rattle.parser.specs.Steps.{ahead};
ghost use Rattle.places.specs.Imports.{Room};
ghost use Rattle.imports.specs.Imports.{Clear};
ghost use Rattle.emit.specs.Emits.{Emits, Before, fields_from, fields_bytes, declaration_from, declarations_from, declarations_bytes, is_other, Readable};
ghost use Rattle.emit.specs.Indices.{Sortable, deleted_bytes};

use parser::{Cursor, is_done, is_next, next, peek};
use places::Ordered;
use records::NOWHERE;
use schema::kind::Kind as RecordKind;
use sorted::Numbers;
use token::kind::Kind;
use wire::Writer;

// Whether the fields end at c.
fn is_end(t: &[u8], c: Cursor) -> bool
    requires { Wf t.now c.at }
    ensures { result ≡ is_end (ahead t.now c) }
{
    matches!(peek(t, c), None | Some(Kind::Deleted | Kind::RightCurly))
}

fn put_fields(w: &mut Writer, t: &[u8], from: Cursor) -> Cursor
    requires { Clear t.now from (fields_from t.now from) }
    ensures { Emits t.now w.old fields_bytes (fields_from t.now from) w.new result }
{
    let mut c = from;
    while !is_end(t, c) {
        let Ok((f, after)) = parser::parse_field(t, c) else {
            unreachable!();
        };
        records::put_field(w, t, f);
        c = after;
    }
    c
}

fn put_numbers(w: &mut Writer, items: &[u64])
    ensures { Puts w.old (indices items.now) w.new }
{
    for n in items {
        w.put_u64(*n);
    }
}

// These numbers, ascending.
fn put_indices(w: &mut Writer, items: &mut [u64], spare: &mut [u64])
    requires { Sortable items.old spare.old }
    ensures { Puts w.old (encode_deleted (sort_by ltb items.old)) w.new }
{
    if items.is_empty() {
        return;
    }
    sorted::sort(&Numbers, items, spare);
    records::put_record_head(w, RecordKind::Deleted, NOWHERE, 8 * items.len());
    put_numbers(w, items);
}

fn put_deleted(w: &mut Writer, t: &[u8], c: Cursor, items: &mut [u64], spare: &mut [u64])
    requires { (Wf t.now c.at) × (Room (ahead t.now c) items.old spare.old) }
    ensures { Puts w.old (deleted_bytes (parse_deleted (ahead t.now c)).value) w.new }
{
    if !is_next(t, c, Kind::Deleted) {
        return;
    }
    let n = places::collect_numbers(t, next(t, c), items).count;
    put_indices(w, &mut items[..n], spare);
}

// The first `}` from `from` on, or the end.
fn find_right(t: &[u8], from: Cursor) -> Cursor
    requires { Wf t.now from.at }
    ensures { Before t.now (skip is_other (ahead t.now from)) result }
{
    let mut c = from;
    loop {
        match peek(t, c) {
            None | Some(Kind::RightCurly) => return c,
            Some(_) => c = next(t, c),
        }
    }
}

// A declaration's own record stands before its fields and has the range up to its `}`, which is the first one from its body on.
fn put_declaration(
    w: &mut Writer,
    t: &[u8],
    c: Cursor,
    items: &mut [u64],
    spare: &mut [u64],
) -> Cursor
    requires { (Clear t.now c (declaration_from t.now c)) × (Room (ahead t.now c) items.old spare.old) }
    ensures { Emits t.now w.old declarations_bytes (declaration_from t.now c) w.new result }
{
    let Ok((h, body)) = parser::parse_head(t, c) else {
        unreachable!();
    };
    let right = find_right(t, body);
    records::put_head(w, t, h, right.at);
    let past = put_fields(w, t, body);
    put_deleted(w, t, past, items, spare);
    next(t, right)
}

fn put_declarations(w: &mut Writer, t: &[u8], from: Cursor, items: &mut [u64], spare: &mut [u64])
    requires { (Clear t.now from (declarations_from t.now from)) × (Room (ahead t.now from) items.old spare.old) }
    ensures { Puts w.old (declarations_bytes (declarations_from t.now from).value) w.new }
{
    let mut c = from;
    while !is_done(t, c) {
        c = put_declaration(w, t, c, items, spare);
    }
}

/// The schema table of t, whose imports are given in order; `items` and `spare` are lent for the work, as two lists since `sorted::sort` takes them so.
pub fn emit(
    w: &mut Writer,
    t: &[u8],
    imports: &[u64],
    order: Ordered,
    items: &mut [u64],
    spare: &mut [u64],
)
    requires { Readable t.now imports.now order items.old spare.old }
    ensures { Puts w.old (encode_schema (schema_of (parse_schema (tokens_from t.now 0)).value)) w.new }
{
    records::put_opening(w, t, order.comment);
    imports::put_imports(w, t, imports);
    put_declarations(w, t, order.next, items, spare);
}
