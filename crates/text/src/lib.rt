// The canonical text of a schema, as schema.rs writes it.
#![tactic(auto)]

ghost use Rattle.std.specs.Prelude.{◌≡◌, true, ◌≤◌, length, drop};
ghost use mathlib.Core.List.{flat_map};
ghost use Rattle.wire.specs.Puts.{Puts};
ghost use Rattle.token.specs.Kinds.{number_of};
ghost use Rattle.token.specs.Payload.{are_paragraphs, paragraphs_of};
ghost use Rattle.schema.specs.Kinds as schema_kinds;
ghost use Rattle.schema.specs.Payload.{is_declaration, is_deleted, name_of, after_name, indices_of};
ghost use Rattle.schema.specs.Decode.{optional, rule_of, variant_of, comment_of};
ghost use Rattle.text.specs.Wrap.{LineEnds};
ghost use Rattle.text.specs.Text.{blank, line_text, paragraph_text, mark, comment_text, is_inferred, import_text, plain_text, custom_text, rule_text, field_name, field_index, index_text, deleted_text, variant_text, head_text};

use identifier::{put_pascal, put_snake};
use schema::kind::Kind as SchemaKind;
use token::kind::Kind;
use wire::Writer;

const MAX_COLUMNS: usize = 79;

// The indentation is one of two constants.
fn put_line(w: &mut Writer, indentation: &[u8], line: &[u8])
    ensures { Puts w.old (line_text indentation.now line.now) w.new }
{
    w.put_slice(indentation);
    w.put_slice(b"# ");
    w.put_slice(line);
    w.put_byte(b'\n');
}

// Where a paragraph's first line ends, if another follows: at the last space that keeps it within the width, or else after the first word.
fn line_end(s: &[u8], width: usize) -> Option<usize>
    ensures { LineEnds width s.now result }
{
    if s.len() <= width {
        return None;
    }
    match s[..=width].iter().rposition(|b| *b == b' ') {
        Some(end) => Some(end),
        None => s.iter().position(|b| *b == b' '),
    }
}

fn put_paragraph(w: &mut Writer, indentation: &[u8], s: &[u8])
    ensures { Puts w.old (paragraph_text indentation.now s.now) w.new }
{
    let width = (MAX_COLUMNS - 2).saturating_sub(indentation.len());
    let mut rest = s;
    // The last line is what is left.
    while let Some(end) = line_end(rest, width) {
        let (line, left) = rest.split_at(end);
        put_line(w, indentation, line);
        rest = &left[1..];
    }
    put_line(w, indentation, rest);
}

// `later` is as the definition `mark` takes it.
// A line of `#` before a paragraph, where it comes later than another.
fn put_mark(w: &mut Writer, indentation: &[u8], later: bool)
    ensures { Puts w.old (mark indentation.now later) w.new }
{
    if later {
        w.put_slice(indentation);
        w.put_slice(b"#\n");
    }
}

// A comment, from its paragraphs as a table has them.
pub fn put_comment(w: &mut Writer, indentation: &[u8], ps: &[u8])
    requires { are_paragraphs 32 ps.now ≡ true }
    ensures { Puts w.old (comment_text indentation.now (paragraphs_of ps.now)) w.new }
{
    let mut rest = ps;
    while !rest.is_empty() {
        put_mark(w, indentation, rest.len() < ps.len());
        let size = wire::u16_at(rest, 0) as usize;
        let (paragraph, left) = rest[2..].split_at(size);
        put_paragraph(w, indentation, paragraph);
        rest = left;
    }
}

// The comment of a declaration or a field, after its count. Most have none: a test here costs less than the call.
fn put_counted(w: &mut Writer, indentation: &[u8], p: &[u8])
    requires { (2 ≤ length p.now) × (are_paragraphs 32 (drop 2 p.now) ≡ true) }
    ensures { Puts w.old (comment_text indentation.now (comment_of p.now)) w.new }
{
    if 2 < p.len() {
        put_comment(w, indentation, &p[2..]);
    }
}

pub fn put_blank(w: &mut Writer, b: bool)
    ensures { Puts w.old (blank b) w.new }
{
    if b {
        w.put_byte(b'\n');
    }
}

fn is_inferred(name: &[u8], path: &[u8]) -> bool
    ensures { result ≡ is_inferred name.now path.now }
{
    // An empty stem is none.
    let inferred = stem::stem(path);
    !inferred.is_empty() && identifier::same(inferred, name)
}

pub fn put_import(w: &mut Writer, name: &[u8], path: &[u8])
    ensures { Puts w.old (import_text name.now path.now) w.new }
{
    w.put_slice(b"import '");
    w.put_slice(path);
    if is_inferred(name, path) {
        w.put_slice(b"'\n");
        return;
    }
    w.put_slice(b"' as ");
    put_snake(w, name);
    w.put_byte(b'\n');
}

// The number of a plain type's kind; any other is printed as Unit's.
pub fn put_plain(w: &mut Writer, kind: u16)
    ensures { Puts w.old (plain_text kind) w.new }
{
    match Kind::try_from(kind) {
        Ok(kind) => put_plain_of_kind(w, kind),
        Err(_) => w.put_slice(b"Unit"),
    }
}

pub fn put_plain_of_kind(w: &mut Writer, kind: Kind)
    ensures { Puts w.old (plain_text (number_of kind)) w.new }
{
    match kind {
        Kind::Bool => w.put_slice(b"Bool"),
        Kind::Bytes => w.put_slice(b"Bytes"),
        Kind::F64 => w.put_slice(b"F64"),
        Kind::S64 => w.put_slice(b"S64"),
        Kind::String => w.put_slice(b"String"),
        Kind::U64 => w.put_slice(b"U64"),
        _ => w.put_slice(b"Unit"),
    }
}

// A custom type, whose import's name is empty where it has none.
pub fn put_custom(w: &mut Writer, import: &[u8], name: &[u8])
    ensures { Puts w.old (custom_text (optional import.now) name.now) w.new }
{
    if !import.is_empty() {
        put_snake(w, import);
        w.put_byte(b'.');
    }
    put_pascal(w, name);
}

// By the number that a table has for the rule.
fn put_rule(w: &mut Writer, rule: u8)
    ensures { Puts w.old (rule_text (rule_of rule)) w.new }
{
    match rule {
        0 => {}
        1 => w.put_slice(b"asymmetric "),
        _ => w.put_slice(b"optional "),
    }
}

// A field's comment, rule and name; q holds the name and the comment.
pub fn put_field_name(w: &mut Writer, rule: u8, q: &[u8])
    requires { is_declaration q.now ≡ true }
    ensures { Puts w.old (field_name (comment_of (after_name q.now)) (rule_of rule) (name_of q.now)) w.new }
{
    put_counted(w, b"    ", schema::after_name(q));
    w.put_slice(b"    ");
    put_rule(w, rule);
    put_snake(w, schema::name_of(q));
}

pub fn put_field_index(w: &mut Writer, index: u64)
    ensures { Puts w.old (field_index index) w.new }
{
    w.put_slice(b" = ");
    w.put_decimal(index);
    w.put_byte(b'\n');
}

fn put_indices(w: &mut Writer, p: &[u8])
    ensures { Puts w.old (flat_map index_text (indices_of p.now)) w.new }
{
    for index in p.chunks_exact(8) {
        w.put_byte(b' ');
        w.put_decimal(wire::u64_at(index, 0));
    }
}

pub fn put_deleted(w: &mut Writer, fields: bool, p: &[u8])
    requires { is_deleted p.now ≡ true }
    ensures { Puts w.old (deleted_text fields (indices_of p.now)) w.new }
{
    put_blank(w, fields);
    w.put_slice(b"    deleted");
    put_indices(w, p);
    w.put_byte(b'\n');
}

fn put_keyword(w: &mut Writer, kind: u16)
    ensures { Puts w.old (variant_text (variant_of kind)) w.new }
{
    if kind == SchemaKind::Struct.number() {
        w.put_slice(b"struct ");
    } else {
        w.put_slice(b"choice ");
    }
}

// A declaration up to its fields, by the number of its kind; q holds the name and the comment.
pub fn put_head(w: &mut Writer, kind: u16, q: &[u8])
    requires { is_declaration q.now ≡ true }
    ensures { Puts w.old (head_text (comment_of (after_name q.now)) (variant_of kind) (name_of q.now)) w.new }
{
    put_counted(w, b"", schema::after_name(q));
    put_keyword(w, kind);
    put_pascal(w, schema::name_of(q));
    w.put_slice(b" {\n");
}

pub fn put_head_of_kind(w: &mut Writer, kind: SchemaKind, q: &[u8])
    requires { is_declaration q.now ≡ true }
    ensures { Puts w.old (head_text (comment_of (after_name q.now)) (variant_of (schema_kinds.number_of kind)) (name_of q.now)) w.new }
{
    put_head(w, kind.number(), q);
}
