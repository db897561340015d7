// The records of a schema table, written from the places of a token table at which a construct stands.
#![tactic(auto)]

ghost use Rattle.std.specs.Prelude.{◌≡◌, true, ◌++◌, ◌+◌, ◌≤◌, ◌<◌, length, IfSome};
ghost use Rattle.wire.specs.Le.{le_bytes};
ghost use Rattle.wire.specs.Puts.{Puts};
ghost use Rattle.wire.specs.Record.{head_bytes, record_bytes};
ghost use Rattle.token.specs.Payload.{paragraphs_of};
ghost use Rattle.token.specs.Kinds as token_kinds;
ghost use Rattle.token.specs.Places.{tok_at};
ghost use Rattle.schema.specs.Kind.{s_plain, s_field};
ghost use Rattle.schema.specs.Kinds as schema_kinds;
ghost use Rattle.schema.specs.Encode.{encode_record, sized, counted, encode_comment, encode_type, rule_number, field_payload, declaration_kind};
ghost use Rattle.grammar.specs.Place.{span, empty_at};
ghost use Rattle.grammar.specs.Meaning.{comment_of, type_of, type_part_of, rule_of, field_of, variant_of};
ghost use Rattle.parser.specs.Trees.{token_there, base_at, type_at, part_at, field_at, head_at};
ghost use Rattle.parser.specs.Steps.{Stands};
ghost use Rattle.records.specs.Pieces.{source_range, number_of, encode_field, encode_head};
ghost use Rattle.records.specs.Here.{BaseHere, TypeHere, PartHere, FieldHere, HeadHere, CommentHere, Whole, NameHere, Paragraphs};

use parser::{FieldPlaces, HeadPlaces, PartPlaces, TypePlaces};
use schema::kind::Kind as SchemaKind;
use token::kind::Kind;
use wire::Writer;

/// A record's range in the source.
#[derive(Clone, Copy, Drop)]
pub struct SourceRange {
    pub start: u32,
    pub end: u32,
}

// Document 01: the ranges of these records are zeros.
/// The range of a record that has none.
pub const NOWHERE: SourceRange = SourceRange { start: 0, end: 0 };

/// From the token at `first` up to the end of the one at `last`.
pub fn span_tokens(t: &[u8], first: usize, last: usize) -> SourceRange
    requires { (Stands t.now first) × (Stands t.now last) }
    ensures { result ≡ source_range (span (tok_at t.now first) (tok_at t.now last)) }
{
    SourceRange {
        start: token::start_at(t, first),
        end: token::end_at(t, last),
    }
}

// Empty, where the token at `at` starts.
fn empty_at(t: &[u8], at: usize) -> SourceRange
    requires { Stands t.now at }
    ensures { result ≡ source_range (empty_at (tok_at t.now at).start) }
{
    let start = token::start_at(t, at);
    SourceRange { start, end: start }
}

/// The head of a record whose payload has `length` bytes.
pub fn put_record_head(w: &mut Writer, kind: SchemaKind, range: SourceRange, length: usize)
    requires { length < 65524 }
    ensures { Puts w.old (head_bytes (12 + length) (schema_kinds.number_of kind) range.start range.end) w.new }
{
    let size = 12 + length;
    w.put_head(size as u16, kind.number(), range.start, range.end);
}

// A name after its u16 length.
fn put_sized(w: &mut Writer, s: &[u8])
    requires { length s.now < 65536 }
    ensures { Puts w.old (sized s.now) w.new }
{
    w.put_u16(s.len() as u16);
    w.put_slice(s);
}

/// A record that holds a name and what follows it, by the number of its kind.
pub fn put_named(w: &mut Writer, kind: u16, range: SourceRange, name: &[u8], rest: &[u8])
    requires { length name.now + length rest.now < 65522 }
    ensures { Puts w.old (record_bytes kind range.start range.end (sized name.now ++ rest.now)) w.new }
{
    let size = 14 + name.len() + rest.len();
    w.put_head(size as u16, kind, range.start, range.end);
    put_sized(w, name);
    w.put_slice(rest);
}

/// The same, of a kind.
pub fn put_named_of_kind(
    w: &mut Writer,
    kind: SchemaKind,
    range: SourceRange,
    name: &[u8],
    rest: &[u8],
)
    requires { length name.now + length rest.now < 65522 }
    ensures { Puts w.old (record_bytes (schema_kinds.number_of kind) range.start range.end (sized name.now ++ rest.now)) w.new }
{
    put_named(w, kind.number(), range, name, rest);
}

fn put_plain(w: &mut Writer, range: SourceRange, kind: Kind)
    ensures { Puts w.old (record_bytes s_plain range.start range.end (le_bytes 2 (token_kinds.number_of kind))) w.new }
{
    put_record_head(w, SchemaKind::Plain, range, 2);
    w.put_u16(kind.number());
}

fn put_dotted(w: &mut Writer, t: &[u8], at: usize)
    requires { BaseHere t.now at true }
    ensures { Puts w.old (encode_type (type_of (base_at t.now at true))) w.new }
{
    let name = token::next_at(t, token::next_at(t, at));
    put_named_of_kind(
        w,
        SchemaKind::Custom,
        span_tokens(t, at, name),
        token::payload_at(t, at),
        token::payload_at(t, name),
    );
}

// A type without brackets.
fn put_base(w: &mut Writer, t: &[u8], at: usize, dotted: bool)
    requires { BaseHere t.now at dotted }
    ensures { Puts w.old (encode_type (type_of (base_at t.now at dotted))) w.new }
{
    if dotted {
        return put_dotted(w, t, at);
    }
    let range = span_tokens(t, at, at);
    match token::kind_at(t, at) {
        // An empty name of an import is none.
        Kind::Identifier => put_named_of_kind(
            w,
            SchemaKind::Custom,
            range,
            &[],
            token::payload_at(t, at),
        ),
        kind => put_plain(w, range, kind),
    }
}

fn put_type(w: &mut Writer, t: &[u8], p: TypePlaces)
    requires { TypeHere t.now p }
    ensures { Puts w.old (encode_type (type_of (type_at t.now p))) w.new }
{
    let mut opens = p.opens;
    // The closing brackets are counted down while the opening ones are walked.
    for left in (0..p.depth).rev() {
        put_record_head(
            w,
            SchemaKind::Array,
            span_tokens(t, opens, p.close + 12 * left),
            0,
        );
        opens = token::next_at(t, opens);
    }
    put_base(w, t, p.base, p.dotted);
}

// A record has a count before its paragraphs, and no comment is none of them.
// The bytes of a comment's paragraphs, none where there is no comment.
fn comment_at(t: &[u8], comment: Option<usize>) -> &[u8]
    requires { CommentHere t.now comment }
    ensures { Paragraphs (token_there t.now comment) result.now }
{
    match comment {
        Some(at) => token::payload_at(t, at),
        None => &[],
    }
}

// Paragraphs after their u16 count.
fn put_counted(w: &mut Writer, p: &[u8])
    requires { Whole p.now }
    ensures { Puts w.old (counted (paragraphs_of p.now)) w.new }
{
    if p.is_empty() {
        return w.put_u16(0);
    }
    w.put_u16(token::paragraph_count(p));
    w.put_slice(p);
}

// What the records of a declaration and of a field end with: the name, and the comment's paragraphs.
#[derive(Clone, Copy, Drop)]
struct Described<'a> {
    name: &'a [u8],
    comment: &'a [u8],
    ghost short: { length name.now ≤ 128 },
    ghost whole: { Whole comment.now },
}

impl<'a> Described<'a> {
    fn size(self) -> usize
        ensures size { result ≡ 4 + length self.entry.name.now + length self.entry.comment.now }
        ensures small { result ≤ 32964 }
    {
        4 + self.name.len() + self.comment.len()
    }

    fn put(self, w: &mut Writer)
        ensures { Puts w.old (sized self.entry.name.now ++ counted (paragraphs_of self.entry.comment.now)) w.new }
    {
        put_sized(w, self.name);
        put_counted(w, self.comment);
    }
}

// By the places of the name and of the comment.
fn described_at(t: &[u8], name: usize, comment: Option<usize>) -> Described
    requires { (NameHere t.now name) × (CommentHere t.now comment) }
    ensures name { result.name.now ≡ (tok_at t.now name).payload }
    ensures comment { paragraphs_of result.comment.now ≡ comment_of (token_there t.now comment) }
{
    Described {
        name: token::payload_at(t, name),
        comment: comment_at(t, comment),
    }
}

/// The schema's comment, where there is one.
pub fn put_opening(w: &mut Writer, t: &[u8], comment: Option<usize>)
    requires { CommentHere t.now comment }
    ensures { Puts w.old (encode_comment (comment_of (token_there t.now comment))) w.new }
{
    let p = comment_at(t, comment);
    if p.is_empty() {
        return;
    }
    put_record_head(w, SchemaKind::Comment, NOWHERE, p.len());
    w.put_slice(p);
}

// How a field is there, by its number in the field's record.
#[derive(Clone, Copy, Drop)]
enum Rule {
    Required = 0,
    Asymmetric = 1,
    Optional = 2,
}

impl Rule {
    fn number(self) -> u8
        ensures { result ≡ number_of self }
    {
        self as u8
    }
}

fn rule_at(t: &[u8], rule: Option<usize>) -> Rule
    requires { IfSome rule (Stands t.now) }
    ensures { number_of result ≡ rule_number (rule_of (token_there t.now rule)) }
{
    match rule {
        None => Rule::Required,
        Some(at) => match token::kind_at(t, at) {
            Kind::Asymmetric => Rule::Asymmetric,
            _ => Rule::Optional,
        },
    }
}

fn put_field_record(w: &mut Writer, t: &[u8], f: FieldPlaces)
    requires { FieldHere t.now f }
    ensures { Puts w.old (encode_record s_field (field_of (field_at t.now f)).range (field_payload (field_of (field_at t.now f)))) w.new }
{
    let described = described_at(t, f.name, f.comment);
    let range = span_tokens(t, f.first, f.index);
    put_record_head(w, SchemaKind::Field, range, 9 + described.size());
    w.put_byte(rule_at(t, f.rule).number());
    w.put_u64(token::integer_at(t, f.index));
    described.put(w);
}

// A field's type; Unit where none is written, with an empty range at the `=`.
fn put_part(w: &mut Writer, t: &[u8], part: Option<PartPlaces>, equals: usize)
    requires { (PartHere t.now part) × (Stands t.now equals) }
    ensures { Puts w.old (encode_type (type_part_of (part_at t.now part) (tok_at t.now equals))) w.new }
{
    match part {
        Some(part) => put_type(w, t, part.ty),
        None => put_plain(w, empty_at(t, equals), Kind::Unit),
    }
}

pub fn put_field(w: &mut Writer, t: &[u8], f: FieldPlaces)
    requires { FieldHere t.now f }
    ensures { Puts w.old (encode_field (field_of (field_at t.now f))) w.new }
{
    put_field_record(w, t, f);
    put_part(w, t, f.part, f.equals);
}

fn declaration_kind(t: &[u8], at: usize) -> SchemaKind
    requires { Stands t.now at }
    ensures { schema_kinds.number_of result ≡ declaration_kind (variant_of (tok_at t.now at)) }
{
    match token::kind_at(t, at) {
        Kind::Struct => SchemaKind::Struct,
        _ => SchemaKind::Choice,
    }
}

/// A declaration's own record, by its head and the place of its `}`.
pub fn put_head(w: &mut Writer, t: &[u8], h: HeadPlaces, right: usize)
    requires { (HeadHere t.now h) × (Stands t.now right) }
    ensures { Puts w.old (encode_head (head_at t.now h) (tok_at t.now right)) w.new }
{
    let described = described_at(t, h.name, h.comment);
    let range = span_tokens(t, h.first, right);
    put_record_head(w, declaration_kind(t, h.keyword), range, described.size());
    described.put(w);
}
