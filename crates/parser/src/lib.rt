// The rules of parser.rs over a checked token table. Each goes from a cursor to the places of what it read and the cursor past it, or fails.
#![tactic(auto)]

ghost use Rattle.std.specs.Prelude.{◌≡◌, ◌<◌, ℕ, Bool, false, eqb};
ghost use Rattle.wire.specs.Pick.{pick};
ghost use Rattle.token.specs.Kind.{k_comment, k_struct};
ghost use Rattle.token.specs.Kinds.{number_of};
ghost use Rattle.token.specs.Places.{Wf};
ghost use Rattle.grammar.specs.Error.{kind_at};
ghost use Rattle.grammar.specs.Reading.{is, consume, is_dotted, parse_dotted, parse_single, parse_type};
ghost use Rattle.parser.specs.Faults as faults;
ghost use Rattle.parser.specs.Trees.{last_place};
ghost use Rattle.parser.specs.Steps.{kind_number, Decides, ahead, Stepped, TokenRead, Skipped, TypeRead, base_step, PartRead, FieldRead, HeadRead, ImportRead};

pub mod fault;
pub mod kinds;

pub use fault::Fault;
use token::kind::Kind;

// Functions take a table and a cursor by value, so each asks that the cursor stand in the table.
/// A place in the token table: a record's, or the table's length at the end of the tokens.
#[derive(Clone, Copy, Drop, PartialEq, Eq, Debug)]
pub struct Cursor {
    pub at: usize,
}

/// What stopped a rule, and where it stopped.
#[derive(Clone, Copy, Drop, PartialEq, Eq, Debug)]
pub struct Failure {
    pub fault: Fault,
    pub at: Cursor,
}

/// The kind of the token at c; none at the end.
pub fn peek(t: &[u8], c: Cursor) -> Option<Kind>
    requires { Wf t.now c.at }
    ensures { kind_number result ≡ kind_at (ahead t.now c) }
{
    if c.at < t.len() {
        Some(token::kind_at(t, c.at))
    } else {
        None
    }
}

/// The number of the kind of the token at c; 0 at the end.
pub fn kind_or_end(t: &[u8], c: Cursor) -> u16
    requires { Wf t.now c.at }
    ensures { result ≡ kind_at (ahead t.now c) }
{
    let at = c.at;
    if at < t.len() {
        return token::number_at(t, at);
    }
    0
}

/// Whether a token of this kind stands at c.
pub fn is_next(t: &[u8], c: Cursor, kind: Kind) -> bool
    requires { Wf t.now c.at }
    ensures { result ≡ is (number_of kind) (kind_at (ahead t.now c)) }
{
    kind_or_end(t, c) == kind.number()
}

/// Whether no token is left at c.
pub fn is_done(t: &[u8], c: Cursor) -> bool
    requires { Wf t.now c.at }
    ensures { result ≡ eqb (kind_at (ahead t.now c)) 0 }
{
    t.len() <= c.at
}

pub fn next(t: &[u8], c: Cursor) -> Cursor
    requires { (Wf t.now c.at) × (0 < kind_at (ahead t.now c)) }
    ensures { Stepped t.now c result }
{
    Cursor {
        at: token::next_at(t, c.at),
    }
}

// The Rust's consume_token_0 and consume_token_1.
fn consume_token(t: &[u8], c: Cursor, kind: Kind, fault: Fault) -> Result<Cursor, Failure>
    requires { Wf t.now c.at }
    ensures { TokenRead t.now c (consume (faults.number_of fault) (is (number_of kind))) result }
{
    if is_next(t, c, kind) {
        Ok(next(t, c))
    } else {
        Err(Failure { fault, at: c })
    }
}

// The place of a token whose kind passes the test, where one stands at c, and the cursor past it.
fn skip_if<F: Fn(Kind) -> bool>(t: &[u8], c: Cursor, test: F) -> (Option<usize>, Cursor)
    requires wf { Wf t.now c.at }
    requires callable { F.IsAlwaysCallable test }
    ensures { (k : ℕ → Bool) → k 0 ≡ false → Decides (F.post test) k → Skipped t.now c k result }
{
    match peek(t, c) {
        Some(kind) if test(kind) => (Some(c.at), next(t, c)),
        _ => (None, c),
    }
}

fn skip_comment(t: &[u8], c: Cursor) -> (Option<usize>, Cursor)
    requires { Wf t.now c.at }
    ensures { Skipped t.now c (is k_comment) result }
{
    skip_if(t, c, |kind| kind == Kind::Comment)
}

/// Where a type stands: from `opens` on `depth` brackets, then the base, of one token or dotted, then as many brackets from `close` on.
#[derive(Clone, Copy, Drop)]
pub struct TypePlaces {
    pub opens: usize,
    pub depth: usize,
    // Only the first place of the base is used: an enum of two cases would hold the same place twice.
    pub base: usize,
    pub dotted: bool,
    pub close: usize,
}

// Whether a dot stands at c and one more token after it.
fn is_dotted(t: &[u8], c: Cursor) -> bool
    requires { Wf t.now c.at }
    ensures { result ≡ is_dotted (ahead t.now c) }
{
    is_next(t, c, Kind::Dot) && !is_done(t, next(t, c))
}

// A type with no brackets.
fn base_type(c: Cursor, dotted: bool, after: Cursor) -> (TypePlaces, Cursor)
    ensures { result ≡ base_step c dotted after }
{
    let places = TypePlaces {
        opens: c.at,
        depth: 0,
        base: c.at,
        dotted,
        close: after.at,
    };
    (places, after)
}

fn parse_dotted(t: &[u8], c: Cursor) -> Result<(TypePlaces, Cursor), Failure>
    requires { Wf t.now c.at }
    ensures { TypeRead t.now c parse_dotted result }
{
    let dot = consume_token(t, c, Kind::Identifier, Fault::ImportBeforeDot)?;
    let name = consume_token(t, dot, Kind::Dot, Fault::FieldType)?;
    let after = consume_token(t, name, Kind::Identifier, Fault::FieldType)?;
    Ok(base_type(c, true, after))
}

fn parse_single(t: &[u8], c: Cursor) -> Result<(TypePlaces, Cursor), Failure>
    requires { Wf t.now c.at }
    ensures { TypeRead t.now c parse_single result }
{
    let after = consume_token(t, c, Kind::Identifier, Fault::FieldType)?;
    Ok(base_type(c, false, after))
}

fn parse_type(t: &[u8], c: Cursor) -> Result<(TypePlaces, Cursor), Failure>
    requires { Wf t.now c.at }
    ensures { TypeRead t.now c parse_type result }
{
    let Some(kind) = peek(t, c) else {
        return Err(Failure {
            fault: Fault::FieldType,
            at: c,
        });
    };
    let second = next(t, c);
    match kind {
        Kind::LeftSquare => {
            let (inner, close) = parse_type(t, second)?;
            let after = consume_token(t, close, Kind::RightSquare, Fault::RightSquare)?;
            let places = TypePlaces {
                opens: c.at,
                depth: inner.depth + 1,
                ..inner
            };
            Ok((places, after))
        }
        _ if kind.is_plain() => Ok(base_type(c, false, second)),
        _ if is_dotted(t, second) => parse_dotted(t, c),
        _ => parse_single(t, c),
    }
}

/// Where a field's type stands, after the colon's place.
#[derive(Clone, Copy, Drop)]
pub struct PartPlaces {
    pub colon: usize,
    pub ty: TypePlaces,
}

fn parse_type_part(t: &[u8], c: Cursor) -> Result<(Option<PartPlaces>, Cursor), Failure>
    requires { Wf t.now c.at }
    ensures { PartRead t.now c result }
{
    if !is_next(t, c, Kind::Colon) {
        return Ok((None, c));
    }
    let (ty, after) = parse_type(t, next(t, c))?;
    Ok((Some(PartPlaces { colon: c.at, ty }), after))
}

/// Where a field stands: its first token, which is the comment where there is one and else the rule or the name, and each of its tokens.
#[derive(Clone, Copy, Drop)]
pub struct FieldPlaces {
    pub first: usize,
    pub comment: Option<usize>,
    pub rule: Option<usize>,
    pub name: usize,
    pub part: Option<PartPlaces>,
    pub equals: usize,
    pub index: usize,
}

pub fn parse_field(t: &[u8], c: Cursor) -> Result<(FieldPlaces, Cursor), Failure>
    requires { Wf t.now c.at }
    ensures { FieldRead t.now c result }
{
    let (comment, begin) = skip_comment(t, c);
    let (rule, label) = skip_if(t, begin, Kind::is_rule);
    let colon = consume_token(t, label, Kind::Identifier, Fault::Field)?;
    let (part, equals) = parse_type_part(t, colon)?;
    let index = consume_token(t, equals, Kind::Equals, Fault::Equals)?;
    let after = consume_token(t, index, Kind::Integer, Fault::FieldIndex)?;
    let places = FieldPlaces {
        first: c.at,
        comment,
        rule,
        name: label.at,
        part,
        equals: equals.at,
        index: index.at,
    };
    Ok((places, after))
}

/// Where a declaration's head stands, up to its `{`: its first token, which is the comment where there is one and else the keyword.
#[derive(Clone, Copy, Drop)]
pub struct HeadPlaces {
    pub first: usize,
    pub comment: Option<usize>,
    pub keyword: usize,
    pub name: usize,
}

#[tactic(auto, unfolding(wire::specs::Pick::pick))]
fn missing_name(keyword: Kind) -> Fault
    ensures { faults.number_of result ≡ pick (eqb (number_of keyword) k_struct) 2 3 }
{
    match keyword {
        Kind::Struct => Fault::StructName,
        _ => Fault::ChoiceName,
    }
}

pub fn parse_head(t: &[u8], c: Cursor) -> Result<(HeadPlaces, Cursor), Failure>
    requires { Wf t.now c.at }
    ensures { HeadRead t.now c result }
{
    let (comment, keyword) = skip_comment(t, c);
    let kind = match peek(t, keyword) {
        Some(kind) if kind.is_keyword() => kind,
        None if comment.is_some() => {
            return Err(Failure {
                fault: Fault::LoneComment,
                at: c,
            });
        }
        _ => return Err(Failure {
            fault: Fault::Declaration,
            at: keyword,
        }),
    };
    let name = next(t, keyword);
    let left = consume_token(t, name, Kind::Identifier, missing_name(kind))?;
    let after = consume_token(t, left, Kind::LeftCurly, Fault::LeftCurly)?;
    let places = HeadPlaces {
        first: c.at,
        comment,
        keyword: keyword.at,
        name: name.at,
    };
    Ok((places, after))
}

/// Where an import stands: `import` at `first`, its path, and the name after `as` where there is one.
#[derive(Clone, Copy, Drop)]
pub struct ImportPlaces {
    pub first: usize,
    pub path: usize,
    pub alias: Option<usize>,
}

impl ImportPlaces {
    /// Its last token: the name, where there is one, and else the path.
    pub fn last(self) -> usize
        ensures { result ≡ last_place self }
    {
        self.alias.unwrap_or(self.path)
    }
}

/// At an `import`.
pub fn parse_import(t: &[u8], c: Cursor) -> Result<(ImportPlaces, Cursor), Failure>
    requires { (Wf t.now c.at) × (0 < kind_at (ahead t.now c)) }
    ensures { ImportRead t.now c result }
{
    let path = next(t, c);
    let past = consume_token(t, path, Kind::Path, Fault::ImportPath)?;
    let places = ImportPlaces {
        first: c.at,
        path: path.at,
        alias: None,
    };
    if !is_next(t, past, Kind::As) {
        return Ok((places, past));
    }
    let name = next(t, past);
    let after = consume_token(t, name, Kind::Identifier, Fault::ImportName)?;
    let alias = Some(name.at);
    Ok((ImportPlaces { alias, ..places }, after))
}
