// Reading a token table into a lent buffer: a schema table, an error list, or a refusal.
#![tactic(auto)]

ghost use Rattle.std.specs.Prelude.{◌≤◌, length, drop};
ghost use Rattle.wire.specs.Put.{Wrote};
ghost use Rattle.token.specs.Places.{tokens_from};
ghost use Rattle.schema.specs.Encode.{encode_schema};
ghost use Rattle.grammar.specs.Meaning.{schema_of};
ghost use Rattle.grammar.specs.Reading.{parse_schema};
ghost use Rattle.emit.specs.Emits.{Readable};
ghost use Rattle.reader.specs.Answers.{Answers, Checked, Ready, Clean};

use places::Ordered;
use wire::{Refusal, Refused, Writer};

/// What was read, with the length that was written.
#[derive(Clone, Copy, Drop, PartialEq, Eq, Debug)]
pub enum Answer {
    Schema(usize),
    Errors(usize),
}

// The token table and the place that reading has come to.
#[derive(Clone, Copy, Drop)]
pub struct Reader<'a> {
    pub table: &'a [u8],
    pub at: usize,
}

// How long the schema table is, of which what there is room for is written.
fn emit_into(
    out: &mut [u8],
    t: &[u8],
    imports: &[u64],
    order: Ordered,
    items: &mut [u64],
    spare: &mut [u64],
) -> usize
    requires { Readable t.now imports.now order items.old spare.old }
    ensures { Wrote out.old 0 (encode_schema (schema_of (parse_schema (tokens_from t.now 0)).value)) out.new result }
{
    let mut w = Writer::new(out);
    emit::emit(&mut w, t, imports, order, items, spare);
    w.at
}

// A schema table is at most twice as long as the token table: where that is room enough, nothing is measured.
fn read_schema(
    t: &[u8],
    out: &mut [u8],
    imports: &[u64],
    order: Ordered,
    items: &mut [u64],
    spare: &mut [u64],
) -> Result<Answer, Refused>
    requires { Clean t.now imports.now order items.old spare.old }
    ensures { Answers t.now out.old out.new result }
{
    if t.len() <= out.len() / 2 {
        let length = emit_into(out, t, imports, order, items, spare);
        return Ok(Answer::Schema(length));
    }
    let need = emit_into(&mut out[..0], t, imports, order, items, spare);
    if out.len() < need {
        return Err(Refusal::NoRoom.into());
    }
    Ok(Answer::Schema(emit_into(out, t, imports, order, items, spare)))
}

// Collecting into no buffer tells how many errors there are, and how long their list is.
fn read_measured(
    t: &[u8],
    out: &mut [u8],
    end: u32,
    imports: &[u64],
    order: Ordered,
    items: &mut [u64],
    spare: &mut [u64],
) -> Result<Answer, Refused>
    requires { Ready t.now end imports.now order items.old spare.old }
    ensures { Answers t.now out.old out.new result }
{
    let needed = collector::parse_schema(&mut out[..0], t, end, imports, order, items, spare);
    if needed.count == 0 {
        return read_schema(t, out, imports, order, items, spare);
    }
    if out.len() < needed.length {
        return Err(Refusal::NoRoom.into());
    }
    let list = collector::parse_schema(out, t, end, imports, order, items, spare);
    Ok(Answer::Errors(list.length))
}

// There are no more errors than tokens, for each of which the lists have room: where there is room for so many errors, they are written at once.
fn read_ordered(
    t: &[u8],
    out: &mut [u8],
    end: u32,
    imports: &[u64],
    order: Ordered,
    items: &mut [u64],
    spare: &mut [u64],
) -> Result<Answer, Refused>
    requires { Ready t.now end imports.now order items.old spare.old }
    ensures { Answers t.now out.old out.new result }
{
    if out.len() / 14 < items.len() {
        return read_measured(t, out, end, imports, order, items, spare);
    }
    let errors = collector::parse_schema(out, t, end, imports, order, items, spare);
    if errors.count == 0 {
        return read_schema(t, out, imports, order, items, spare);
    }
    Ok(Answer::Errors(errors.length))
}

// The lists that sorting needs, each of N places: a small table doesn't pay for a large one's. The imports are put in order once, for their errors
// and for the schema.
fn read_sized<const N: usize>(t: &[u8], out: &mut [u8], end: u32) -> Result<Answer, Refused>
    requires { (Checked t.now end) × (length (tokens_from t.now 0) ≤ N) × (N ≤ 4096) }
    ensures { Answers t.now out.old out.new result }
{
    let mut imports = [0; N];
    let mut items = [0; N];
    let mut spare = [0; N];
    let order = places::order_imports(t, &mut imports, &mut spare);
    read_ordered(
        t,
        out,
        end,
        &imports[..order.count],
        order,
        &mut items,
        &mut spare,
    )
}

// The reading on from a place of the table. Nothing is an empty schema.
fn read_from(table: &[u8], at: usize, out: &mut [u8]) -> Result<Answer, Refused>
    requires { at ≤ length table.now }
    ensures { Answers (drop at table.now) out.old out.new result }
{
    let t = &table[at..];
    if t.is_empty() {
        return Ok(Answer::Schema(0));
    }
    let checked = token::check(t)?;
    match checked.count {
        0..=8 => read_sized::<8>(t, out, checked.end),
        9..=64 => read_sized::<64>(t, out, checked.end),
        65..=1024 => read_sized::<1024>(t, out, checked.end),
        _ => read_sized::<4096>(t, out, checked.end),
    }
}

// A reader at the table's first byte.
pub fn read(t: &[u8], out: &mut [u8]) -> Result<Answer, Refused>
    ensures { Answers t.now out.old out.new result }
{
    let r = Reader { table: t, at: 0 };
    read_from(r.table, r.at, out)
}
