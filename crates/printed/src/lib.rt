// What typefmt prints of a token table: the canonical text, a line for each error, or the line of a refusal.
#![tactic(auto)]

ghost use Rattle.std.specs.Prelude.{◌≤◌, ◌/◌, ◌≡◌, length};
ghost use Rattle.wire.specs.Put.{Wrote};
ghost use Rattle.wire.specs.Puts.{Puts};
ghost use Rattle.wire.specs.Refusal.{number_of};
ghost use Rattle.printed.specs.Printed.{spaced, refusal_line, error_line, error_lines, schema_printed, Prints};

use reader::Answer;
use wire::{Refused, Writer};

const ROOM: usize = 65536;

fn put_spaced(w: &mut Writer, n: u64)
    ensures { Puts w.old (spaced n) w.new }
{
    w.put_byte(b' ');
    w.put_decimal(n);
}

fn put_refusal(w: &mut Writer, refused: Refused)
    ensures { Puts w.old (refusal_line (number_of refused.refusal) refused.offset) w.new }
{
    w.put_byte(b'R');
    put_spaced(w, u64::from(refused.refusal.number()));
    put_spaced(w, refused.offset as u64);
    w.put_byte(b'\n');
}

// The line of an error, from its record.
fn put_error_line(w: &mut Writer, error: &[u8])
    requires { 14 ≤ length error.now }
    ensures { Puts w.old (error_line error.now 0) w.new }
{
    let number = wire::u16_at(error, 2);
    let start = wire::u32_at(error, 4);
    let end = wire::u32_at(error, 8);
    let found = wire::u16_at(error, 12);
    w.put_byte(b'E');
    put_spaced(w, number as u64);
    put_spaced(w, start as u64);
    put_spaced(w, end as u64);
    put_spaced(w, found as u64);
    w.put_byte(b'\n');
}

fn put_error_lines(w: &mut Writer, list: &[u8])
    ensures { Puts w.old (error_lines (length list.now / 14) list.now 0) w.new }
{
    for error in list.chunks_exact(14) {
        put_error_line(w, error);
    }
}

// Making a writer stands in a function of its own: the prover then knows the buffer after it.
fn print_refusal(refused: Refused, out: &mut [u8]) -> usize
    ensures { Wrote out.old 0 (refusal_line (number_of refused.refusal) refused.offset) out.new result }
{
    let mut w = Writer::new(out);
    put_refusal(&mut w, refused);
    w.at
}

fn print_errors(list: &[u8], out: &mut [u8]) -> usize
    ensures { Wrote out.old 0 (error_lines (length list.now / 14) list.now 0) out.new result }
{
    let mut w = Writer::new(out);
    put_error_lines(&mut w, list);
    w.at
}

// The text of a schema table; of the buffer no more is lent than the answer may have.
fn print_schema(t: &[u8], out: &mut [u8]) -> usize
    requires { 65536 ≤ length out.old }
    ensures { Wrote out.old 0 (schema_printed t.now) out.new result }
{
    match writer::write(t, &mut out[..ROOM]) {
        Ok(n) => n,
        Err(refused) => print_refusal(refused, out),
    }
}

fn print_into(t: &[u8], schema: &mut [u8], text: &mut [u8]) -> usize
    requires { (length schema.old ≡ 65536) × (147456 ≤ length text.old) }
    ensures { Prints t.now schema.old schema.new text.old text.new result }
{
    match reader::read(t, schema) {
        Ok(Answer::Schema(n)) => print_schema(&schema[..n], text),
        Ok(Answer::Errors(n)) => print_errors(&schema[..n], text),
        Err(refused) => print_refusal(refused, text),
    }
}

// 147,456 bytes hold the lines of 4,096 errors.
pub fn print(t: &[u8], schema: &mut [u8; 65536], text: &mut [u8; 147456]) -> usize
    ensures { Prints t.now schema.old schema.new text.old text.new result }
{
    print_into(t, schema, text)
}
