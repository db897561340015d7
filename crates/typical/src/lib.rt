// The reader and the writer for programs in C or Rust, which link them as a static library. A slice is a pointer and a length there.
#![tactic(auto)]

ghost use Rattle.std.specs.Prelude.{◌≡◌};
ghost use Rattle.wire.specs.Refusal.{number_of};
ghost use Rattle.reader.specs.Answers.{Answers};
ghost use Rattle.writer.specs.Written.{Writes};
ghost use Rattle.typical.specs.Returned.{Returns, Formats, read_status, read_value, write_status, write_value};

use reader::Answer;
use wire::Refused;

// A refusal, told as its number and the offset.
fn refuse(refused: Refused, value: &mut usize) -> u16
    ensures offset { value.new ≡ refused.offset }
    ensures number { result ≡ number_of refused.refusal }
{
    *value = refused.offset;
    refused.refusal.number()
}

// A token table to a schema table or an error list; nothing is an empty schema. Returns 0 for a schema table, 256 for an error list and else the refusal's number; `value` is the
// length written, and of a refusal the offset.
#[unsafe(no_mangle)]
pub extern "C" fn typical_read(table: &[u8], out: &mut [u8], value: &mut usize) -> u16
    ensures { Returns (Answers table.now out.old out.new) read_status read_value value.new result }
{
    if table.len() == 0 {
        *value = 0;
        return 0;
    }
    match reader::read(table, out) {
        Ok(Answer::Schema(length)) => {
            *value = length;
            0
        }
        Ok(Answer::Errors(length)) => {
            *value = length;
            256
        }
        Err(refused) => refuse(refused, value),
    }
}

// A schema table to its text. Returns 0 for a text and else the refusal's number; `value` as above.
#[unsafe(no_mangle)]
pub extern "C" fn typical_write(table: &[u8], out: &mut [u8], value: &mut usize) -> u16
    ensures { Returns (Writes table.now out.old out.new) write_status write_value value.new result }
{
    match writer::write(table, out) {
        Ok(length) => {
            *value = length;
            0
        }
        Err(refused) => refuse(refused, value),
    }
}

// A token table to its text, by way of the schema table. Returns what `typical_read` does, and where that is a schema table what `typical_write` does of it.
#[unsafe(no_mangle)]
pub extern "C" fn typical_format(
    table: &[u8],
    schema: &mut [u8],
    text: &mut [u8],
    value: &mut usize,
) -> u16
    ensures { Formats table.now schema.old schema.new text.old text.new value.new result }
{
    match reader::read(table, schema) {
        Ok(Answer::Schema(length)) => typical_write(&schema[..length], text, value),
        Ok(Answer::Errors(length)) => {
            *value = length;
            256
        }
        Err(refused) => refuse(refused, value),
    }
}
