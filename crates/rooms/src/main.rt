// Reading and writing with lent buffers of given lengths: what is answered, and whether every other byte of the buffer was kept.
#![tactic(auto)]

ghost use Rattle.std.specs.Prelude.{◌≤◌, length};

use reader::Answer;
use wire::Refused;

const ENTRIES: u64 = 1000000;

const MARK: u8 = 170;

fn is_marked(buffer: &[u8]) -> bool {
    buffer.iter().all(|b| *b == MARK)
}

fn print_kept(is_kept: bool) {
    if is_kept {
        io::write_all(1, b" kept\n");
    } else {
        io::write_all(1, b" touched\n");
    }
}

// To a descriptor, so not by the line that printed puts.
fn print_refused(refused: Refused, buffer: &[u8]) {
    io::write_all(1, b"R ");
    io::print_decimal(1, u64::from(refused.refusal.number()));
    io::write_all(1, b" ");
    io::print_decimal(1, refused.offset as u64);
    print_kept(is_marked(buffer));
}

// What was written has n bytes.
fn print_length(what: &[u8], n: usize, buffer: &[u8]) {
    io::write_all(1, what);
    io::print_decimal(1, n as u64);
    print_kept(buffer.get(n..).is_none_or(is_marked));
}

fn read_into(t: &[u8], buffer: &mut [u8], room: usize)
    requires { room ≤ length buffer.old }
{
    match reader::read(t, &mut buffer[..room]) {
        Ok(Answer::Schema(n)) => print_length(b"schema ", n, buffer),
        Ok(Answer::Errors(n)) => print_length(b"errors ", n, buffer),
        Err(refused) => print_refused(refused, buffer),
    }
}

fn write_into(t: &[u8], buffer: &mut [u8], room: usize)
    requires { room ≤ length buffer.old }
{
    match writer::write(t, &mut buffer[..room]) {
        Ok(n) => print_length(b"text ", n, buffer),
        Err(refused) => print_refused(refused, buffer),
    }
}

// An entry of the list: 0 for a token table or 1 for a schema table, how many bytes are lent, the table's length, its bytes.
fn answer_next(n: u64, table: &mut [u8], buffer: &mut [u8]) -> bool {
    let mut what = [0; 1];
    if io::read_full(0, &mut what) == 0 {
        return false;
    }
    let Some(room) = stream::next_number() else {
        return false;
    };
    let Some(size) = stream::next_number() else {
        return false;
    };
    let got = stream::next_bytes(size, table, buffer);
    if buffer.len() < room {
        return false;
    }
    stream::print_title(n);
    buffer.fill(MARK);
    // The list's own byte.
    if what[0] == 0 {
        read_into(&table[..got], buffer, room);
    } else {
        write_into(&table[..got], buffer, room);
    }
    true
}

// One byte more than a schema table may have, and more bytes than any entry lends.
fn main() {
    let mut table = [0; 131073];
    let mut buffer = [0; 262144];
    for n in 1..ENTRIES {
        if !answer_next(n, &mut table, &mut buffer) {
            return;
        }
    }
}
