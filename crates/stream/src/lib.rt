// Lists of entries on standard input. What a call of the system reads or writes no contract can say: these functions are proved safe and ending, and
// what is printed of a table is the promise of printed::print.
#![tactic(auto)]

ghost use Rattle.std.specs.Prelude.{◌≤◌, length};
ghost use Rattle.printed.specs.Printed.{printed, Prints};
ghost use Rattle.stream.specs.Number.{InFourBytes};

// A list has fewer entries than this: nothing says that an input ends, and a loop has to.
const ENTRIES: u64 = 1000000;

// Four bytes, little-endian; none where the input ends before.
pub fn next_number() -> Option<usize>
    ensures { InFourBytes result }
{
    let mut bytes = [0; 4];
    if io::read_full(0, &mut bytes) < 4 {
        return None;
    }
    Some(wire::u32_at(&bytes, 0) as usize)
}

fn skip(size: usize, spare: &mut [u8]) {
    let mut left = size;
    // Ends by what each read gives.
    while 0 < left {
        let n = left.min(spare.len());
        let got = io::read_full(0, &mut spare[..n]);
        if got == 0 {
            return;
        }
        left -= got;
    }
}

// Of `size` bytes, as many as there is room for; the others are read past, by way of a spare buffer.
pub fn next_bytes(size: usize, into: &mut [u8], spare: &mut [u8]) -> usize
    ensures { result ≤ length into.old }
{
    let n = size.min(into.len());
    let got = io::read_full(0, &mut into[..n]);
    skip(size - n, spare);
    got
}

// The line that opens an answer: `= n`.
pub fn print_title(n: u64) {
    io::write_all(1, b"= ");
    io::print_decimal(1, n);
    io::write_all(1, b"\n");
}

fn show(text: &[u8], end: usize)
    requires { end ≤ length text.now }
{
    io::write_all(1, &text[..end]);
}

// What typefmt prints of a table, on standard output; it stands in the lent text before that.
pub fn answer(t: &[u8], schema: &mut [u8; 65536], text: &mut [u8; 147456])
    ensures { Prints t.now schema.old schema.new text.old text.new (length (printed t.now)) }
{
    let end = printed::print(t, schema, text);
    show(text, end);
}

// Whether there was a table.
fn answer_next(
    n: u64,
    table: &mut [u8],
    schema: &mut [u8; 65536],
    text: &mut [u8; 147456],
) -> bool {
    let Some(size) = next_number() else {
        return false;
    };
    let got = next_bytes(size, table, text);
    print_title(n);
    answer(&table[..got], schema, text);
    true
}

// Each table of a list, after its length: a line with its number, then what typefmt prints of it. A longer table than 65,537 bytes prints what
// its first 65,537 do.
pub fn answer_all() {
    let mut table = [0; 65537];
    let mut schema = [0; 65536];
    let mut text = [0; 147456];
    for n in 1..ENTRIES {
        if !answer_next(n, &mut table, &mut schema, &mut text) {
            return;
        }
    }
}
