// Reads a token table on standard input and prints its canonical text, its errors, or the refusal.
#![tactic(auto)]

// One byte more than a table may have is read: that tells a table that is too long, and of an endless input no more is read.
fn main() {
    // Fixed memory.
    let mut table = [0; 65537];
    let mut schema = [0; 65536];
    let mut text = [0; 147456];
    let n = io::read_full(0, &mut table);
    stream::answer(&table[..n], &mut schema, &mut text);
}
