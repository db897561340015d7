// The errors of a table in one collector, lent to each rule of the schema in turn: a rule writes from the end of the list that the collector holds,
// and tells it the new end.
#![tactic(auto)]

ghost use Rattle.std.specs.Prelude.{◌≡◌, ◌≤◌, length};
ghost use Rattle.token.specs.Places.{tokens_from};
ghost use Rattle.places.specs.Imports.{Orders};
ghost use Rattle.judge.specs.Judges.{Room, Judgeable};
ghost use Rattle.collector.specs.Collected.{Collected, Counts, Grows, grown_to, ImportsFrom, DeclarationsFrom, ImportsPushed, DeclarationsPushed};

use parser::Cursor;
use places::Ordered;
use wire::Writer;

// A length and a count, lent to each rule in turn.
// The errors so far: the bytes of their list and their number.
#[derive(Clone, Copy, Drop)]
pub struct Collector {
    pub length: usize,
    pub count: usize,
}

impl Collector {
    // The list ends at `to` now; each of its records has 14 bytes.
    fn grow(&mut self, to: usize)
        requires { Grows self.old to }
        ensures { self.new ≡ grown_to self.old to }
    {
        self.count += (to - self.length) / 14;
        self.length = to;
    }
}

// The imports, by value: answers where their errors end, and where the declarations begin.
fn write_imports(
    out: &mut [u8],
    at: usize,
    t: &[u8],
    end: u32,
    imports: &[u64],
    order: Ordered,
    marks: &mut [u64],
) -> (usize, Cursor)
    requires { (Orders t.now imports.now order) × (length (tokens_from t.now 0) ≤ length marks.old) }
    ensures { ImportsFrom t.now end out.old at out.new result.0 result.1 }
{
    let mut w = Writer { out, at };
    let next = judge::judge_imports(&mut w, t, end, imports, order, marks);
    (w.at, next)
}

// The declarations, by value: answers where their errors end.
fn write_declarations(
    out: &mut [u8],
    at: usize,
    t: &[u8],
    from: Cursor,
    end: u32,
    items: &mut [u64],
    spare: &mut [u64],
) -> usize
    requires { Room t.now from items.old spare.old }
    ensures { DeclarationsFrom t.now from end out.old at out.new result }
{
    let mut w = Writer { out, at };
    judge::judge_declarations(&mut w, t, from, end, items, spare);
    w.at
}

// Answers where the declarations begin.
fn push_imports(
    errors: &mut Collector,
    out: &mut [u8],
    t: &[u8],
    end: u32,
    imports: &[u64],
    order: Ordered,
    marks: &mut [u64],
) -> Cursor
    requires { (Counts errors.old) × (Orders t.now imports.now order) × (length (tokens_from t.now 0) ≤ length marks.old) }
    ensures { ImportsPushed t.now end out.old errors.old out.new errors.new result }
{
    let (to, next) = write_imports(out, errors.length, t, end, imports, order, marks);
    errors.grow(to);
    next
}

fn push_declarations(
    errors: &mut Collector,
    out: &mut [u8],
    t: &[u8],
    from: Cursor,
    end: u32,
    items: &mut [u64],
    spare: &mut [u64],
)
    requires { (Counts errors.old) × (Room t.now from items.old spare.old) }
    ensures { DeclarationsPushed t.now from end out.old errors.old out.new errors.new }
{
    let to = write_declarations(out, errors.length, t, from, end, items, spare);
    errors.grow(to);
}

// The schema's rules in turn: the errors of a table that token::check passed, of which `end` is the last token's end. The lent lists have room for a
// place of each token.
pub fn parse_schema(
    out: &mut [u8],
    t: &[u8],
    end: u32,
    imports: &[u64],
    order: Ordered,
    items: &mut [u64],
    spare: &mut [u64],
) -> Collector
    requires { (Judgeable t.now end items.old spare.old) × (Orders t.now imports.now order) }
    ensures { Collected t.now out.old out.new result }
{
    let mut errors = Collector {
        length: 0,
        count: 0,
    };
    let next = push_imports(&mut errors, out, t, end, imports, order, spare);
    push_declarations(&mut errors, out, t, next, end, items, spare);
    errors
}
