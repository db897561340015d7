// What is collected from a table for sorting: the numbers of the Integers from a cursor on, and the imports. The walks step from cursor to cursor.
#![tactic(auto)]

ghost use Rattle.std.specs.Prelude.{◌≤◌, ◌<◌, length};
ghost use Rattle.token.specs.Places.{tokens_from, Wf};
ghost use Rattle.parser.specs.Steps.{ahead};
ghost use Rattle.places.specs.Filling.{Pushes};
ghost use Rattle.places.specs.Places.{Numbers, Sortable, Arranges};
ghost use Rattle.places.specs.Imports.{Room, Opening, Walks, OrdersIn};

use parser::{Cursor, is_next, next, peek};
use sorted::{Keyed, Names};
use token::kind::Kind;

// A lent list that fills up from its start on: its first `count` numbers are filled in.
// The list is the caller's, so how far it is filled stands beside it.
#[derive(Drop)]
struct Filling<'a> {
    list: &'a mut [u64],
    count: usize,
}

impl<'a> Filling<'a> {
    fn push(&mut self, x: u64)
        requires { self.old.count < length self.old.list.now }
        ensures { Pushes self.old x self.new }
    {
        self.list[self.count] = x;
        self.count += 1;
    }
}

// How many items were collected, and the cursor past what stands there.
#[derive(Clone, Copy, Drop)]
pub struct Collected {
    pub count: usize,
    pub next: Cursor,
}

pub fn collect_numbers(t: &[u8], from: Cursor, items: &mut [u64]) -> Collected
    requires { (Wf t.now from.at) × (length (ahead t.now from) ≤ length items.old) }
    ensures { Numbers t.now from items.new result }
{
    let mut numbers = Filling {
        list: items,
        count: 0,
    };
    let mut c = from;
    while is_next(t, c, Kind::Integer) {
        let number = token::integer_at(t, c.at);
        numbers.push(number);
        c = next(t, c);
    }
    Collected {
        count: numbers.count,
        next: c,
    }
}

// The place of the schema's comment, where the first token is that, and the cursor past it.
pub fn skip_opening(t: &[u8]) -> (Option<usize>, Cursor)
    requires { Wf t.now 0 }
    ensures { Opening t.now result }
{
    let c = Cursor { at: 0 };
    if !is_next(t, c, Kind::Comment) {
        return (None, c);
    }
    let past = next(t, c);
    match peek(t, past) {
        Some(kind) if kind.is_keyword() => {
            if token::end_at(t, 0) as u64 + 1 < token::start_at(t, past.at) as u64 {
                (Some(0), past)
            } else {
                (None, c)
            }
        }
        _ => (Some(0), past),
    }
}

// Whether no import breaks off and each has a name, how many are read, and the cursor past them.
#[derive(Drop)]
struct Walked {
    // The count holds either way: an enum would have it in both cases.
    sound: bool,
    count: usize,
    next: Cursor,
}

// The imports from `from` on that are read.
fn collect_imports(t: &[u8], from: Cursor, items: &mut [u64]) -> Walked
    requires { (Wf t.now from.at) × (length (ahead t.now from) ≤ length items.old) }
    ensures { Walks t.now from items.new result }
{
    let mut imports = Filling {
        list: items,
        count: 0,
    };
    let mut sound = true;
    let mut c = from;
    while is_next(t, c, Kind::Import) {
        match parser::parse_import(t, c) {
            Ok((_, after)) => {
                let x = sorted::item_at(t, c.at);
                sound &= !sorted::name_of(t, x).is_empty();
                imports.push(x);
                c = after;
            }
            Err(failure) => {
                sound = false;
                c = failure.at;
            }
        }
    }
    Walked {
        sound,
        count: imports.count,
        next: c,
    }
}

// How many items are left, and whether two were the same.
#[derive(Clone, Copy, Drop)]
pub struct Arranged {
    pub count: usize,
    pub repeated: bool,
}

// The first n items, in order or, where two are the same, those that are the same as the one in front of them.
pub fn arrange<K: Keyed>(by: &K, items: &mut [u64], spare: &mut [u64], n: usize) -> Arranged
    requires { Sortable (K.order by.now) n items.old spare.old }
    ensures { Arranges (K.order by.now) n items.old items.new result }
{
    if sorted::sort(by, &mut items[..n], spare) {
        return Arranged {
            count: sorted::keep_repeats(by, &mut items[..n]),
            repeated: true,
        };
    }
    Arranged {
        count: n,
        repeated: false,
    }
}

// The imports past the schema's comment: whether that is there, and the cursor past it; how many items there are, whether two imports have the same
// name, and whether there is no error in them; and the cursor past them.
#[derive(Clone, Copy, Drop)]
pub struct Ordered {
    pub comment: Option<usize>,
    pub from: Cursor,
    pub count: usize,
    // Two questions are asked: which list stands here (`repeated`), and whether anything is to be judged (`sound`).
    pub repeated: bool,
    pub sound: bool,
    pub next: Cursor,
}

// Puts the imports in order by their names; `spare` is lent for the work.
pub fn order_imports(t: &[u8], items: &mut [u64], spare: &mut [u64]) -> Ordered
    requires { (Wf t.now 0) × (Room (tokens_from t.now 0) items.old spare.old) }
    ensures { OrdersIn t.now items.new result }
{
    let (comment, from) = skip_opening(t);
    let walked = collect_imports(t, from, items);
    let arranged = arrange(&Names { table: t }, items, spare, walked.count);
    let repeated = arranged.repeated;
    let next = walked.next;
    Ordered {
        comment,
        from,
        count: arranged.count,
        repeated,
        sound: walked.sound & !repeated,
        next,
    }
}
