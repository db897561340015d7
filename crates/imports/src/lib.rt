// The imports of a schema table.
#![tactic(auto)]

ghost use Rattle.wire.specs.Puts.{Puts};
ghost use Rattle.grammar.specs.Tree.{All};
ghost use Rattle.places.specs.Imports.{NamedHere};
ghost use Rattle.imports.specs.Imports.{meaning_at, encode_import, imports_at};

use parser::Cursor;
use schema::kind::Kind;
use wire::Writer;

fn put_import(w: &mut Writer, t: &[u8], x: u64)
    requires { NamedHere t.now x }
    ensures { Puts w.old (encode_import (meaning_at t.now x)) w.new }
{
    let at = sorted::place_of(x);
    let Ok((i, _)) = parser::parse_import(t, Cursor { at }) else {
        unreachable!();
    };
    let range = records::span_tokens(t, at, i.last());
    let name = sorted::name_of(t, x);
    let path = token::payload_at(t, i.path);
    records::put_named_of_kind(w, Kind::Import, range, name, path);
}

pub fn put_imports(w: &mut Writer, t: &[u8], imports: &[u64])
    requires { All (NamedHere t.now) imports.now }
    ensures { Puts w.old (imports_at t.now imports.now) w.new }
{
    for x in imports {
        put_import(w, t, *x);
    }
}
