// The order of two names, which is that of their snake forms.
ghost use Rattle.std.specs.Prelude.{◌≡◌, ◌≤◌, length};
ghost use Rattle.identifier.specs.Forms.{low, bar_low};
ghost use Rattle.identifier.specs.Left.{left_of, state_to};
ghost use Rattle.identifier.specs.Order.{order_of, name_order, same_name, SameTo};

use super::form_bytes::{Case, FormBytes, State};
use super::tables::is_plain;
use std::cmp::Ordering;

/// The order of two names, which is that of their snake forms.
pub fn compare(a: &[u8], b: &[u8]) -> Ordering
    ensures { result ≡ name_order a.now b.now }
{
    let at = skip_same(a, b);
    match (a.get(at), b.get(at)) {
        (Some(x), Some(y)) if is_plain(*x) && is_plain(*y) => x.cmp(y),
        _ => compare_from(&a[at..], &b[at..], state_to(a, at)),
    }
}

/// Whether two names have one snake form.
pub fn same(a: &[u8], b: &[u8]) -> bool
    ensures { result ≡ same_name a.now b.now }
{
    compare(a, b).is_eq()
}

// Past the bytes that two names begin with in common: so far their forms are the same.
fn skip_same(a: &[u8], b: &[u8]) -> usize
    ensures { SameTo a.now b.now result }
{
    a.iter().zip(b).take_while(|(x, y)| x == y).count()
}

// The state at a place of a name.
fn state_to(name: &[u8], at: usize) -> State
    requires { at ≤ length name.now }
    ensures { result ≡ state_to name.now at }
{
    name[..at]
        .iter()
        .fold(State::Before, |state, b| state.after(*b))
}

// What is left of two snake forms, compared byte by byte up to the first difference; neither is built.
fn compare_from(a: &[u8], b: &[u8], state: State) -> Ordering
    ensures { result ≡ order_of (left_of low bar_low state a.now) (left_of low bar_low state b.now) }
{
    let x = FormBytes {
        rest: a,
        case: Case::Snake,
        state,
    };
    let y = FormBytes {
        rest: b,
        case: Case::Snake,
        state,
    };
    x.cmp(y)
}
