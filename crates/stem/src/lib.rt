// The stem of a path, as Rust's standard library has it on Unix: a part of the path, never a copy.
#![tactic(auto)]

ghost use Rattle.std.specs.Prelude.{◌≡◌};
ghost use Rattle.stem.specs.Stem.{kept, last_part, is_parent, last_dot, stem_of, import_name};
ghost use Rattle.stem.specs.Part.{IsPart};

// Whether a part counts: it is neither empty nor `.`.
fn is_kept(part: &[u8]) -> bool
    ensures { result ≡ kept part.now }
{
    !matches!(part, [] | [b'.'])
}

// Whether a part is `..`.
#[tactic(auto, unfolding(crate::specs::Stem::is_parent))]
fn is_parent(part: &[u8]) -> bool
    ensures { result ≡ is_parent part.now }
{
    matches!(part, [b'.', b'.'])
}

// An empty part is none throughout: the name of an import is a part of one of two slices (`import_name`).
// A part of some bytes, from a place up to another.
#[derive(Clone, Copy, Drop)]
pub struct Part {
    pub from: usize,
    pub to: usize,
}

// The last part that counts, or an empty one.
fn last_part(path: &[u8]) -> Part
    ensures { IsPart path.now (last_part path.now) result }
{
    let mut last = Part { from: 0, to: 0 };
    let mut start = 0;
    // `split` would give the parts and not their places.
    for (i, b) in path.iter().enumerate() {
        if *b == b'/' {
            if is_kept(&path[start..i]) {
                last = Part { from: start, to: i };
            }
            start = i + 1;
        }
    }
    if is_kept(&path[start..]) {
        return Part {
            from: start,
            to: path.len(),
        };
    }
    last
}

// The place of the last dot, or 0.
fn last_dot(part: &[u8]) -> usize
    ensures { result ≡ last_dot 0 0 part.now }
{
    let mut best = 0;
    for (i, b) in part.iter().enumerate() {
        if *b == b'.' {
            best = i;
        }
    }
    best
}

// Where the stem of a path is, an empty part where it has none.
pub fn find(path: &[u8]) -> Part
    ensures { IsPart path.now (stem_of path.now) result }
{
    let last = last_part(path);
    let part = &path[last.from..last.to];
    if is_parent(part) {
        return Part {
            from: last.from,
            to: last.from,
        };
    }
    match last_dot(part) {
        0 => last,
        dot => Part {
            from: last.from,
            to: last.from + dot,
        },
    }
}

// The stem of a path, or an empty part where it has none.
pub fn stem(path: &[u8]) -> &[u8]
    ensures { result.now ≡ stem_of path.now }
{
    let found = find(path);
    &path[found.from..found.to]
}

// The name of an import: its identifier, and where that is empty the stem of its path. It is a part of one of the two, never a copy.
pub fn import_name<'a>(path: &'a [u8], identifier: &'a [u8]) -> &'a [u8]
    ensures { result.now ≡ import_name path.now identifier.now }
{
    if identifier.is_empty() {
        return stem(path);
    }
    identifier
}
