// The answers of the unchanged Rust, replayed: prints what typefmt prints of each table in a list.
#![tactic(auto)]

fn main() {
    stream::answer_all();
}
