// The cases of document 01 that are run: prints what typefmt prints of each table in a list.
#![tactic(auto)]

fn main() {
    stream::answer_all();
}
