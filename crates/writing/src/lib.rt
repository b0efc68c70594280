// Writing: words, and a union as it is handed out, from the array in which it was built.
#![tactic(auto)]

mod union;
mod words;

pub use union::put_union;
pub use words::put_word;
