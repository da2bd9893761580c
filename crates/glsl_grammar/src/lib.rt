// The grammar of the text: its tokens, how a tree is read from them, and how a tree is laid out as text.
#![tactic(auto)]

mod marks;

pub use marks::Mark;
