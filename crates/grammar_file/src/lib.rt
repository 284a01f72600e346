//! Grammar files, read and printed. A file's lines are a header of four and then starts and rules; what each says by itself,
//! what it may not say after the lines before it, and which grammar all of them give, are definitions over the whole text
//! (`grammar_of`). The reader goes through the lines once and gives exactly that grammar, or exactly the fault that the
//! definition has, with its line. The printer writes the one text without comments, and that text says the grammar.
#![tactic(auto)]

mod draft;
mod endings;
mod fault;
mod header;
mod kind;
mod laws;
mod line;
mod names;
mod number;
mod print;
mod read;
mod said;
mod spelling;
mod symbols;
mod text;
mod words;

pub use fault::{GrammarFault, GrammarWhat};
pub use laws::{printed_grammars_are_read_back, said_grammars_are_readable};
pub use print::print_grammar;
pub use read::read_grammar;
