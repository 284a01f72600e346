//! The theory of ranked paths: keys, which are costs and lists of ranks, their order, and the least of them; and matrices of
//! ranked entries, whose tables multiply. There is no code here but the public functions whose contracts are the laws.
#![tactic(auto)]

mod laws;

pub use laws::{one_table_is_its_own, products_take_the_least, tables_multiply};
