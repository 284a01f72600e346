//! That every command line has an outcome, whatever its words and whatever the bytes of its files: each test of a command
//! passes or names a stop. There is no code here but the public functions whose contracts are the laws.
#![tactic(auto)]

mod laws;

pub use laws::{
    answerings_exist, drillings_exist, fittings_exist, followings_exist, learnings_exist,
    listings_exist, loadings_exist, notings_exist, playings_exist, playings_without_options,
    runs_have_outcomes, script_files_are_edits, writings_exist,
};
