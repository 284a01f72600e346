//! Tests of what is read and written as text: the words of command lines, grammar files, and the lines of edit scripts
//! with the replies to them; of what such lines make of a performance; of grammars whose weights are learned; and of the text that a session starts from. They
//! call public functions alone, for answers that no command shows. Which lines are refused, and why, stands in `cases/`.
#![tactic(auto)]

#[cfg(test)]
mod command_lines;
#[cfg(test)]
mod edits;
#[cfg(test)]
mod grammars;
#[cfg(test)]
mod learning;
#[cfg(test)]
mod notes;
#[cfg(test)]
mod scripts;
#[cfg(test)]
mod written_scripts;
