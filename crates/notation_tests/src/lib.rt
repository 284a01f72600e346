// Tests of the way from a derivation to what is written, each by a table: the sounds and spans of derivations, the values of
// a length, the values with dots of the leaves and ties of a bar, the texts of scores, and what texts come to when they are read.
#![tactic(auto)]

#[cfg(test)]
mod kern;
#[cfg(test)]
mod kern_read;
#[cfg(test)]
mod lengths;
#[cfg(test)]
mod sounds;
