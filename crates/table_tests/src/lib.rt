// The tests of what leads from a voice to its least trees: one leaf of a bar, bars cut out of a voice, the tables of bars,
// their products, and the chain over all bars of a voice. Grammars are read from their texts.
#![tactic(auto)]

#[cfg(test)]
mod alternatives;
#[cfg(test)]
mod bars;
#[cfg(test)]
mod chains;
#[cfg(test)]
mod cuts;
#[cfg(test)]
mod grammars;
#[cfg(test)]
mod large_tables;
#[cfg(test)]
mod leaves;
#[cfg(test)]
mod products;
#[cfg(test)]
mod tables;
#[cfg(test)]
mod workers;
