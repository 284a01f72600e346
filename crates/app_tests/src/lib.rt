//! Tests of the top call over ports that no command has: ports of which each call fails in turn, or that move a few bytes a call; a script
//! that is read only when its lines are answered; files that can be read once; a sink that counts its calls; and gates before the cells
//! that are built, which count them and hold workers. What a command shows by its words, files, outputs and status stands in `cases/`.
#![tactic(auto)]

#[cfg(test)]
mod builds;
#[cfg(test)]
mod calls;
#[cfg(test)]
mod files;
#[cfg(test)]
mod given;
#[cfg(test)]
mod grammars;
#[cfg(test)]
mod lending;
#[cfg(test)]
mod one_call;
#[cfg(test)]
mod pipes;
#[cfg(test)]
mod running;
#[cfg(test)]
mod talks;
#[cfg(test)]
mod turns;
#[cfg(test)]
mod workers;
