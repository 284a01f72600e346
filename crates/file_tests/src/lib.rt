// Tests of what stands between a MIDI file and the chords of its voices: the events, the notes, what is in force at each tick,
// the bars and the performance. Beside them stand tests of the pieces and edits that are made from a number. What is wrong with a file, and
// the bars and notes that `notes` shows, stand in `cases/`.
#![tactic(auto)]

#[cfg(test)]
mod gathering;
#[cfg(test)]
mod generating;
#[cfg(test)]
mod laying;
#[cfg(test)]
mod loading;
#[cfg(test)]
mod pairing;
#[cfg(test)]
mod reading;
