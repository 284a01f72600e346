ghost use Rattle.rhythm_app.specs.Stops.{midi_status_of, prepare_status_of, status_of};
ghost use Rattle.std.specs.Prelude.{◌≡◌};

use grammar_file::GrammarFault;
use kern_reader::KernFault;
use performance_prepare::PrepareFault;
use rhythm_base::EditFault;
use smf_reader::SmfFault;

/// Which of the command's inputs.
#[derive(Clone, Copy)]
pub enum Kind {
    /// The MIDI file.
    Midi,
    /// The grammar file.
    Grammar,
    /// The **kern file.
    Kern,
    /// The script file, whose edits are made first.
    ScriptFile,
    /// The edit script, which is no file by name.
    Script,
}

/// Why a MIDI file of several ends a run: what a run ends by that reads the file alone.
#[derive(Clone, Copy)]
pub enum MidiStop {
    /// The file is too long; so many bytes of it were read.
    TooLong { read: u64 },
    /// Its first fault.
    Smf(SmfFault),
    /// It has no note.
    NoNotes,
    /// It has more than 65,536 notes: this many.
    TooManyNotes { count: u64 },
    /// A bar takes a signature that is out of range.
    BadSignature { num: u8, dd: u8 },
    /// A bar has no whole number of ticks.
    UnevenBar { bar: u32, num: u8, den: u8 },
    /// There would be more than 4,096 bars; the next one would begin at this tick.
    TooManyBars { start: u64 },
    /// There are more than 16,384 cells: this many bars of voices.
    TooManyCells { count: u64 },
    /// The grammar has no root symbol for the signature of this bar.
    NoStart { bar: u32, num: u8, den: u8 },
    /// A voice has no derivation that fits: its channel and its dead bar.
    NoDerivation { channel: u8, bar: u32 },
    /// The file was not read.
    Read,
}

impl MidiStop {
    /// The status that the program ends with.
    pub fn status(&self) -> u8
        ensures { result ≡ midi_status_of self.now }
    {
        match self {
            MidiStop::Smf(_)
            | MidiStop::NoNotes
            | MidiStop::BadSignature { .. }
            | MidiStop::UnevenBar { .. }
            | MidiStop::NoStart { .. } => 2,
            MidiStop::NoDerivation { .. } => 3,
            MidiStop::TooLong { .. }
            | MidiStop::TooManyNotes { .. }
            | MidiStop::TooManyBars { .. }
            | MidiStop::TooManyCells { .. } => 4,
            MidiStop::Read => 5,
        }
    }
}

/// The status that the program ends with, where the options cannot be followed.
fn prepare_status(fault: PrepareFault) -> u8
    ensures { result ≡ prepare_status_of fault }
{
    match fault {
        PrepareFault::NoNotes | PrepareFault::BadUpbeat { .. } => 2,
        PrepareFault::TooManyVoices { .. }
        | PrepareFault::WrongDivision { .. }
        | PrepareFault::TooLate { .. } => 4,
        PrepareFault::Memory => 7,
    }
}

/// Why a run ends without its answer.
#[derive(Clone, Copy)]
pub enum Stop {
    /// The words are no command.
    Usage,
    /// A file or the script is too long; so many bytes of it were read.
    FileTooLong { kind: Kind, read: u64 },
    /// A line of the script is longer than 4,096 bytes; so many of it were read.
    LineTooLong { read: u64 },
    /// The first fault of the MIDI file.
    Smf(SmfFault),
    /// The first fault of the grammar file.
    Grammar(GrammarFault),
    /// The first line of the **kern file with a fault.
    Kern(KernFault),
    /// The MIDI file has no note.
    NoNotes,
    /// The MIDI file has more than 65,536 notes: this many.
    TooManyNotes { count: u64 },
    /// A bar takes a signature that is out of range.
    BadSignature { num: u8, dd: u8 },
    /// A bar has no whole number of ticks.
    UnevenBar { bar: u32, num: u8, den: u8 },
    /// There would be more than 4,096 bars; the next one would begin at this tick.
    TooManyBars { start: u64 },
    /// There are more than 16,384 cells: this many bars of voices.
    TooManyCells { count: u64 },
    /// The grammar has no root symbol for the signature of this bar.
    NoStart { bar: u32, num: u8, den: u8 },
    /// The take of the MIDI file cannot be prepared by the options.
    Unprepared(PrepareFault),
    /// A voice has no derivation that fits: its channel and its dead bar.
    NoDerivation { channel: u8, bar: u32 },
    /// The score is longer than 67,108,864 bytes; the number, from 1, of the first line that ends past them.
    ScoreTooLong { line: u32 },
    /// The last barline of the score is too late for a MIDI file: its tick there, which is above 268,435,455.
    RenderTooLong { tick: u64 },
    /// One of several MIDI files, by its number, from 1.
    InFile { number: u32, stop: MidiStop },
    /// There are more than 256 MIDI files to learn from: this many.
    TooManyFiles { count: u64 },
    /// There are more than 256 candidates for a barline: this many.
    TooManyCandidates { count: u64 },
    /// There is no such barline to be set: its number.
    NoBarline { bar: u32 },
    /// A barline can be set to none of its candidates.
    NoCandidate,
    /// A line of the script file, by its number, from 1, says no edit, or its edit is refused.
    ScriptLine { line: u32, fault: Option<EditFault> },
    /// A file or the script was not read.
    Read(Kind),
    /// The output was not written.
    Write,
    /// Want of memory.
    Memory,
}

impl Stop {
    /// The status that the program ends with.
    pub fn status(&self) -> u8
        ensures { result ≡ status_of self.now }
    {
        match self {
            Stop::Usage => 1,
            Stop::Smf(_)
            | Stop::Grammar(_)
            | Stop::Kern(_)
            | Stop::NoNotes
            | Stop::BadSignature { .. }
            | Stop::UnevenBar { .. }
            | Stop::NoStart { .. }
            | Stop::ScriptLine { .. } => 2,
            Stop::Unprepared(fault) => prepare_status(*fault),
            Stop::NoDerivation { .. } => 3,
            Stop::FileTooLong { .. }
            | Stop::LineTooLong { .. }
            | Stop::TooManyNotes { .. }
            | Stop::TooManyBars { .. }
            | Stop::TooManyCells { .. }
            | Stop::ScoreTooLong { .. }
            | Stop::RenderTooLong { .. }
            | Stop::TooManyFiles { .. }
            | Stop::TooManyCandidates { .. } => 4,
            Stop::InFile { stop, .. } => stop.status(),
            Stop::Read(_) => 5,
            Stop::Write => 6,
            Stop::Memory => 7,
            Stop::NoBarline { .. } | Stop::NoCandidate => 9,
        }
    }
}
