ghost use Rattle.command_line.specs.CommandLines.{HasOptions};
ghost use Rattle.rhythm_app.specs.Asked.{AreTicks, AsksBy, AsksOn, IsCommandWord, IsRequestInRange, asked_of, candidates_by, command_by, drill_by, fit_of, generate_by, in_order, learn_by, shown_asked, shown_request, unscripted, untold, words_after, workers_asked};
ghost use Rattle.performance_prepare.specs.Ranges.{AreInRange};
ghost use Rattle.rhythm_app.specs.Inputs.{shown_inputs, shown_name};
ghost use Rattle.rhythm_base.specs.declared.limits.TheConstants.{LATEST_TICK};
ghost use Rattle.std.specs.Prelude.{◌≡◌, ◌≤◌, ◌↔◌, ◌∷◌, [], IfSome, IsFalse, IsSome, Some, codes, drop, nat_eq, option_map};
ghost use Rattle.std.specs.Cmp.Lexicographic.{pointwise};

use crate::learn::MOST_FILES;
use barline_fit::{Candidates, MOST_CANDIDATES};
use command_line::{Invocation, number_in};
use performance_prepare::Options;
use rhythm_base::{LATEST_TICK, MOST_BARS, Words, Workers};
use weight_learning::HEAVIEST_BIT;

/// The inputs of a command on a MIDI file and a grammar: the names of its files, and what is told of the performance.
#[derive(Clone, Copy)]
pub struct Inputs<'a> {
    pub midi: &'a str,
    pub grammar: &'a str,
    /// How the take of the MIDI file is prepared.
    pub options: Options,
    /// The script file whose edits are made first.
    pub script: Option<&'a str>,
}

/// What is written of a session on a performance.
#[derive(Clone, Copy)]
pub enum Form {
    /// The **kern text of its score.
    Score,
    /// The LilyPond text of its events.
    LilyPond,
    /// The LilyPond text of its score, by its notation.
    Page,
    /// The MusicXML text of its score.
    MusicXml,
    /// The MIDI file of its events.
    Rendered,
}

/// What answers a script over a session.
#[derive(Clone, Copy)]
pub enum Talk {
    /// An editor.
    Editing,
    /// A studio, which takes edits back, and makes them again.
    Studio,
}

/// What the words ask for.
#[derive(Clone, Copy)]
pub enum Request<'a> {
    /// How the program is called.
    Help,
    /// The name of the program and its version.
    Version,
    /// A text of the session on a MIDI file and a grammar.
    Write(Form, Inputs<'a>),
    /// The replies to a script over the session on a MIDI file and a grammar.
    Answer(Talk, Inputs<'a>),
    /// The best tick for a barline of the session on a MIDI file and a grammar, and the score with the barline there.
    Fit {
        inputs: Inputs<'a>,
        among: Candidates,
    },
    /// The same, of too many ticks: this many.
    TooManyCandidates {
        count: u64,
    },
    /// The grammar with weights that are learned: how much a rule costs more that is used half as often as another, the name of the
    /// grammar file, and the words of the command line, of which those from the fourth on are the names of the MIDI files.
    Learn {
        bit: u32,
        grammar: &'a str,
        words: &'a Words,
    },
    /// The same, of too many files: this many.
    TooManyFiles {
        count: u64,
    },
    /// The script that moves the barlines of a MIDI file to those that follow the player, by a grammar.
    Follow(Inputs<'a>),
    /// The bars, tempos, keys and notes of a MIDI file, as its take is prepared.
    Notes {
        midi: &'a str,
        options: Options,
    },
    /// The events of a **kern file.
    Events(&'a str),
    /// The MIDI file of the piece of a number.
    Generate {
        number: u32,
        bars: u32,
    },
    /// The summary of the drill of a number by a grammar.
    Drill {
        number: u32,
        grammar: &'a str,
    },
}

/// What the words after the word of a command are, where it is one.
pub fn words_after(word: &str) -> Option<&'static str>
    ensures after { option_map (λ s. s.now) result ≡ words_after word.now }
    ensures known { IsSome result ↔ IsCommandWord word.now }
{
    match word {
        "transcribe" | "lily" | "page" | "musicxml" | "render" | "edit" | "studio" | "follow" => {
            Some("MIDI GRAMMAR")
        }
        "fit" => Some(
            "MIDI GRAMMAR BAR LOW HIGH STEP, with BAR from 0 to 4096, LOW and HIGH from 0 to 2000000000, LOW no more than HIGH, and STEP from 1 to 2000000000",
        ),
        "learn" => Some("BIT GRAMMAR MIDI..., with BIT from 1 to 10000, and 1 to 256 MIDI files"),
        "notes" => Some("MIDI"),
        "events" => Some("KERN"),
        "generate" => Some("NUMBER BARS, with NUMBER from 0 to 65534 and BARS from 1 to 2000"),
        "drill" => Some("NUMBER GRAMMAR, with NUMBER from 0 to 65534"),
        _ => None,
    }
}

/// A command without a script file.
fn unscripted<'a>(script: Option<&str>, request: Option<Request<'a>>) -> Option<Request<'a>>
    requires { IfSome request IsRequestInRange }
    ensures asked { shown_asked result ≡ unscripted (shown_name script.entry) (shown_asked request.entry) }
    ensures range { IfSome result IsRequestInRange }
{
    match script {
        None => request,
        Some(_name) => None,
    }
}

/// A command for which nothing is told of a take, and without a script file.
fn untold<'a>(
    options: &Options,
    script: Option<&str>,
    request: Option<Request<'a>>,
) -> Option<Request<'a>>
    requires { IfSome request IsRequestInRange }
    ensures asked { shown_asked result ≡ untold options.now (shown_name script.entry) (shown_asked request.entry) }
    ensures range { IfSome result IsRequestInRange }
{
    if options.is_told() {
        None
    } else {
        unscripted(script, request)
    }
}

/// Whether options say how the MIDI file of the command is prepared.
pub fn takes_options(word: &str) -> bool {
    !matches!(word, "learn" | "events" | "generate" | "drill")
}

/// Whether the edits of a script file are made before the command does anything else.
pub fn takes_script(word: &str) -> bool {
    word != "notes" && takes_options(word)
}

/// The command of a word and the name of one file.
fn request_of_one<'a>(
    options: &Options,
    script: Option<&str>,
    word: &'a str,
    file: &'a str,
) -> Option<Request<'a>>
    requires { AreInRange options.now }
    ensures asked { AsksBy options.now script.entry (word.entry ∷ file.entry ∷ []) result }
    ensures range { IfSome result IsRequestInRange }
{
    if word == "notes" {
        let notes = Request::Notes {
            midi: file,
            options: *options,
        };
        unscripted(script, Some(notes))
    } else if word == "events" {
        untold(options, script, Some(Request::Events(file)))
    } else {
        None
    }
}

/// `generate` with its two numbers.
fn generate_request<'a>(number: &'a str, bars: &'a str) -> Option<Request<'a>>
    ensures asked { shown_asked result ≡ generate_by number.entry.now bars.entry.now }
    ensures range { IfSome result IsRequestInRange }
{
    let number = number_in(number, 0, 65534)? as u32;
    let bars = number_in(bars, 1, 2000)? as u32;
    Some(Request::Generate { number, bars })
}

/// `drill` with its number and the name of its file.
fn drill_request<'a>(number: &'a str, grammar: &'a str) -> Option<Request<'a>>
    ensures asked { shown_asked result ≡ drill_by number.entry.now grammar.entry.now }
    ensures range { IfSome result IsRequestInRange }
{
    let number = number_in(number, 0, 65534)? as u32;
    Some(Request::Drill { number, grammar })
}

/// `learn` with its number and the names of its files.
fn learn_request<'a>(words: &'a Words) -> Option<Request<'a>>
    ensures asked { shown_asked result ≡ learn_by (drop 1 words.entry.now) }
    ensures range { IfSome result IsRequestInRange }
{
    let bit = words.get(1)?;
    let grammar = words.get(2)?;
    let _first = words.get(3)?;
    let bit = number_in(bit, 1, u64::from(HEAVIEST_BIT))? as u32;
    let files = words.count() - 3;
    if files <= MOST_FILES {
        Some(Request::Learn {
            bit,
            grammar,
            words,
        })
    } else {
        Some(Request::TooManyFiles {
            count: files as u64,
        })
    }
}

/// The command of a word and two more.
fn request_of_two<'a>(
    options: &Options,
    script: Option<&'a str>,
    word: &'a str,
    first: &'a str,
    second: &'a str,
) -> Option<Request<'a>>
    requires { AreInRange options.now }
    ensures asked { AsksBy options.now script.entry (word.entry ∷ first.entry ∷ second.entry ∷ []) result }
    ensures range { IfSome result IsRequestInRange }
{
    let inputs = Inputs {
        midi: first,
        grammar: second,
        options: *options,
        script,
    };
    if word == "transcribe" {
        Some(Request::Write(Form::Score, inputs))
    } else if word == "lily" {
        Some(Request::Write(Form::LilyPond, inputs))
    } else if word == "page" {
        Some(Request::Write(Form::Page, inputs))
    } else if word == "musicxml" {
        Some(Request::Write(Form::MusicXml, inputs))
    } else if word == "render" {
        Some(Request::Write(Form::Rendered, inputs))
    } else if word == "edit" {
        Some(Request::Answer(Talk::Editing, inputs))
    } else if word == "studio" {
        Some(Request::Answer(Talk::Studio, inputs))
    } else if word == "follow" {
        Some(Request::Follow(inputs))
    } else if word == "generate" {
        untold(options, script, generate_request(first, second))
    } else if word == "drill" {
        untold(options, script, drill_request(first, second))
    } else {
        None
    }
}

/// The candidates, where the lowest tick is no later than the highest.
fn in_order(among: Candidates) -> Option<Candidates>
    ensures asked { result ≡ in_order among }
    ensures order { IfSome result (λ c. c.low ≤ c.high) }
    ensures same { IfSome result (λ c. c ≡ among) }
{
    if among.low <= among.high {
        Some(among)
    } else {
        None
    }
}

/// The candidates of a barline that four words say.
fn candidates_of(bar: &str, low: &str, high: &str, step: &str) -> Option<Candidates>
    ensures asked { result ≡ candidates_by bar.now low.now high.now step.now }
    ensures order { IfSome result (λ c. c.low ≤ c.high) }
    ensures high { IfSome result (λ c. c.high ≤ LATEST_TICK) }
    ensures step { IfSome result (λ c. 1 ≤ c.step) }
{
    let bar = number_in(bar, 0, u64::from(MOST_BARS))? as u32;
    let low = number_in(low, 0, LATEST_TICK)?;
    let high = number_in(high, 0, LATEST_TICK)?;
    let step = number_in(step, 1, LATEST_TICK)?;
    in_order(Candidates {
        bar,
        low,
        high,
        step,
    })
}

/// The fit of a barline, where there are not too many candidates.
fn fit_request<'a>(inputs: Inputs<'a>, among: Candidates) -> Request<'a>
    requires options { AreInRange inputs.options }
    requires ticks { AreTicks among }
    ensures asked { shown_request result ≡ fit_of (shown_inputs inputs.entry) among }
    ensures range { IsRequestInRange result }
{
    let count = among.count();
    if count <= MOST_CANDIDATES {
        Request::Fit { inputs, among }
    } else {
        Request::TooManyCandidates { count }
    }
}

/// The command of a word, two files and four numbers.
fn request_of_six<'a>(
    word: &'a str,
    inputs: Inputs<'a>,
    bar: &'a str,
    low: &'a str,
    high: &'a str,
    step: &'a str,
) -> Option<Request<'a>>
    requires options { AreInRange inputs.options }
    requires other { IsFalse (pointwise nat_eq word.now (codes "learn")) }
    ensures asked { AsksOn inputs.entry word.entry (bar.entry ∷ low.entry ∷ high.entry ∷ step.entry ∷ []) result }
    ensures range { IfSome result IsRequestInRange }
{
    if word == "fit" {
        match candidates_of(bar, low, high, step) {
            Some(among) => Some(fit_request(inputs, among)),
            None => None,
        }
    } else {
        None
    }
}

/// The command that the words are.
fn command_of<'a>(
    options: &Options,
    script: Option<&'a str>,
    words: &'a Words,
) -> Option<Request<'a>>
    requires { AreInRange options.now }
    ensures asked { shown_asked result ≡ command_by options.now (shown_name script.entry) words.entry.now }
    ensures range { IfSome result IsRequestInRange }
{
    let word = words.get(0)?;
    if word == "learn" {
        return untold(options, script, learn_request(words));
    }
    let first = words.get(1)?;
    match words.count() {
        2 => request_of_one(options, script, word, first),
        3 => {
            let second = words.get(2)?;
            request_of_two(options, script, word, first, second)
        }
        7 => {
            let inputs = Inputs {
                midi: first,
                grammar: words.get(2)?,
                options: *options,
                script,
            };
            let bar = words.get(3)?;
            let low = words.get(4)?;
            let high = words.get(5)?;
            let step = words.get(6)?;
            request_of_six(word, inputs, bar, low, high, step)
        }
        _ => None,
    }
}

/// What is asked for.
pub fn request_of<'a>(said: &'a Invocation) -> Option<Request<'a>>
    requires { HasOptions said.now }
    ensures asked { shown_asked result ≡ asked_of said.entry.now }
    ensures range { IfSome result IsRequestInRange }
{
    match said {
        Invocation::Help => Some(Request::Help),
        Invocation::Version => Some(Request::Version),
        Invocation::Command(line) => command_of(&line.options, line.script.get(0), &line.words),
    }
}

/// The number of workers that build cells.
pub fn workers_of(said: &Invocation) -> Workers
    ensures { result ≡ workers_asked said.now }
{
    match said {
        Invocation::Help | Invocation::Version => Workers::one(),
        Invocation::Command(line) => line.workers,
    }
}
