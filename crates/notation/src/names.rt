ghost use Rattle.notation.specs.Names as definitions;
ghost use Rattle.notation.specs.Names.{NamesAreOne};
ghost use Rattle.derivation.specs.Score.{IsKeySignature};
ghost use Rattle.std.specs.Prelude.{◌≡◌, ◌==◌, ◌%◌, ◌<◌, ◌≤◌, IfSome};

/// The letters of pitches.
#[derive(Clone, Copy, Debug, PartialEq, Eq)]
pub enum Letter {
    C,
    D,
    E,
    F,
    G,
    A,
    B,
}

/// How a pitch is altered: so many keys down or up.
#[derive(Clone, Copy, Debug, PartialEq, Eq)]
pub enum Alteration {
    DoubleFlat,
    Flat,
    Natural,
    Sharp,
    DoubleSharp,
}

/// The name of a pitch.
#[derive(Clone, Copy, Debug, PartialEq, Eq)]
pub struct PitchName {
    pub letter: Letter,
    pub alteration: Alteration,
    /// That of the letter, -2 to 9: middle C is of octave 4, and so is the C flat that is a key below it.
    pub octave: i8,
}

/// The letters by rising fifths.
const LETTERS: [Letter; 7] = [
    Letter::F,
    Letter::C,
    Letter::G,
    Letter::D,
    Letter::A,
    Letter::E,
    Letter::B,
];

/// The letter at a place on the line of fifths.
fn letter_at(place: u8) -> Letter
    ensures { result ≡ definitions.letter_at place }
{
    LETTERS[usize::from(place % 7)]
}

/// The alteration at a place on the line of fifths.
fn alteration_at(place: u8) -> Alteration
    ensures { result ≡ definitions.alteration_at place }
{
    match place / 7 {
        0 => Alteration::DoubleFlat,
        1 => Alteration::Flat,
        2 => Alteration::Natural,
        3 => Alteration::Sharp,
        _ => Alteration::DoubleSharp,
    }
}

/// The place of the tonic of the major key of a signature.
fn tonic(sf: i8) -> u8
    requires { IsKeySignature sf }
    ensures place { result ≡ definitions.tonic (Some sf) }
    ensures low { 8 ≤ result }
    ensures high { result ≤ 22 }
{
    (15 + sf) as u8
}

/// The lowest place of the window of a key signature: three names below the tonic of its major key.
fn lowest_place(sf: Option<i8>) -> u8
    requires { IfSome sf IsKeySignature }
    ensures place { result ≡ definitions.lowest_place sf }
    ensures few { result ≤ 19 }
{
    match sf {
        None => 12,
        Some(sf) => tonic(sf) - 3,
    }
}

/// Whether the name at a place says a key, in some octave.
fn says(place: u8, key: u8) -> bool
    requires { place < 35 }
    ensures { result ≡ (definitions.pitch_class place == key % 12) }
{
    (7 * place + 3) % 12 == key % 12
}

/// The place of the name of a key within the window of a key signature.
fn place_of(key: u8, sf: Option<i8>) -> u8
    requires { IfSome sf IsKeySignature }
    ensures place { result ≡ definitions.place_of sf key }
    ensures few { result < 35 }
{
    let lowest = lowest_place(sf);
    'places: for place in lowest..lowest + 12 {
        if says(place, key) {
            return place;
        }
    }
    lowest
}

/// The key of a letter above the C of its octave.
fn letter_key(letter: Letter) -> u8
    ensures key { result ≡ definitions.letter_key letter }
    ensures few { result ≤ 11 }
{
    match letter {
        Letter::C => 0,
        Letter::D => 2,
        Letter::E => 4,
        Letter::F => 5,
        Letter::G => 7,
        Letter::A => 9,
        Letter::B => 11,
    }
}

/// The octave of the name of a key at a place on the line of fifths.
fn octave_of(key: u8, place: u8) -> i8
    requires key { key < 128 }
    requires place { place < 35 }
    ensures { result ≡ definitions.octave_of key place }
{
    let above_lowest = letter_key(letter_at(place)) + place / 7;
    ((key + 26 - above_lowest) / 12) as i8 - 3
}

/// The name of a key where a key signature is in force or none: the one that stands on the line of fifths from three names below the tonic
/// of the signature's major key, of C without one, to eight above it.
pub fn pitch_name(key: u8, sf: Option<i8>) -> PitchName
    requires key { key < 128 }
    requires sf { IfSome sf IsKeySignature }
    ensures { result ≡ definitions.pitch_name sf key }
{
    let place = place_of(key, sf);
    PitchName {
        letter: letter_at(place),
        alteration: alteration_at(place),
        octave: octave_of(key, place),
    }
}

/// Each key has exactly one name in the window of a key signature.
pub fn names_are_one()
    ensures { NamesAreOne }
{}
