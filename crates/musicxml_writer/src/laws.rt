ghost use Rattle.musicxml_writer.specs.Laws.{TextsAreOne, TextsExist};

/// A score that can be written has a MusicXML text.
pub fn texts_exist()
    ensures { TextsExist }
{}

/// It has no other.
pub fn texts_are_one()
    ensures { TextsAreOne }
{}
