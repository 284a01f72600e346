ghost use Rattle.notation.specs.Laws.{GroupsArePlain, GroupsFillTheBar, NotesFillTheirGroup, NotesHaveTheirRatio, VoiceGroupsAreOne, VoiceGroupsExist};

/// A bar has at most one list of groups, and a voice at most one for all its bars.
pub fn voice_groups_are_one()
    ensures { VoiceGroupsAreOne }
{}

/// Each bar has a list of groups, and each voice one for all its bars.
pub fn voice_groups_exist()
    ensures { VoiceGroupsExist }
{}

/// The tokens of each group of a bar start and end at plain places.
pub fn groups_are_plain()
    ensures { GroupsArePlain }
{}

/// A note lasts as much of its value as the ratio of its group says.
pub fn notes_have_their_ratio()
    ensures { NotesHaveTheirRatio }
{}

/// The notes of a group fill it.
pub fn notes_fill_their_group()
    ensures { NotesFillTheirGroup }
{}

/// The groups of a bar fill it, unless it has rests alone.
pub fn groups_fill_the_bar()
    ensures { GroupsFillTheBar }
{}
