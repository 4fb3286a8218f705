//! That lines are read back.

ghost use Rattle.rbc_scene_words.specs.Laws.{ReadLinesAreWritten, SceneLinesAreParsedBack, ScenesAreParsedBack};

/// Each line of a scene that is written is read as what it says, and so are the lines of a good scene, one by one. What a line
/// says is read of no other spelling.
pub fn scene_lines_are_parsed_back()
    ensures lines { SceneLinesAreParsedBack }
    ensures scenes { ScenesAreParsedBack }
    ensures written { ReadLinesAreWritten }
{}
