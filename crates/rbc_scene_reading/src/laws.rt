//! That the scenes that are read are good ones, and that each that was written is read.

ghost use Rattle.rbc_scene_reading.specs.Laws.{OneTextIsRead, ReadScenesAreGood, WrittenScenesAreRead};

use rbc_scene_words::scene_lines_are_parsed_back;

/// A scene that is read is a good one, is as what was told leaves it, and can be written in lines.
pub fn read_scenes_are_good()
    ensures { ReadScenesAreGood }
{}

/// Each scene that is so is read from the lines in which it is written.
pub fn written_scenes_are_read()
    ensures { WrittenScenesAreRead }
{
    scene_lines_are_parsed_back();
}

/// The lines of a scene that is read are those in which it is written, but for what trains would be granted.
pub fn one_text_is_read()
    ensures { OneTextIsRead }
{
    scene_lines_are_parsed_back();
}
