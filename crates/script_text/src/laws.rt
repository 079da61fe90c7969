ghost use Rattle.script_text.specs.Laws.{ReadTextableLaw, ScriptTextLaw, TwoLevelsLaw};

/// Reading the text of a script gives the script.
pub fn script_text_law()
    ensures { ScriptTextLaw }
{}

/// A script that was read is read again from its text, where its context can be rendered: the text
/// nests no deeper than what was read.
pub fn read_textable_law()
    ensures { ReadTextableLaw }
{}

/// A script whose `then` lists have no call with such a list, as a generated one, is read again from
/// its text.
pub fn two_levels_law()
    ensures { TwoLevelsLaw }
{}
