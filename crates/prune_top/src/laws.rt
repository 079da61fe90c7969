ghost use Rattle.prune_top.specs.Laws.{PrunedLaw, PrunedTextLaw};

use script_text::{read_textable_law, script_text_law};

/// Where the session of a script completes, over assets that stay as they are, the session of the
/// pruned script completes too, refuses no call, and renders the same rows.
pub fn pruned_law()
    ensures { PrunedLaw }
{}

/// The text of a pruned script is read again as the pruned script, for every script that was read
/// and whose context can be rendered.
pub fn pruned_text_law()
    ensures { PrunedTextLaw }
{
    script_text_law();
    read_textable_law();
}
