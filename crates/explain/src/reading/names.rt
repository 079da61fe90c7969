ghost use Rattle.std.specs.Prelude.{◌<◌, ◌^◌, ⊤};
ghost use Rattle.wa_base.specs.GraphNames.{param_word};
ghost use Rattle.explain.specs.Texts.{end_text};
ghost use Rattle.explain.specs.LineReading.{IsReading};

use crate::reading::numbers::index_of;
use wa_base::{End, NodeId, ParamName};

/// The end that a word names.
pub fn end_of(word: &str) -> Option<End>
    ensures { IsReading (λ e. e.node.0 < 2 ^ 32) end_text word.now result }
{
    match word.strip_suffix('w') {
        Some(digits) => {
            let number = index_of(digits)?;
            Some(End {
                node: NodeId(number),
                writer: true,
            })
        }
        None => {
            let number = index_of(word)?;
            Some(End {
                node: NodeId(number),
                writer: false,
            })
        }
    }
}

/// The parameter that a word names.
pub fn name_of(word: &str) -> Option<ParamName>
    ensures { IsReading (λ _. ⊤) param_word word.now result }
{
    match word {
        "offset" => Some(ParamName::Offset),
        "gain" => Some(ParamName::Gain),
        "delayTime" => Some(ParamName::DelayTime),
        "playbackRate" => Some(ParamName::PlaybackRate),
        "detune" => Some(ParamName::Detune),
        _ => None,
    }
}
