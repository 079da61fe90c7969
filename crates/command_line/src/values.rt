ghost use Rattle.std.specs.Prelude.{◌≡◌, ◌≤◌, ◌⊎◌, None, option_map, IfSome};
ghost use Rattle.wa_base.specs.declared.graph_names.Tie.TheVariants.{Up};
ghost use Rattle.command_line.specs.Values as values;
ghost use Rattle.command_line.specs.Words.{generated_in};
ghost use Rattle.command_line.specs.declared.reading.Mode.TheVariants.{Render};

use crate::reading::Mode;
use wa_base::Tie;

/// The bits of a sample that an option asks for; 24 where it is not given.
pub fn bits_of(given: Option<&str>) -> Option<u32>
    ensures value { result ≡ values.value_or values.bits_in 24 (option_map (λ text. text.now) given.entry) }
    ensures width { IfSome result (λ bits. (bits ≡ 16) ⊎ (bits ≡ 24)) }
{
    match given {
        Some("16") => Some(16),
        Some("24") | None => Some(24),
        Some(_) => None,
    }
}

/// Which of two nodes goes first, as an option asks for; the one created earlier where it is not given.
pub fn order_of(given: Option<&str>) -> Option<Tie>
    ensures { result ≡ values.value_or values.order_in Up (option_map (λ text. text.now) given.entry) }
{
    match given {
        Some("up") | None => Some(Tie::Up),
        Some("down") => Some(Tie::Down),
        Some(_) => None,
    }
}

/// What is done with the script, as an option asks for; samples are rendered where it is not given.
pub fn mode_of(given: Option<&str>) -> Option<Mode>
    ensures { result ≡ values.value_or values.mode_in Render (option_map (λ text. text.now) given.entry) }
{
    match given {
        Some("render") | None => Some(Mode::Render),
        Some("check") => Some(Mode::Check),
        Some("migrate") => Some(Mode::Migrate),
        Some(_) => None,
    }
}

/// The number of the script that is generated, as an option asks for; there is none where it is not given.
pub fn generated_of(given: Option<&str>) -> Option<Option<u32>>
    ensures value { result ≡ values.value_or generated_in None (option_map (λ text. text.now) given.entry) }
    ensures most { IfSome result (λ generated. IfSome generated (λ number. number ≤ 9999)) }
{
    match given {
        Some(text) => number_in(text).map(Some),
        None => Some(None),
    }
}

// The number that 1 to 4 decimal digits write.
fn number_in(text: &str) -> Option<u32>
    ensures value { result ≡ values.number_in text.now }
    ensures most { IfSome result (λ number. number ≤ 9999) }
{
    if text.len() > 4 || text.starts_with('+') {
        None
    } else {
        text.parse().ok()
    }
}

/// The path that a text names as OUT: it is not empty, and not `-`.
pub fn out_of(text: &str) -> Option<&str>
    ensures { option_map (λ out. out.now) result ≡ values.out_in text.now }
{
    if text.is_empty() || text == "-" {
        None
    } else {
        Some(text)
    }
}
