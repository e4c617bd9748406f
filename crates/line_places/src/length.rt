ghost use Rattle.std.specs.Prelude.{◌≡◌};
ghost use Rattle.std.specs.List.{list_any};
ghost use Rattle.line_places.specs.First.{is_steps};
ghost use Rattle.line_places.specs.Lengths.{length_by, line_length};

use crate::expected::{Expected, Language, Length};
use crate::faults::{is_required, takes_word};
use crate::first::is_steps;
use crate::tables::places_of;

/// How many words a line takes that has no steps, if the language has its command.
pub fn line_length(language: Language, command: &[u8]) -> Option<Length>
    ensures { result ≡ line_length language command.now }
{
    length_by(places_of(language, command)?)
}

/// How many words these places take, and the command before them; where they have steps it is any number.
fn length_by(places: &[Expected]) -> Option<Length>
    ensures { result ≡ length_by places.now }
{
    if has_steps(places) {
        return None;
    }
    let least = places
        .iter()
        .filter(|expected| is_required(**expected))
        .count();
    let most = places
        .iter()
        .filter(|expected| takes_word(**expected))
        .count();
    Some(Length {
        least: least + 1,
        most: most + 1,
    })
}

/// Whether the places have steps.
fn has_steps(places: &[Expected]) -> bool
    ensures { result ≡ list_any is_steps places.now }
{
    places.iter().any(|expected| is_steps(*expected))
}
