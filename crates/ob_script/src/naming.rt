ghost use Rattle.std.specs.Prelude.{◌≡◌, MatchOption, None, Some};
ghost use Rattle.std.specs.Option.{option_map};
ghost use Rattle.ob_manager.specs.Makings.{making_of};
ghost use Rattle.ob_script.specs.Grammar.{make_of, masked, name_of, named};

use crate::rights::mask_of;
use crate::words::Words;
use ob_manager::Make;
use ob_rights::Rights;

/// `[inherit] [access M] [grant M] [name TEXT]`
pub fn make_of(mut words: Words<'_>) -> Option<Make<'_>>
    ensures { option_map making_of result ≡ make_of words.entry }
{
    let inherit = words.skip(b"inherit");
    let access = masked(b"access", &mut words)?;
    let grant = masked(b"grant", &mut words)?;
    let name = named(words)?;
    Some(Make {
        name,
        inherit,
        access,
        grant,
    })
}

/// `[KEYWORD M]`
fn masked(keyword: &[u8], words: &mut Words<'_>) -> Option<Option<Rights>>
    ensures { MatchOption result (masked keyword.now words.old ≡ None)
        (λ mask. masked keyword.now words.old ≡ Some (mask, words.new)) }
{
    if !words.skip(keyword) {
        return Some(None);
    }
    let word = words.next()?;
    let mask = mask_of(word)?;
    Some(Some(mask))
}

/// `[name TEXT]`
fn named(words: Words<'_>) -> Option<Option<&[u8]>>
    ensures { option_map (option_map (λ text. text.now)) result ≡ named words.entry }
{
    if words.is_empty() {
        return Some(None);
    }
    let text = name_of(words)?;
    Some(Some(text))
}

/// `name TEXT`: all that is left, as it stands.
pub fn name_of(mut words: Words<'_>) -> Option<&[u8]>
    ensures { option_map (λ text. text.now) result ≡ name_of words.entry }
{
    if words.skip(b"name") {
        return words.text();
    }
    None
}
