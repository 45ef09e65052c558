//! Lines of words.

ghost use Rattle.std.specs.Prelude.{◌≡◌, ◌++◌, ◌∷◌, [], OnOk, string_bytes};
ghost use Rattle.std.specs.List.{flat_map};
ghost use Rattle.lnet_blifwriter.specs.Texts.{spaced, words_line};

use lnet_edge::Name;
use std::alloc::AllocError;

/// Each of the names behind a space.
fn put_spaced(out: &mut String, names: &[Name]) -> Result<(), AllocError>
    ensures { OnOk result (string_bytes out.new ≡ string_bytes out.old ++ flat_map spaced names.now) }
{
    for name in names {
        let name = name.as_str();
        write!(out, " {name}")?;
    }
    Ok(())
}

/// A word and each of the names behind a space.
pub(crate) fn put_words(out: &mut String, word: &str, names: &[Name]) -> Result<(), AllocError>
    ensures { OnOk result (string_bytes out.new ≡ string_bytes out.old ++ words_line word.now names.now) }
{
    out.push_str(word)?;
    put_spaced(out, names)?;
    out.push_str("\n")
}
