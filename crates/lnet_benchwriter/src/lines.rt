//! The lines of ports and outputs.

ghost use Rattle.std.specs.Prelude.{◌≡◌, ◌++◌, OnOk, codes, map, string_bytes};
ghost use Rattle.std.specs.List.{flat_map};
ghost use Rattle.lnet_benchwriter.specs.Texts.{port_line};

use lnet_edge::Name;
use std::alloc::AllocError;

/// `WORD(NAME)` for each of the names.
pub(crate) fn put_ports(out: &mut String, word: &str, names: &[Name]) -> Result<(), AllocError>
    ensures { OnOk result (string_bytes out.new ≡ string_bytes out.old ++ flat_map (port_line word.now) names.now) }
{
    for name in names {
        let name = name.as_str();
        writeln!(out, "{word}({name})")?;
    }
    Ok(())
}
