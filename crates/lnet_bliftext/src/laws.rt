//! Laws of written texts.

ghost use Rattle.std.specs.Prelude.{◌≡◌, Ok, map};
ghost use Rattle.lnet_edge.specs.Circuits.{CircuitValue};
ghost use Rattle.lnet_bliflines.specs.Words.{words_in};
ghost use Rattle.lnet_blif.specs.Texts.{statements_of};
ghost use Rattle.lnet_blifwriter.specs.Texts.{blif_text};
ghost use Rattle.lnet_benchtext.specs.Written.{HasNames};
ghost use Rattle.lnet_bliftext.specs.Written.{lines_from, statement_words, written_statements};

/// The text of a circuit is cut into a line for each of its statements, with just the statement's words: no line goes on in the
/// next one, and no part of one is a comment.
pub fn written_text_is_cut()
    ensures { (c : CircuitValue) → HasNames c → words_in (blif_text c) ≡ lines_from 1 (map statement_words (written_statements c)) }
{}

/// The text of a circuit is read as its statements, so that no line of it is malformed.
pub fn written_text_is_read()
    ensures { (c : CircuitValue) → HasNames c → statements_of (blif_text c) ≡ Ok (written_statements c) }
{}
