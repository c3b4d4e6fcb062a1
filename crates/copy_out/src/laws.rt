//! The laws of the text.
ghost use Rattle.copy_out.specs.Laws.{RefusedIsNoText, RefusedOnce, TextsTellRows};

/// A law: a text tells its rows. Two lists of rows of the same columns, whose cells fit them, are equal where their
/// texts are.
pub fn texts_tell_rows()
    ensures { TextsTellRows }
{}

/// A law: a text that is refused at a line is no text of rows, and it is refused at that line alone.
pub fn refusals_are_right()
    ensures no_text { RefusedIsNoText }
    ensures once { RefusedOnce }
{}
