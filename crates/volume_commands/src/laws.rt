//! The law of texts.
ghost use Rattle.volume_commands.specs.Laws.{TextDeterminesBytes};

/// No two lists of bytes have one text, so a dump loses nothing of a record.
pub fn text_determines_bytes()
    ensures { TextDeterminesBytes }
{}
