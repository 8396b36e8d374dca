//! The law of descriptions.
ghost use Rattle.file_bytes.specs.Description.{OneSpec};

/// Bytes are the description of at most one file.
pub fn one_description()
    ensures { OneSpec }
{}
