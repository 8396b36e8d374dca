//! The law of a hidden root.
ghost use Rattle.unfinished_volume.specs.Laws.{HiddenRootIsDamage};

/// If sector 0 is no root, no reader finds one, whatever the other sectors are.
pub fn hidden_root_is_damage()
    ensures { HiddenRootIsDamage }
{}
