//! The rules of INITIALIZE: those of references (COBOL-85, Nucleus, "The INITIALIZE statement").

ghost use Rattle.entry_rules.specs.Checks.{IsFirstBreach};
ghost use Rattle.source_tree.specs.SettingRules as spec;
ghost use Rattle.declarations.specs.Named.{items_in};

use crate::asked::Asked;
use crate::checker::Checker;
use entry_rules::BrokenRule;
use source_tree::Reference;

impl<'a> Checker<'a> {
    /// INITIALIZE of items, of which nothing is asked.
    pub fn initialize_rules(&self, receivers: &[Reference]) -> Result<(), BrokenRule>
        ensures { IsFirstBreach result
            (spec.initialize_rules (items_in self.now.declarations.now) receivers.now) }
    {
        self.receivers_rules(Asked::Nothing, receivers)
    }
}
