ghost use Rattle.std.specs.Prelude.{◌≡◌, IsSomeAnd, option_copied};
ghost use Rattle.tap_name.specs.Settings.{SettingsValue};
ghost use Rattle.tap_surrogate.specs.Nodes.{Nodes, IsCore, IsTableOf};

use tap_name::{Name, Settings};
use tap_table::Table;

/// The nodes of an overlay, as far as a walk reads them: their tables, and which of them are core.
///
/// Rule: docs/PROTOCOL.md, "Walks".
pub trait Tables {
    /// What the names of the nodes have in common.
    ghost parameters: { Self → SettingsValue };

    /// For each name the table, if a node of this name has one, and whether the node is core.
    ghost nodes: { Self → Nodes };

    /// The settings that the nodes have in common.
    fn settings(&self) -> Settings
        ensures { result ≡ parameters self.now };

    /// The table of the node of this name, `None` exactly if there is none. Each core node has a
    /// table, whose owner it is, and which has the common settings.
    fn table_of(&self, name: Name) -> Option<&Table>
        ensures table { option_copied result ≡ (nodes self.now).table_of name }
        ensures core { IsCore (nodes self.now) name
            → IsSomeAnd result (λ table. IsTableOf (parameters self.now) name table.now) };

    /// Whether there is a core node of this name.
    fn is_core(&self, name: Name) -> bool
        ensures { result ≡ (nodes self.now).core name };
}
