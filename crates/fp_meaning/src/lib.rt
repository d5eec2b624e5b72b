//! What names and constant expressions mean: the items of a source, its definitions and uses, values, and the rules that it breaks.
#![tactic(auto)]

mod group;
mod item;
mod laws;
mod marks;
mod names;
mod scopes;

pub use group::Group;
pub use item::{Declared, Item, Listed, Located, ModelDef, Named, Sited};
pub use laws::{one_meaning, one_scope, one_value, undefined_or_wrong_kind, worked_source};
pub use marks::Marks;
pub use names::{Definition, Mention};
pub use scopes::{Scope, behind, copy_scope};
