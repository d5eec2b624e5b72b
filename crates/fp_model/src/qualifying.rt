ghost use Rattle.std.specs.Prelude.{◌≡◌, IfOk};
ghost use Rattle.fp_component_forms.specs.Written.{qualified};

use fp_base::{NoMemory, Row, Text};
use fp_consts::with_dots;
use fp_meaning::behind;
use fp_tree::Name;
use std::alloc::Global;

/// A name behind those of its scope, with a dot between each two.
pub fn qualified(alloc: Global, scope: &Row<Text>, name: &Name) -> Result<Text, NoMemory>
    ensures { IfOk result (λ text. text ≡ qualified scope.now name.now) }
{
    let path = behind(alloc, scope, name)?;
    let text = with_dots(alloc, path.as_slice())?;
    Ok(text)
}
