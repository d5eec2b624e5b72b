ghost use Rattle.std.specs.Prelude.{◌≡◌, ◌++◌, ◌∷◌, flat_map, IfOk};
ghost use Rattle.fp_meaning.specs.Values.{dotted};

use fp_base::{NoMemory, Text};
use std::alloc::Global;

/// Names with a dot between each two.
pub fn with_dots(alloc: Global, names: &[Text]) -> Result<Text, NoMemory>
    ensures { IfOk result (λ text. text ≡ dotted names.now) }
{
    match names.split_first() {
        None => Ok(Text::new(alloc)),
        Some((first, others)) => first_with_dots(alloc, first, others),
    }
}

fn first_with_dots(alloc: Global, first: &Text, others: &[Text]) -> Result<Text, NoMemory>
    ensures { IfOk result (λ text. text ≡ first.now ++ flat_map (λ n. 46 ∷ n) others.now) }
{
    let mut text = first.copy(alloc)?;
    for other in others {
        text.push_str(".")?;
        text.push_str(other.as_str())?;
    }
    Ok(text)
}
