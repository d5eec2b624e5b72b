ghost use Rattle.std.specs.Prelude.{◌≡◌, IfErr, IfOk, OnOk};
ghost use Rattle.fp_base.specs.Least.{IsUnbroken, IsStop};
ghost use Rattle.fp_meaning.specs.Broken.{BrokenByDefinitions, NamesBroken};
ghost use Rattle.fp_meaning.specs.Meaning.{AreMeanings};
ghost use Rattle.fp_meaning.specs.Names.{definitions, mentions};

use fp_base::{NoMemory, Refusal, Stop};
use fp_names::{Names, collect, name_faults, uses};
use fp_tree::{Source, Uses};
use std::alloc::Global;

/// The definitions of a source by their names, or the least rule of names that it breaks, where a name is defined twice: a use that means
/// nothing may stand before it.
pub fn names_of(alloc: Global, source: &Source) -> Result<Names, Stop>
    ensures names { IfOk result (λ names. names ≡ definitions source.now) }
    ensures once { OnOk result (IsUnbroken (BrokenByDefinitions source.now)) }
    ensures stop { IfErr result (IsStop (NamesBroken source.now)) }
{
    match collect(alloc, source) {
        Ok(names) => Ok(names),
        Err(Stop::Broken(twice)) => Err(least_name(alloc, source, twice)),
        Err(Stop::NoMemory) => Err(Stop::NoMemory),
    }
}

/// The least rule of names, where a name is defined twice.
fn least_name(alloc: Global, source: &Source, twice: Refusal) -> Stop
    requires { BrokenByDefinitions source.now twice }
    ensures { IsStop (NamesBroken source.now) result }
{
    match name_faults(alloc, source) {
        Ok(first) => Stop::Broken(first.unwrap_or(twice)),
        Err(NoMemory) => Stop::NoMemory,
    }
}

/// What the uses of a source mean in which no name is defined twice, or the least rule of names that it breaks.
pub fn uses_of(alloc: Global, source: &Source, names: &Names) -> Result<Uses, Stop>
    requires names { names.now ≡ definitions source.now }
    requires once { IsUnbroken (BrokenByDefinitions source.now) }
    ensures meanings { IfOk result (λ uses. AreMeanings (definitions source.now) (mentions source.now) uses.meanings) }
    ensures unbroken { OnOk result (IsUnbroken (NamesBroken source.now)) }
    ensures stop { IfErr result (IsStop (NamesBroken source.now)) }
{
    uses(alloc, source, names)
}
