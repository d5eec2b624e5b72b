ghost use Rattle.std.specs.Prelude.{◌≡◌, IfOk};
ghost use Rattle.fp_gather.specs.gathering.Answers.{AreJudged, IncludesFirst, IsFirst, Judges};
ghost use Rattle.fp_gather.specs.gathering.Gathered.{name_of as name_in};
ghost use Rattle.fp_gather.specs.gathering.Walks.{Walked};

use super::Halt;
use super::concluding::Concluded;
use fp_base::{NoMemory, Refusal, Text, earlier, lesser};
use fp_names::name_faults;
use fp_tree::Source;
use std::alloc::Global;

/// The name of the file with a number.
pub fn name_of(names: &[Text], number: u32) -> &str
    ensures { result.now ≡ name_in names.now number }
{
    let at = number as usize;
    if at < names.len() {
        names[at].as_str()
    } else {
        ""
    }
}

/// The first rule of includes and names, where an include breaks its own.
fn includes_first(alloc: Global, concluded: &Concluded) -> Result<Option<Refusal>, NoMemory>
    ensures { IfOk result (λ first. (walked : Walked) → AreJudged walked concluded.now → IncludesFirst walked concluded.now.source first) }
{
    match concluded.includes {
        None => Ok(None),
        Some(include) => {
            let names = name_faults(alloc, &concluded.source)?;
            Ok(lesser(Some(include), names))
        }
    }
}

/// The first rule that is broken, where one before those of names is.
fn first_broken(alloc: Global, concluded: &Concluded) -> Result<Option<Refusal>, NoMemory>
    ensures { IfOk result (λ first. (walked : Walked) → AreJudged walked concluded.now → IsFirst walked concluded.now.source first) }
{
    let includes = includes_first(alloc, concluded)?;
    let behind = earlier(concluded.grammar, includes);
    Ok(earlier(concluded.tokens, behind))
}

/// The source, where no rule before those of names is broken.
pub fn judge(alloc: Global, concluded: Concluded) -> Result<Source, Halt>
    ensures { (walked : Walked) → AreJudged walked concluded → Judges walked concluded.source result }
{
    match first_broken(alloc, &concluded)? {
        None => {
            let Concluded { source, .. } = concluded;
            Ok(source)
        }
        Some(refusal) => {
            let name = name_of(concluded.source.names.as_slice(), refusal.place.file);
            let file = Text::from_str(alloc, name)?;
            Err(Halt::Broken { refusal, file })
        }
    }
}
