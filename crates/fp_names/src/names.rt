ghost use Rattle.std.specs.Prelude.{◌≡◌, ◌∷◌, Some, None, IfOk, IfErr, OnOk, MatchOption, ℕ};
ghost use Rattle.fp_meaning.specs.Broken.{BrokenByDefinitions, BrokenByUses, NamesBroken};
ghost use Rattle.fp_base.specs.Least.{IsLeast, IsUnbroken, IsStop};
ghost use Rattle.fp_meaning.specs.Meaning.{AreMeanings, Means};
ghost use Rattle.fp_meaning.specs.Names.{definitions, mentions};
ghost use Rattle.fp_names.specs.Answers.{AreFound};
ghost use Rattle.fp_names.specs.Tree.{looked_up};

use crate::lookups::{LookedUp, look_up};
use crate::table::{Table, table_of};
use crate::tree::{Node, longest_from, meaning_from, walk_from};
use fp_base::{NoMemory, Refusal, Row, Stop, Text, lesser};
use fp_layout::{definitions_of, mentions_of};
use fp_meaning::{Definition, Group};
use fp_tree::{Source, Uses};
use std::alloc::Global;
use std::marker::Model;

/// The definitions of a source, and how they are found by their names.
#[derive(Drop)]
pub struct Names {
    definitions: Row<Definition>,
    nodes: Vec<Node>,
}

impl Model for Names {
    ghost use Rattle.std.specs.Prelude.{List};
    ghost use Rattle.std.specs.Coded.{coded_list};
    ghost use Rattle.fp_meaning.specs.declared.names.Definition.{Definition as Named};
    ghost use Rattle.fp_meaning.specs.contracts.names.Definition as definition;
    ghost use Rattle.fp_names.specs.Tree.{IsTable};

    ghost Value = { List Named };

    ghost coded = { coded_list definition.the_row.coded };

    ghost view = { λ names. names.definitions };

    ghost invariant = { λ names. IsTable names.definitions names.nodes.items };
}

impl Names {
    /// The definition that a use of a group in a scope means, by its place in source order; None where it means nothing. Of several with
    /// one qualified name it is the first. It takes a few look-ups for each name of the scope and of the use, and no memory.
    pub fn find(&self, scope: &Row<Text>, name: &Row<Text>, group: Group) -> Option<u32>
        ensures { MatchOption result ((number : ℕ) → Means self.now scope.now name.now group number → ⊥) (λ number. Means self.now scope.now name.now group number) }
    {
        match name.as_slice().split_first() {
            None => None,
            Some((first, others)) => self.find_behind(scope.as_slice(), first, others, group),
        }
    }

    fn find_behind(
        &self,
        scope: &[Text],
        first: &Text,
        others: &[Text],
        group: Group,
    ) -> Option<u32>
        ensures { MatchOption result ((number : ℕ) → Means self.now scope.now (first.now ∷ others.now) group number → ⊥) (λ number. Means self.now scope.now (first.now ∷ others.now) group number) }
    {
        look_up_in(self.nodes.as_slice(), scope, first, others, group)
    }
}

fn look_up_in(
    nodes: &[Node],
    scope: &[Text],
    first: &Text,
    others: &[Text],
    group: Group,
) -> Option<u32>
    ensures { result ≡ looked_up nodes.now group scope.now first.now others.now }
{
    match longest_from(nodes, group, scope, first) {
        None => None,
        Some(best) => match walk_from(nodes, best, others) {
            None => None,
            Some(at) => meaning_from(nodes, at),
        },
    }
}

/// The definitions of a source by their names, or the least name that is defined twice.
pub fn collect(alloc: Global, source: &Source) -> Result<Names, Stop>
    ensures names { IfOk result (λ names. names ≡ definitions source.now) }
    ensures once { OnOk result (IsUnbroken (BrokenByDefinitions source.now)) }
    ensures stop { IfErr result (IsStop (BrokenByDefinitions source.now)) }
{
    let found = by_name(alloc, source)?;
    match found.twice {
        None => Ok(found.names),
        Some(refusal) => Err(Stop::Broken(refusal)),
    }
}

/// For each use of a source, in source order, what it means; or the least use that means nothing in the group that is wanted.
pub fn uses(alloc: Global, source: &Source, names: &Names) -> Result<Uses, Stop>
    requires { names.now ≡ definitions source.now }
    ensures meanings { IfOk result (λ uses. AreMeanings (definitions source.now) (mentions source.now) uses.meanings) }
    ensures meant { OnOk result (IsUnbroken (BrokenByUses source.now)) }
    ensures stop { IfErr result (IsStop (BrokenByUses source.now)) }
{
    let found = found_in(alloc, source, names)?;
    match found.first {
        None => Ok(Uses {
            meanings: found.meanings,
        }),
        Some(refusal) => Err(Stop::Broken(refusal)),
    }
}

/// The least rule of names that a source breaks, None exactly where it breaks none.
pub fn name_faults(alloc: Global, source: &Source) -> Result<Option<Refusal>, NoMemory>
    ensures { IfOk result (IsLeast (NamesBroken source.now)) }
{
    let named = by_name(alloc, source)?;
    let found = found_in(alloc, source, &named.names)?;
    Ok(lesser(named.twice, found.first))
}

/// The definitions of a source, and the least name that is defined twice.
#[derive(Drop)]
struct Named {
    names: Names,
    twice: Option<Refusal>,
}

fn by_name(alloc: Global, source: &Source) -> Result<Named, NoMemory>
    ensures names { IfOk result (λ named. named.names ≡ definitions source.now) }
    ensures twice { IfOk result (λ named. IsLeast (BrokenByDefinitions source.now) named.twice) }
{
    let definitions = definitions_of(alloc, source)?;
    let Table { nodes, twice } = table_of(alloc, definitions.as_slice())?;
    Ok(Named {
        names: Names { definitions, nodes },
        twice,
    })
}

fn found_in(alloc: Global, source: &Source, names: &Names) -> Result<LookedUp, NoMemory>
    requires { names.now ≡ definitions source.now }
    ensures least { IfOk result (λ found. IsLeast (BrokenByUses source.now) found.first) }
    ensures meant { IfOk result (AreFound (definitions source.now) (mentions source.now)) }
{
    let mentions = mentions_of(alloc, source)?;
    look_up(alloc, names, mentions.as_slice())
}
