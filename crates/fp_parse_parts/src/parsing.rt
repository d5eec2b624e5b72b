ghost use Rattle.std.specs.Prelude.{ℕ, []};
ghost use Rattle.fp_grammar.specs.Promises.{Fits};
ghost use Rattle.fp_parse_pieces.specs.Kinds.{kind};
ghost use Rattle.fp_parse_parts.specs.Files.{AnswersFile, SpellsFile};
ghost use Rattle.fp_parse_parts.specs.Units.{AnswersInside};
ghost use Rattle.fp_parse_parts.specs.declared.parsing.Inside.TheVariants as inside;

use crate::files::{ComponentFile, FileKind, TopologyFile, UnitFile};
use crate::refusing::refused;
use fp_base::{Row, Stop};
use fp_grammar::Halt;
use fp_lexer::Token;
use fp_tree::{Member, Part, TMember};
use std::alloc::Global;

/// How deep modules nest at most, and expressions.
pub const LIMIT: u32 = 64;

/// What a list of tokens stands in.
#[derive(Clone, Copy)]
pub enum Inside {
    /// A file.
    Unit,
    Component,
    Topology,
}

/// The members of what a list of tokens stands in.
#[derive(Drop)]
pub enum Members {
    Unit(Row<Member>),
    Component(Row<Part>),
    Topology(Row<TMember>),
}

/// Reads the members that all the tokens are, or says where and how they break the grammar of what they stand in.
pub fn parse(alloc: Global, tokens: &Row<Token>, inside: Inside) -> Result<Members, Stop>
    ensures { AnswersInside tokens.now inside result }
{
    let tokens = tokens.as_slice();
    match inside {
        Inside::Unit => of_unit(alloc, tokens),
        Inside::Component => of_component(alloc, tokens),
        Inside::Topology => of_topology(alloc, tokens),
    }
}

fn of_unit(alloc: Global, tokens: &[Token]) -> Result<Members, Stop>
    ensures { AnswersInside tokens.now inside.Unit result }
{
    let members = whole::<UnitFile>(alloc, tokens)?;
    Ok(Members::Unit(members))
}

fn of_component(alloc: Global, tokens: &[Token]) -> Result<Members, Stop>
    ensures { AnswersInside tokens.now inside.Component result }
{
    let parts = whole::<ComponentFile>(alloc, tokens)?;
    Ok(Members::Component(parts))
}

fn of_topology(alloc: Global, tokens: &[Token]) -> Result<Members, Stop>
    ensures { AnswersInside tokens.now inside.Topology result }
{
    let members = whole::<TopologyFile>(alloc, tokens)?;
    Ok(Members::Topology(members))
}

// Reads all the tokens of a kind of file.
fn whole<F: FileKind>(alloc: Global, tokens: &[Token]) -> Result<F::Contents, Stop>
    requires fits { (depth : ℕ) → Fits kind (F.FileKind.grammar depth) }
    requires empty { (x : F.Contents) × SpellsFile F.FileKind.grammar [] x }
    ensures { AnswersFile F.FileKind.grammar F.FileKind.probe tokens.now result }
{
    match F::read(alloc, tokens, LIMIT) {
        Ok((found, to)) => {
            if to < tokens.len() {
                Err(refused::<F>(alloc, tokens, to))
            } else {
                Ok(found)
            }
        }
        Err(Halt::Unexpected(to)) => Err(refused::<F>(alloc, tokens, to)),
        Err(Halt::NoMemory) => Err(Stop::NoMemory),
    }
}
