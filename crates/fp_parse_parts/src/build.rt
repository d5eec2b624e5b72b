ghost use Rattle.std.specs.Prelude.{◌≡◌, IfOk};
ghost use Rattle.fp_parse_pieces.specs.Lists.{joined};
ghost use Rattle.fp_parse_parts.specs.Members as M;

use crate::bare::{BareMember, ModelMember};
use fp_base::{Boxed, NoMemory, Row, Span, Text};
use fp_parse_defs::noted_definition;
use fp_parse_pieces::join;
use fp_tree::{
    Component, Include, Instance, Interface, Locate, Machine, Member, Module, Name, Qual, Str,
    Topology,
};
use std::alloc::Global;

pub fn include_of(word: Span, file: Str) -> BareMember
    ensures { result ≡ M.made_include (word, file) }
{
    let at = Span {
        first: word.first,
        past: file.at.past,
    };
    BareMember::Include { file, at }
}

pub fn locate_of(word: Span, of: Qual, before_file: Span, file: Str) -> BareMember
    ensures { result ≡ M.made_locate (word, (of, (before_file, file))) }
{
    let _ = before_file;
    let at = Span {
        first: word.first,
        past: file.at.past,
    };
    BareMember::Locate { of, file, at }
}

pub fn module_of(word: Span, name: Name, members: Row<Member>, closing: Span) -> BareMember
    ensures { result ≡ M.made_module (word, (name, (members, closing))) }
{
    let at = Span {
        first: word.first,
        past: closing.past,
    };
    BareMember::Module { name, members, at }
}

fn noted_model(member: ModelMember, note: Text) -> Member
    ensures { result ≡ M.noted_model member note }
{
    match member {
        ModelMember::Machine(machine) => Member::Machine(Machine { note, ..machine }),
        ModelMember::Component(component) => Member::Component(Component { note, ..component }),
        ModelMember::Interface(interface) => Member::Interface(Interface { note, ..interface }),
        ModelMember::Instance(instance) => Member::Instance(Instance { note, ..instance }),
        ModelMember::Topology(topology) => Member::Topology(Topology { note, ..topology }),
    }
}

fn noted_member(alloc: Global, member: BareMember, note: Text) -> Result<Member, NoMemory>
    ensures { IfOk result (λ noted. noted ≡ M.noted_member member note) }
{
    match member {
        BareMember::Module { name, members, at } => Ok(Member::Module(Module {
            name,
            members,
            at,
            note,
        })),
        BareMember::Def(definition) => {
            Ok(Member::Def(noted_definition(alloc, definition, note)?))
        }
        BareMember::Model(member) => Ok(noted_model(member, note)),
        BareMember::Include { file, at } => Ok(Member::Include(Include { file, at, note })),
        BareMember::Locate { of, file, at } => Ok(Member::Locate(Locate { of, file, at, note })),
    }
}

fn annotated(alloc: Global, item: Boxed<BareMember>, lines: &[Text]) -> Result<Member, NoMemory>
    ensures { IfOk result (λ member. member ≡ M.noted_member item (joined lines.now)) }
{
    let note = join(alloc, lines)?;
    noted_member(alloc, item.into_inner(), note)
}

/// Adds a member with the lines of its annotation.
pub fn with_member(
    alloc: Global,
    members: Row<Member>,
    item: Boxed<BareMember>,
    lines: Row<Text>,
) -> Result<Row<Member>, NoMemory>
    ensures { IfOk result (λ more. more ≡ M.with_member members item lines) }
{
    let member = annotated(alloc, item, lines.as_slice())?;
    let mut all = members;
    all.push(member)?;
    Ok(all)
}
