ghost use Rattle.std.specs.Prelude.{flat_map, IfOk};
ghost use Rattle.std.specs.Option.{option_to_list};
ghost use Rattle.fp_meaning.specs.Layout.{own_items};
ghost use Rattle.fp_meaning.specs.Names.{Path};
ghost use Rattle.fp_tree.specs.declared.source.Source.{Source};
ghost use Rattle.fp_type_forms.specs.Resolved.{Takes};
ghost use Rattle.fp_component_forms.specs.Positions.{ArePositions};
ghost use Rattle.fp_component_forms.specs.Taken.{MemberWhere, MembersWhere};

use crate::adding::with_optional;
use crate::positions::Positions;
use crate::single::{
    channel_member, command_member, event_member, general_member, import_member, internal_member,
    match_member, param_member, running_member, special_member,
};
use fp_base::{NoMemory, Row, Value};
use fp_tree::Part;
use fp_type_forms::Resolution;
use fp_written_parts::WrittenMember;
use std::alloc::Global;

/// The members of a component among its parts; what stands in them is passed.
pub fn members_taken(
    alloc: Global,
    parts: &[Part],
    positions: &Positions,
    resolutions: &[Resolution],
    marks: &[Option<Value>],
    next: &mut usize,
) -> Result<Row<WrittenMember>, NoMemory>
    ensures { IfOk result (λ row. (source : Source) (scope : Path) → ArePositions source positions.now → Takes source marks.now resolutions.now (flat_map (own_items scope) parts.now) next.old next.new (MembersWhere source scope parts.now row)) }
{
    let mut row = Row::new(alloc);
    for part in parts {
        let one = member_taken(alloc, part, positions, resolutions, marks, next)?;
        row = with_optional(row, one)?;
    }
    Ok(row)
}

/// The member that a part of a component is, if it is one.
fn member_taken(
    alloc: Global,
    part: &Part,
    positions: &Positions,
    resolutions: &[Resolution],
    marks: &[Option<Value>],
    next: &mut usize,
) -> Result<Option<WrittenMember>, NoMemory>
    ensures { IfOk result (λ one. (source : Source) (scope : Path) → ArePositions source positions.now → Takes source marks.now resolutions.now (own_items scope part.now) next.old next.new (MemberWhere source scope part.now (option_to_list one))) }
{
    match part {
        Part::Def(_) => Ok(None),
        Part::Machine(_) => Ok(None),
        Part::Include(_) => Ok(None),
        Part::General(port) => {
            general_member(alloc, port.get(), positions, resolutions, marks, next)
        }
        Part::Special(port) => special_member(alloc, port, positions),
        Part::Internal(port) => internal_member(alloc, port.get(), resolutions, marks, next),
        Part::Import(import) => import_member(import, positions, resolutions, next),
        Part::Command(command) => command_member(alloc, command.get(), resolutions, marks, next),
        Part::Event(event) => event_member(alloc, event.get(), resolutions, marks, next),
        Part::Channel(channel) => channel_member(alloc, channel.get(), resolutions, marks, next),
        Part::Param(param) => param_member(alloc, param.get(), resolutions, marks, next),
        Part::Match(ports) => match_member(alloc, ports.get()),
        Part::Running(running) => {
            running_member(alloc, running.get(), positions, resolutions, marks, next)
        }
    }
}
