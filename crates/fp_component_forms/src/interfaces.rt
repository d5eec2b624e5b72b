ghost use Rattle.std.specs.Prelude.{flat_map, IfOk};
ghost use Rattle.std.specs.Option.{option_to_list};
ghost use Rattle.fp_meaning.specs.Layout.{interface_part_items};
ghost use Rattle.fp_meaning.specs.Names.{Path};
ghost use Rattle.fp_tree.specs.declared.source.Source.{Source};
ghost use Rattle.fp_type_forms.specs.Resolved.{Takes};
ghost use Rattle.fp_component_forms.specs.Positions.{ArePositions};
ghost use Rattle.fp_component_forms.specs.Taken.{MemberWhere};
ghost use Rattle.fp_component_forms.specs.Written.{InterfaceMembersAre, part_of};

use crate::adding::with_optional;
use crate::positions::Positions;
use crate::single::{general_member, import_member, special_member};
use fp_base::{NoMemory, Row, Value};
use fp_tree::InterfacePart;
use fp_type_forms::Resolution;
use fp_written_parts::WrittenMember;
use std::alloc::Global;

/// The members of an interface; what stands in them is passed.
pub fn interface_members(
    alloc: Global,
    parts: &[InterfacePart],
    positions: &Positions,
    resolutions: &[Resolution],
    marks: &[Option<Value>],
    next: &mut usize,
) -> Result<Row<WrittenMember>, NoMemory>
    ensures { IfOk result (λ row. (source : Source) (scope : Path) → ArePositions source positions.now → Takes source marks.now resolutions.now (flat_map (interface_part_items scope) parts.now) next.old next.new (InterfaceMembersAre source scope parts.now row)) }
{
    let mut row = Row::new(alloc);
    for part in parts {
        let one = interface_member(alloc, part, positions, resolutions, marks, next)?;
        row = with_optional(row, one)?;
    }
    Ok(row)
}

fn interface_member(
    alloc: Global,
    part: &InterfacePart,
    positions: &Positions,
    resolutions: &[Resolution],
    marks: &[Option<Value>],
    next: &mut usize,
) -> Result<Option<WrittenMember>, NoMemory>
    ensures { IfOk result (λ one. (source : Source) (scope : Path) → ArePositions source positions.now → Takes source marks.now resolutions.now (interface_part_items scope part.now) next.old next.new (MemberWhere source scope (part_of part.now) (option_to_list one))) }
{
    match part {
        InterfacePart::General(port) => {
            general_member(alloc, port.get(), positions, resolutions, marks, next)
        }
        InterfacePart::Special(port) => special_member(alloc, port, positions),
        InterfacePart::Import(import) => import_member(import, positions, resolutions, next),
    }
}
