ghost use Rattle.std.specs.Prelude.{◌≡◌, IfOk};
ghost use Rattle.fp_meaning.specs.Layout.{model_own_items, port_items};
ghost use Rattle.fp_meaning.specs.Names.{Path};
ghost use Rattle.fp_meaning.specs.Sites as whole;
ghost use Rattle.fp_tree.specs.declared.source.Source.{Source};
ghost use Rattle.fp_type_forms.specs.Resolved.{AreResolved};
ghost use Rattle.fp_component_forms.specs.Positions.{ArePositions};
ghost use Rattle.fp_component_forms.specs.Taken.{ComponentWhere, PortDefWhere};
ghost use Rattle.fp_component_forms.specs.Written.{InterfaceIs, qualified, queueing_of, scoped};

use crate::formals::formals_taken;
use crate::interfaces::interface_members;
use crate::members::members_taken;
use crate::positions::Positions;
use crate::reading::result_taken;
use fp_base::{NoMemory, Row, Text, Value};
use fp_consts::with_dots;
use fp_meaning::behind;
use fp_tables::Queueing;
use fp_tree::{Component, ComponentKind, Interface, Name, Port};
use fp_type_forms::Resolution;
use fp_written_parts::{WrittenComponent, WrittenInterface, WrittenPortDef};
use std::alloc::Global;

/// The definition of a port in a scope, from the resolutions of its parts, which begin at `start`.
pub fn port_written(
    alloc: Global,
    scope: &Row<Text>,
    port: &Port,
    resolutions: &[Resolution],
    marks: &[Option<Value>],
    start: usize,
) -> Result<WrittenPortDef, NoMemory>
    ensures { IfOk result (λ one. (source : Source) → AreResolved source marks.now resolutions.now (port_items scope.now port.now) start → PortDefWhere source (scoped scope.now port.now) one) }
{
    let mut next = start;
    let formals = port.formals.as_slice();
    let formals = formals_taken(alloc, formals, resolutions, marks, &mut next)?;
    let result = result_taken(&port.result, resolutions, marks, &mut next);
    let name = name_behind(alloc, scope, &port.name)?;
    Ok(WrittenPortDef {
        name,
        formals,
        result,
    })
}

/// The qualified name of a definition in a scope.
pub fn name_behind(alloc: Global, scope: &Row<Text>, name: &Name) -> Result<Text, NoMemory>
    ensures { IfOk result (λ text. text ≡ qualified scope.now name.now) }
{
    let names = behind(alloc, scope, name)?;
    with_dots(alloc, names.as_slice())
}

/// An interface in a scope, from the resolutions of its parts, which begin at `start`.
pub fn interface_written(
    alloc: Global,
    interface: &Interface,
    positions: &Positions,
    resolutions: &[Resolution],
    marks: &[Option<Value>],
    start: usize,
) -> Result<WrittenInterface, NoMemory>
    ensures { IfOk result (λ one. (source : Source) (scope : Path) → ArePositions source positions.now → AreResolved source marks.now resolutions.now (model_own_items scope (whole.interface interface.now)) start → InterfaceIs source (scoped scope interface.now) one) }
{
    let mut next = start;
    let parts = interface.parts.as_slice();
    let members = interface_members(alloc, parts, positions, resolutions, marks, &mut next)?;
    Ok(WrittenInterface { members })
}

/// A component in a scope, from the resolutions of its parts, which begin at `start`.
pub fn component_written(
    alloc: Global,
    scope: &Row<Text>,
    component: &Component,
    positions: &Positions,
    resolutions: &[Resolution],
    marks: &[Option<Value>],
    start: usize,
) -> Result<WrittenComponent, NoMemory>
    ensures { IfOk result (λ one. (source : Source) → ArePositions source positions.now → AreResolved source marks.now resolutions.now (model_own_items scope.now (whole.component component.now)) start → ComponentWhere source (scoped scope.now component.now) one) }
{
    let mut next = start;
    let parts = component.parts.as_slice();
    let members = members_taken(alloc, parts, positions, resolutions, marks, &mut next)?;
    let queueing = queueing_with(component.kind);
    let name = name_behind(alloc, scope, &component.name)?;
    Ok(WrittenComponent {
        name,
        at: component.name.at.first,
        queueing,
        members,
    })
}

fn queueing_with(kind: ComponentKind) -> Queueing
    ensures { result ≡ queueing_of kind }
{
    match kind {
        ComponentKind::Active => Queueing::Active,
        ComponentKind::Passive => Queueing::Passive,
        ComponentKind::Queued => Queueing::Queued,
    }
}
