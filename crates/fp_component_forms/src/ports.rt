ghost use Rattle.std.specs.Prelude.{◌≡◌, List, Option, IfOk};
ghost use Rattle.fp_meaning.specs.Layout.{general_items, internal_items, use_items};
ghost use Rattle.fp_meaning.specs.Names.{Path};
ghost use Rattle.fp_meaning.specs.declared.group.Group.TheVariants as group;
ghost use Rattle.fp_tree.specs.declared.source.Source.{Source};
ghost use Rattle.fp_base.specs.declared.value.Value.{Value as Data};
ghost use Rattle.fp_type_forms.specs.Resolved.{Takes};
ghost use Rattle.fp_component_forms.specs.Positions.{ArePositions};
ghost use Rattle.fp_component_forms.specs.Taken.{InternalWhere};
ghost use Rattle.fp_component_forms.specs.Written.{GeneralIs, ImportIs, SpecialIs, no_queue, role_of};

use crate::formals::formals_taken;
use crate::positions::Positions;
use crate::reading::{optional_position, optional_taken, position_taken, queue_taken};
use crate::specials::special_kind;
use fp_base::{NoMemory, Row, Value};
use fp_tree::{General, GeneralKind, Import, Internal, Special};
use fp_type_forms::Resolution;
use fp_written_parts::{QueueWords, WrittenImport, WrittenPort, WrittenRole};
use std::alloc::Global;

/// A general port; what stands in it is passed.
pub fn general_taken(
    alloc: Global,
    port: &General,
    positions: &Positions,
    resolutions: &[Resolution],
    marks: &[Option<Value>],
    next: &mut usize,
) -> Result<WrittenPort, NoMemory>
    ensures { IfOk result (λ one. (source : Source) (scope : Path) → ArePositions source positions.now → Takes source marks.now resolutions.now (general_items scope port.now) next.old next.new (GeneralIs source scope port.now one)) }
{
    let size = optional_taken(&port.size, resolutions, marks, next);
    let of = optional_position(positions.ports.as_slice(), &port.of, resolutions, next);
    let queue = queue_taken(
        &port.priority,
        port.full,
        port.queue_word,
        resolutions,
        marks,
        next,
    );
    let role = general_role(port.kind);
    let formals = Row::new(alloc);
    let name = port.name.text.copy(alloc)?;
    Ok(WrittenPort {
        name,
        at: port.name.at.first,
        begins: port.at.first,
        role,
        size,
        of,
        formals,
        queue,
    })
}

fn general_role(kind: GeneralKind) -> WrittenRole
    ensures { result ≡ role_of kind }
{
    match kind {
        GeneralKind::AsyncInput => WrittenRole::AsyncInput,
        GeneralKind::SyncInput => WrittenRole::SyncInput,
        GeneralKind::GuardedInput => WrittenRole::GuardedInput,
        GeneralKind::Output => WrittenRole::Output,
    }
}

/// A special port.
pub fn special_written(
    alloc: Global,
    port: &Special,
    positions: &Positions,
) -> Result<WrittenPort, NoMemory>
    ensures { IfOk result (λ one. (source : Source) (scope : Path) → ArePositions source positions.now → SpecialIs source scope port.now one) }
{
    let special = special_kind(port.kind);
    let of = positions.specials.of_kind(special);
    let formals = Row::new(alloc);
    let queue = nothing_queued();
    let name = port.name.text.copy(alloc)?;
    Ok(WrittenPort {
        name,
        at: port.name.at.first,
        begins: port.at.first,
        role: WrittenRole::Special(special),
        size: None,
        of,
        formals,
        queue,
    })
}

fn nothing_queued() -> QueueWords
    ensures { result ≡ no_queue }
{
    QueueWords {
        priority: None,
        full: None,
        word: None,
    }
}

/// An internal port; what stands in it is passed.
pub fn internal_taken(
    alloc: Global,
    port: &Internal,
    resolutions: &[Resolution],
    marks: &[Option<Value>],
    next: &mut usize,
) -> Result<WrittenPort, NoMemory>
    ensures { IfOk result (λ one. (source : Source) (scope : Path) → Takes source marks.now resolutions.now (internal_items scope port.now) next.old next.new (InternalWhere source scope port.now one)) }
{
    let formals = formals_taken(alloc, port.formals.as_slice(), resolutions, marks, next)?;
    let queue = queue_taken(
        &port.priority,
        port.full,
        port.queue_word,
        resolutions,
        marks,
        next,
    );
    let name = port.name.text.copy(alloc)?;
    Ok(WrittenPort {
        name,
        at: port.name.at.first,
        begins: port.at.first,
        role: WrittenRole::Internal,
        size: None,
        of: None,
        formals,
        queue,
    })
}

/// An import; the use of the interface is passed.
pub fn import_taken(
    import: &Import,
    positions: &Positions,
    resolutions: &[Resolution],
    next: &mut usize,
) -> WrittenImport
    ensures { (source : Source) (scope : Path) (marks : List (Option Data)) → ArePositions source positions.now → Takes source marks resolutions.now (use_items group.Interface scope import.now.of) next.old next.new (ImportIs source scope import.now result) }
{
    let interface = position_taken(positions.interfaces.as_slice(), resolutions, next);
    WrittenImport {
        interface,
        at: import.at.first,
    }
}
