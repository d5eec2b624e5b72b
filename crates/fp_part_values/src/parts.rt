ghost use Rattle.std.specs.Prelude.{flat_map};
ghost use Rattle.fp_base.specs.Least.{InSome, IsLeast};
ghost use Rattle.fp_meaning.specs.Layout.{own_items};
ghost use Rattle.fp_meaning.specs.Names.{Path};
ghost use Rattle.fp_tree.specs.declared.source.Source.{Source};
ghost use Rattle.fp_type_forms.specs.Resolved.{Takes};
ghost use Rattle.fp_type_sizes.specs.Found.{AreExtents};
ghost use Rattle.fp_part_values.specs.Broken.{BrokenByPart};

use crate::channels::channel_fault;
use crate::params::param_fault;
use crate::passing::{
    past_command, past_event, past_general, past_import, past_internal, past_running,
};
use fp_base::{Refusal, Value, lesser};
use fp_tree::Part;
use fp_type_forms::Resolution;
use fp_type_sizes::{TypeExtent, WrittenType};

/// The least that the values in the parts of a component break; what stands in the parts is passed.
pub fn parts_fault(
    parts: &[Part],
    types: &[WrittenType],
    extents: &[Option<TypeExtent>],
    resolutions: &[Resolution],
    marks: &[Option<Value>],
    next: &mut usize,
) -> Option<Refusal>
    requires { AreExtents types.now extents.now }
    ensures { (source : Source) (scope : Path) → Takes source marks.now resolutions.now (flat_map (own_items scope) parts.now) next.old next.new (IsLeast (InSome (λ k. BrokenByPart source types.now scope) parts.now) result) }
{
    let mut first = None;
    for part in parts {
        let one = part_fault(part, types, extents, resolutions, marks, next);
        first = lesser(first, one);
    }
    first
}

fn part_fault(
    part: &Part,
    types: &[WrittenType],
    extents: &[Option<TypeExtent>],
    resolutions: &[Resolution],
    marks: &[Option<Value>],
    next: &mut usize,
) -> Option<Refusal>
    requires { AreExtents types.now extents.now }
    ensures { (source : Source) (scope : Path) → Takes source marks.now resolutions.now (own_items scope part.now) next.old next.new (IsLeast (BrokenByPart source types.now scope part.now) result) }
{
    match part {
        Part::Def(_) => None,
        Part::Machine(_) => None,
        Part::General(port) => past_general(port.get(), resolutions, next),
        Part::Special(_) => None,
        Part::Internal(port) => past_internal(port.get(), resolutions, marks, next),
        Part::Command(command) => past_command(command.get(), resolutions, marks, next),
        Part::Event(event) => past_event(event.get(), resolutions, marks, next),
        Part::Channel(channel) => {
            channel_fault(channel.get(), types, extents, resolutions, marks, next)
        }
        Part::Param(param) => param_fault(param.get(), types, extents, resolutions, marks, next),
        Part::Match(_) => None,
        Part::Running(running) => past_running(running.get(), resolutions, next),
        Part::Import(_) => past_import(resolutions, next),
        Part::Include(_) => None,
    }
}
