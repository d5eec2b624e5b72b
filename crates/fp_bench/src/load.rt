ghost use Rattle.std.specs.Prelude.{Some, IfOk};
ghost use Rattle.fp_names.specs.Named.{PartsAreNamed};
ghost use Rattle.fp_source_parts.specs.Ordered.{MachinesAreOrdered};
ghost use Rattle.fp_source_types.specs.Listed.{EnumsHaveConstants};
ghost use Rattle.fp_source_types.specs.Named.{DefinitionsAreNamed, FieldsAreNamed};
ghost use Rattle.fp_tables.specs.Sound.{IsSoundFor};
ghost use Rattle.fp_bench.specs.Ready.{IsReady};

use fp_actor::actor_count;
use fp_gather::{gather, names_are_names};
use fp_main::{LoadFiles, SOURCE};
use fp_model::resolve;
use fp_scenario_run::program_of;
use fp_source_laws::{
    enumerations_have_constants, machines_are_ordered, part_enumerations_have_constants,
    part_machines_are_ordered,
};
use fp_source_types::listed_items_have_constants;
use fp_tables::{Program, Tables};
use fp_tree::Source;
use std::alloc::{AllocError, Global};
use std::io;

/// The load with so many instances: what its source and its scenario stand for.
#[derive(Drop)]
pub struct Load {
    pub instances: u32,
    pub tables: Tables,
    pub program: Program,
}

/// The tables of the one topology that a source has.
fn tables_of(alloc: Global, source: &Source) -> io::Result<Tables>
    requires names { DefinitionsAreNamed source.now }
    requires fields { FieldsAreNamed source.now }
    requires parts { PartsAreNamed source.now }
    requires enumerations { EnumsHaveConstants source.now }
    requires machines { MachinesAreOrdered source.now }
    ensures { IfOk result (λ tables. IsSoundFor tables.model (Some tables.topology)) }
{
    let Ok(model) = resolve(alloc, source) else {
        return Err(io::Error::from(io::ErrorKind::InvalidData));
    };
    match model.topologies.get(0) {
        Some(_) => match Tables::of(alloc, model, 0) {
            Ok(tables) => Ok(tables),
            Err(_) => Err(io::Error::from(AllocError)),
        },
        None => Err(io::Error::from(io::ErrorKind::InvalidData)),
    }
}

fn tables_of_files(alloc: Global, files: &mut LoadFiles) -> io::Result<Tables>
    ensures { IfOk result (λ tables. IsSoundFor tables.model (Some tables.topology)) }
{
    names_are_names();
    enumerations_have_constants();
    part_enumerations_have_constants();
    listed_items_have_constants();
    machines_are_ordered();
    part_machines_are_ordered();
    let names = [String::from_str(alloc, SOURCE)?];
    match gather(alloc, &names, files) {
        Ok(source) => tables_of(alloc, &source),
        Err(_) => Err(io::Error::from(io::ErrorKind::InvalidData)),
    }
}

impl Load {
    pub fn new(alloc: Global, instances: u32) -> io::Result<Load>
        ensures { IfOk result IsReady }
    {
        let mut files = LoadFiles::new(alloc, instances).map_err(|_| AllocError)?;
        let tables = tables_of_files(alloc, &mut files)?;
        let Ok(program) = program_of(alloc, &tables, files.scenario.as_slice()) else {
            return Err(io::Error::from(io::ErrorKind::InvalidData));
        };
        if actor_count(&tables, &program) == 0 {
            return Err(io::Error::from(io::ErrorKind::InvalidData));
        }
        Ok(Load {
            instances,
            tables,
            program,
        })
    }
}
