ghost use Rattle.std.specs.Prelude.{Some, IfOk};
ghost use Rattle.fp_names.specs.Named.{PartsAreNamed};
ghost use Rattle.fp_source_parts.specs.Ordered.{MachinesAreOrdered};
ghost use Rattle.fp_source_types.specs.Listed.{EnumsHaveConstants};
ghost use Rattle.fp_source_types.specs.Named.{DefinitionsAreNamed, FieldsAreNamed};
ghost use Rattle.fp_tables.specs.Sound.{IsSoundFor};
ghost use Rattle.fp_tables.specs.SoundPrograms.{IsSoundProgram};

use fp_base::NoMemory;
use fp_gather::{gather, names_are_names};
use fp_model::resolve;
use fp_outside::MemFiles;
use fp_scenario_run::program_of;
use fp_sound_model::SoundModel;
use fp_source_laws::{
    enumerations_have_constants, machines_are_ordered, part_enumerations_have_constants,
    part_machines_are_ordered,
};
use fp_source_types::listed_items_have_constants;
use fp_tables::{Model, Program, Tables};
use fp_tree::Source;
use std::alloc::Global;

/// The source of one file.
pub fn source_of(alloc: Global, text: &str) -> Result<Source, NoMemory>
    ensures names { IfOk result DefinitionsAreNamed }
    ensures fields { IfOk result FieldsAreNamed }
    ensures parts { IfOk result PartsAreNamed }
    ensures enumerations { IfOk result EnumsHaveConstants }
    ensures machines { IfOk result MachinesAreOrdered }
{
    names_are_names();
    enumerations_have_constants();
    part_enumerations_have_constants();
    listed_items_have_constants();
    machines_are_ordered();
    part_machines_are_ordered();
    let mut files = MemFiles::new(alloc);
    files.hold(alloc, "a.fpp", text.as_bytes())?;
    let mut names = Vec::new(alloc);
    names.push(String::from_str(alloc, "a.fpp")?)?;
    match gather(alloc, names.as_slice(), &mut files) {
        Ok(source) => Ok(source),
        Err(_) => Err(NoMemory),
    }
}

/// The model of a source of one file.
pub fn model_of(alloc: Global, text: &str) -> Result<Model, NoMemory> {
    let source = source_of(alloc, text)?;
    match resolve(alloc, &source) {
        Ok(model) => Ok(model),
        Err(_) => Err(NoMemory),
    }
}

/// The tables of the first topology of a source.
pub fn tables_of(alloc: Global, text: &str) -> Result<Tables, NoMemory>
    ensures { IfOk result (λ tables. IsSoundFor tables.model (Some tables.topology)) }
{
    let model = model_of(alloc, text)?;
    let sound = model.is_sound(alloc, Some(0))?;
    if sound {
        Tables::of(alloc, model, 0)
    } else {
        Err(NoMemory)
    }
}

/// The program of a scenario.
pub fn program_in(alloc: Global, tables: &Tables, scenario: &str) -> Result<Program, NoMemory>
    requires { IsSoundFor tables.now.model (Some tables.now.topology) }
    ensures { IfOk result (IsSoundProgram tables.now) }
{
    match program_of(alloc, tables, scenario.as_bytes()) {
        Ok(program) => Ok(program),
        Err(_) => Err(NoMemory),
    }
}
