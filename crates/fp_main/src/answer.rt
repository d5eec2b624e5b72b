ghost use Rattle.std.specs.Prelude.{◌≡◌, [], map, true, List, ℕ, Some, IfOk, slice_get};
ghost use Rattle.std.specs.String.{string_bytes};
ghost use Rattle.fp_names.specs.Named.{PartsAreNamed};
ghost use Rattle.fp_source_parts.specs.Ordered.{MachinesAreOrdered};
ghost use Rattle.fp_source_types.specs.Listed.{EnumsHaveConstants};
ghost use Rattle.fp_source_types.specs.Named.{DefinitionsAreNamed, FieldsAreNamed};
ghost use Rattle.fp_gather.specs.FilesRun.{files_run};
ghost use Rattle.fp_gather.specs.gathering.Gathered.{name_of as name_in};
ghost use Rattle.fp_tables.specs.Positions.{lists_are_short};
ghost use Rattle.fp_tables.specs.Sound.{IsSound, IsSoundWith};
ghost use Rattle.fp_tables.specs.declared.topology.Topology.{Topology};
ghost use Rattle.fp_main.specs.Lines.{no_topology_line as lacking_line, refusal_line as line_of};
ghost use Rattle.fp_main.specs.Output.{IsDue, IsDueFor, IsDueOf, IsDueOfFiles, IsDueOfText, IsTopologyText};
ghost use Rattle.fp_main.specs.declared.status.Status.TheVariants.{Done, NoTopology, Refused};
ghost use Rattle.fp_main.specs.Words.{AsksFor, IsCheck, Names, Spells};
ghost use Rattle.fp_scenario_run.specs.declared.scenario.RunText.{RunText};

use crate::lines::{no_file_line, no_topology_line, read_fault_line, refusal_line, usage_line};
use crate::making::answer_load;
use crate::running::answer_run;
use crate::status::Status;
use crate::topologies::topology_named;
use crate::words::{Command, TopologyText, Wanted, read_words};
use fp_base::{NoMemory, Refusal, Row, Stop};
use fp_dictionary::dictionary;
use fp_gather::{Halt, gather, in_files_read, name_of, names_are_names, places_in_files};
use fp_listing::{listing, port_lines};
use fp_model::resolve;
use fp_outside::{Files, Gate};
use fp_source_laws::{
    enumerations_have_constants, instances_break_at_places, machines_are_ordered,
    numbers_break_at_places, part_enumerations_have_constants, part_machines_are_ordered,
    parts_break_at_places, states_break_at_places, topologies_break_at_places,
    values_break_at_places,
};
use fp_source_types::listed_items_have_constants;
use fp_tables::Model;
use fp_tree::Source;
use std::alloc::Global;
use std::sync::Wait;
use std::thread::Threads;

/// What a call has to write, and its status where every write succeeds.
#[derive(Drop)]
pub struct Due {
    pub status: Status,
    pub output: Row<u8>,
    pub line: Row<u8>,
}

/// A status that has a line.
pub fn said(alloc: Global, status: Status, line: Row<u8>) -> Due
    ensures { result ≡ record { status = status; output = []; line = line } }
{
    Due {
        status,
        output: Row::new(alloc),
        line,
    }
}

/// A text that was asked for.
fn done(alloc: Global, output: Row<u8>) -> Due
    ensures { result ≡ record { status = Done; output = output; line = [] } }
{
    Due {
        status: Status::Done,
        output,
        line: Row::new(alloc),
    }
}

/// What is due where a model has no topology of the name.
pub fn no_topology(alloc: Global, name: &str) -> Result<Due, NoMemory>
    ensures { IfOk result (λ due. due ≡ record { status = NoTopology; output = []; line = lacking_line name.now }) }
{
    let line = no_topology_line(alloc, name)?;
    Ok(said(alloc, Status::NoTopology, line))
}

/// What is due of the model of a source that breaks no rule: what is wanted of it, or that it has no such topology.
fn answer_model<R, F, G>(
    rt: &R,
    alloc: Global,
    model: Model,
    wanted: Wanted,
    files: &mut F,
    gate: &G,
) -> Result<Due, NoMemory>
where
    R: Threads + Wait + Sync,
    F: Files,
    G: Gate,
    requires sound { IsSound model }
    requires sound_with { (t : ℕ) (o : Topology) → slice_get model.topologies t ≡ Some o → IsSoundWith model o }
    ensures { (told : RunText) (words names : List (List ℕ)) → Spells told words wanted.entry names → IfOk result (λ due. IsDueOf told words names (files_run F.told F.faults F.misses files.old files.new) model due.status due.output due.line) }
{
    match wanted {
        Wanted::Listing => answer_check(alloc, &model),
        Wanted::OfTopology { text, name } => answer_topology(alloc, &model, text, name),
        Wanted::Run(run) => answer_run(rt, alloc, model, run, files, gate),
    }
}

/// What is due for the listing of a model.
fn answer_check(alloc: Global, model: &Model) -> Result<Due, NoMemory>
    ensures { (words names : List (List ℕ)) → IsCheck words names → IfOk result (λ due. IsDueOfText words names model.now due.status due.output due.line) }
{
    let output = listing(alloc, model)?;
    Ok(done(alloc, output))
}

/// What is due for a text of the topology of a name.
fn answer_topology(
    alloc: Global,
    model: &Model,
    text: TopologyText,
    name: &str,
) -> Result<Due, NoMemory>
    requires { lists_are_short model.now ≡ true }
    ensures { (words names : List (List ℕ)) → Names text words name.now names → IfOk result (λ due. IsDueOfText words names model.now due.status due.output due.line) }
{
    match topology_named(model, name) {
        Some(topology) => {
            let output = topology_text(alloc, model, text, topology)?;
            Ok(done(alloc, output))
        }
        None => no_topology(alloc, name),
    }
}

/// A text of the topology at a position.
fn topology_text(
    alloc: Global,
    model: &Model,
    text: TopologyText,
    topology: u32,
) -> Result<Row<u8>, NoMemory>
    ensures { IfOk result (IsTopologyText text model.now topology) }
{
    match text {
        TopologyText::Connections => port_lines(alloc, model, topology),
        TopologyText::Dictionary => dictionary(alloc, model, topology),
    }
}

/// What is due for a source that breaks a rule: in the file of the rule.
fn refused(alloc: Global, source: &Source, refusal: Refusal) -> Result<Due, NoMemory>
    ensures { IfOk result (λ due. due ≡ record { status = Refused; output = []; line = line_of (name_in source.now.names refusal.place.file) refusal.place refusal.rule }) }
{
    let name = name_of(source.names.as_slice(), refusal.place.file);
    let line = refusal_line(alloc, name, refusal)?;
    Ok(said(alloc, Status::Refused, line))
}

/// What is due for a source whose files and includes break no rule: what its model gives, or the rule that is broken first.
fn answer_source<R, F, G>(
    rt: &R,
    alloc: Global,
    source: &Source,
    wanted: Wanted,
    files: &mut F,
    gate: &G,
) -> Result<Due, NoMemory>
where
    R: Threads + Wait + Sync,
    F: Files,
    G: Gate,
    requires names { DefinitionsAreNamed source.now }
    requires fields { FieldsAreNamed source.now }
    requires parts { PartsAreNamed source.now }
    requires enumerations { EnumsHaveConstants source.now }
    requires machines { MachinesAreOrdered source.now }
    ensures { (told : RunText) (words names : List (List ℕ)) → Spells told words wanted.entry names → IfOk result (λ due. IsDueFor told words names (files_run F.told F.faults F.misses files.old files.new) source.now due.status due.output due.line) }
{
    match resolve(alloc, source) {
        Ok(model) => answer_model(rt, alloc, model, wanted, files, gate),
        Err(Stop::Broken(refusal)) => refused(alloc, source, refusal),
        Err(Stop::NoMemory) => Err(NoMemory),
    }
}

/// What is due for words that ask for this, with the files of these names.
pub fn answer_files<R, F, G>(
    rt: &R,
    alloc: Global,
    wanted: Wanted,
    names: &[String],
    files: &mut F,
    gate: &G,
) -> Result<Due, NoMemory>
where
    R: Threads + Wait + Sync,
    F: Files,
    G: Gate,
    ensures { (told : RunText) (words : List (List ℕ)) → Spells told words wanted.entry (map string_bytes names.now) → IfOk result (λ due. IsDueOfFiles told words (files_run F.told F.faults F.misses files.old files.new) due.status due.output due.line) }
{
    // for the file in which a rule is broken
    in_files_read();
    places_in_files();
    values_break_at_places();
    parts_break_at_places();
    states_break_at_places();
    instances_break_at_places();
    topologies_break_at_places();
    numbers_break_at_places();
    // for what a source is asked to have
    names_are_names();
    enumerations_have_constants();
    part_enumerations_have_constants();
    listed_items_have_constants();
    machines_are_ordered();
    part_machines_are_ordered();
    match gather(alloc, names, files) {
        Ok(source) => answer_source(rt, alloc, &source, wanted, files, gate),
        Err(Halt::Broken { refusal, file }) => {
            let line = refusal_line(alloc, file.as_str(), refusal)?;
            Ok(said(alloc, Status::Refused, line))
        }
        Err(Halt::NoFile(name)) => {
            let line = no_file_line(alloc, name.as_str())?;
            Ok(said(alloc, Status::NoFile, line))
        }
        Err(Halt::ReadFault(name)) => {
            let line = read_fault_line(alloc, name.as_str())?;
            Ok(said(alloc, Status::ReadFault, line))
        }
        Err(Halt::NoMemory) => Err(NoMemory),
    }
}

/// What is due for the words.
pub fn answer<R, F, G>(
    rt: &R,
    alloc: Global,
    words: &[String],
    files: &mut F,
    gate: &G,
) -> Result<Due, NoMemory>
where
    R: Threads + Wait + Sync,
    F: Files,
    G: Gate,
    ensures unread { ((names : List (List ℕ)) → AsksFor (map string_bytes words.now) names → ⊥) → files.new ≡ files.old }
    ensures due { IfOk result (λ due. IsDue (map string_bytes words.now) (files_run F.told F.faults F.misses files.old files.new) due.status due.output due.line) }
{
    match read_words(words) {
        Ok(Command::OfFiles(wanted, names)) => {
            answer_files(rt, alloc, wanted, names, files, gate)
        }
        Ok(Command::Make(instances)) => answer_load(rt, alloc, instances, gate),
        Err(word) => {
            let line = usage_line(alloc, word)?;
            Ok(said(alloc, Status::Usage, line))
        }
    }
}
