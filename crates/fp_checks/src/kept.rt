ghost use Rattle.std.specs.Prelude.{◌≡◌, Some, IfOk, OnOk};
ghost use Rattle.fp_events.specs.Run.{AreRecords};
ghost use Rattle.fp_tables.specs.Sound.{IsSoundFor};
ghost use Rattle.fp_tables.specs.SoundPrograms.{IsSoundProgram};
ghost use Rattle.fp_checks.specs.Staying.{IsOfSame};

use crate::models::{program_in, tables_of};
use crate::texts::{
    ASSERTING, BLOCKING, DROPPING, FOUR_CALLERS, FOUR_STEPS, GUARDED, LOOPED, TWO_CALLS,
};
use fp_base::{NoMemory, Row};
use fp_events::{Finish, projections};
use fp_run_laws::{Kept, merge};
use fp_running::{Running, conclude};
use fp_scenario_run::log_of;
use fp_tables::{Program, Tables};
use std::alloc::Global;
use std::str;
use std::test::Fail;

/// Whose turns were taken, and the log of what was kept then, as it is or gone on from to the end.
struct Records {
    model: &'static str,
    scenario: &'static str,
    turns: &'static [u32],
    goes_on: bool,
    log: &'static str,
}

const TWO_ENTRIES: Records = Records {
    model: DROPPING,
    scenario: TWO_CALLS,
    turns: &[0, 0],
    goes_on: false,
    log: "1 k q put 1 i[0] via caller (1)\n2 k q drop i[0] via caller (2)\nend complete\n",
};

const ONE_ENTRY: Records = Records {
    turns: &[0],
    goes_on: true,
    ..TWO_ENTRIES
};

// The runner would have begun with another.
const THIRD_FIRST: Records = Records {
    model: GUARDED,
    scenario: FOUR_CALLERS,
    turns: &[3],
    goes_on: true,
    log: "1 k1 b enter i[0] via caller ()
1 k3 a guard g[0] via caller ()
2 k0 a enter s[0] via caller ()
2 k1 b leave
3 k0 a leave
4 k3 a leave
5 k2 a guard g[0] via caller ()
6 k2 a leave
end complete
",
};

// Of one stamp the actors' numbers count, though the first of them is at the second instance.
const TIES: Records = Records {
    scenario: r#"{"callers":[{"name":"j","do":[{"call":"b.i"}]},{"name":"k","do":[{"call":"a.s"}]}]}"#,
    turns: &[1, 1, 0, 0],
    goes_on: false,
    log: "1 j b enter i[0] via caller ()
1 k a enter s[0] via caller ()
2 j b leave
2 k a leave
end complete
",
    ..THIRD_FIRST
};

// The one of the lower number came later.
const STAMPS_FIRST: Records = Records {
    scenario: r#"{"callers":[{"name":"j","do":[{"call":"a.s"}]},{"name":"k","do":[{"call":"a.g"}]}]}"#,
    turns: &[1, 0],
    log: "1 k a guard g[0] via caller ()\n2 j a enter s[0] via caller ()\nend complete\n",
    ..TIES
};

const STUCK: Records = Records {
    model: BLOCKING,
    log: "1 k q put 1 i[0] via caller (1)\nend stuck\n",
    ..ONE_ENTRY
};

const ASSERTED: Records = Records {
    model: ASSERTING,
    log: "1 k q put 1 i[0] via caller (1)\n2 k q assert i[0] via caller (2)\nend asserted\n",
    ..ONE_ENTRY
};

const SPENT: Records = Records {
    model: LOOPED,
    scenario: FOUR_STEPS,
    turns: &[0, 1, 1],
    goes_on: true,
    log: "1 k a put 1 i[0] via caller ()
2 @a a take 1 i[0] ()
3 @a b put 1 i[0] via a.o[0] ()
4 @a a done
4 @b b take 1 i[0] ()
end spent
",
};

static ALL: [Records; 8] = [
    TWO_ENTRIES,
    TIES,
    STAMPS_FIRST,
    ONE_ENTRY,
    THIRD_FIRST,
    STUCK,
    ASSERTED,
    SPENT,
];

fn take_turn(alloc: Global, run: &mut Running<'_>, actor: u32) -> Result<(), NoMemory>
    ensures { OnOk result (IsOfSame run.old run.new) }
{
    if actor < run.actor_count() {
        let _turn = run.turn(alloc, actor)?;
    }
    Ok(())
}

fn take_turns(alloc: Global, run: &mut Running<'_>, actors: &[u32]) -> Result<(), NoMemory>
    ensures { OnOk result (IsOfSame run.old run.new) }
{
    for actor in actors {
        take_turn(alloc, run, *actor)?;
    }
    Ok(())
}

// The histories and the traces of a run.
fn kept_of(
    alloc: Global,
    tables: &Tables,
    program: &Program,
    run: Running<'_>,
) -> Result<Kept, NoMemory>
    requires tables { run.tables ≡ tables.now }
    requires program { run.program ≡ program.now }
    ensures { IfOk result (λ kept. AreRecords tables.now program.now kept.histories kept.traces) }
{
    let _ = tables;
    let _ = program;
    projections();
    run.keeps();
    let records = run.into_records(alloc)?;
    Ok(Kept {
        histories: records.0,
        traces: records.1,
    })
}

fn kept_after(
    alloc: Global,
    tables: &Tables,
    program: &Program,
    actors: &[u32],
) -> Result<Kept, NoMemory>
    requires sound { IsSoundFor tables.now.model (Some tables.now.topology) }
    requires good { IsSoundProgram tables.now program.now }
    ensures { IfOk result (λ kept. AreRecords tables.now program.now kept.histories kept.traces) }
{
    let mut run = Running::open(alloc, tables, program)?;
    take_turns(alloc, &mut run, actors)?;
    kept_of(alloc, tables, program, run)
}

fn merged(
    alloc: Global,
    tables: &Tables,
    program: &Program,
    actors: &[u32],
) -> Result<Row<u8>, NoMemory>
    requires sound { IsSoundFor tables.now.model (Some tables.now.topology) }
    requires good { IsSoundProgram tables.now program.now }
{
    let kept = kept_after(alloc, tables, program, actors)?;
    let entries = merge(alloc, tables, program, kept)?;
    log_of(alloc, tables, program, &entries, Finish::Complete)
}

fn concluded(
    alloc: Global,
    tables: &Tables,
    program: &Program,
    actors: &[u32],
) -> Result<Row<u8>, NoMemory>
    requires sound { IsSoundFor tables.now.model (Some tables.now.topology) }
    requires good { IsSoundProgram tables.now program.now }
{
    let kept = kept_after(alloc, tables, program, actors)?;
    let whole = conclude(alloc, tables, program, kept)?;
    log_of(alloc, tables, program, &whole.0, whole.1)
}

fn log_after(alloc: Global, records: &'static Records) -> Result<Row<u8>, NoMemory> {
    let tables = tables_of(alloc, records.model)?;
    let program = program_in(alloc, &tables, records.scenario)?;
    if records.goes_on {
        concluded(alloc, &tables, &program, records.turns)
    } else {
        merged(alloc, &tables, &program, records.turns)
    }
}

#[test]
fn what_was_kept_is_merged_and_gone_on_from(rt: HostRuntime) -> Result<(), Fail> {
    for records in ALL.iter() {
        let log = log_after(rt.alloc(), records)?;
        assert_eq!(rt;
            str::from_utf8(log.as_slice()).unwrap_or("no text"),
            records.log
        );
    }
    Ok(())
}
