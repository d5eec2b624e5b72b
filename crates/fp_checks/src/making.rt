use crate::calls::{call, files, report, sink, text_of};
use crate::gates::Wavering;
use crate::logs::has_entries_of;
use crate::texts::{CHOOSING, COMMANDED, ONE_COMMAND, TWO_SIGNALS};
use fp_base::{NoMemory, Text};
use fp_main::Status;
use std::alloc::Global;
use std::sync::Wait;
use std::test::Fail;
use std::thread::Threads;

/// A load, or a run with one of its logs, and how many steps it has.
struct Ran {
    words: &'static str,
    files: &'static [(&'static str, &'static str)],
    steps: u64,
    text: &'static str,
}

static ONE_MADE: Ran = Ran {
    words: "make 1",
    files: &[],
    steps: 300,
    text: "make 1\nputs 100\ntakes 100\nend complete\n",
};

static THREE_MADE: Ran = Ran {
    words: "make 3",
    files: &[],
    steps: 900,
    text: "make 3\nputs 300\ntakes 300\nend complete\n",
};

static COMMAND: Ran = Ran {
    words: "run D.Main s.json a.fpp",
    files: &[("a.fpp", COMMANDED), ("s.json", ONE_COMMAND)],
    steps: 15,
    text: "1 k D.disp put 1 go[0] via caller ()
2 @D.disp D.disp take 1 go[0] ()
3 @D.disp D.w1 put 1 command RUN via D.disp.cmdOut[0] (7)
4 @D.disp D.disp done
4 @D.w1 D.w1 take 1 command RUN (7)
5 @D.w1 D.w1 emit Ran sent \"ran 7\"
6 @D.w1 D.sinks enter logIn[0] via D.w1.log[0] as Ran (0)
7 @D.w1 D.sinks leave
8 @D.w1 D.w1 write Count sent (1)
9 @D.w1 D.sinks enter tlmIn[0] via D.w1.tlm[0] as Count (0)
10 @D.w1 D.sinks leave
11 @D.w1 D.disp put 2 status[0] via D.w1.cmdResp[0] as OK (0, OK)
12 @D.disp D.disp take 2 status[0] (0, OK)
12 @D.w1 D.w1 done
13 @D.disp D.disp done
end complete
",
};

static SIGNALS: Ran = Ran {
    words: "run T s.json a.fpp",
    files: &[("a.fpp", CHOOSING), ("s.json", TWO_SIGNALS)],
    steps: 13,
    text: "1 k c enter go[0] via caller ()
2 k c put 1 signal m.s via self ()
3 k c leave
4 k c enter go[0] via caller ()
5 k c put 2 signal m.s via self ()
6 k c leave
7 @c c take 1 signal m.s ()
8 @c c start m [] A
9 @c c move m s [] A
10 @c c done
11 @c c take 2 signal m.s ()
12 @c c move m s [] B
13 @c c done
end complete
",
};

// Adds what differs in a run past a gate that wavers.
fn past_wavering<R: Threads + Wait + Sync>(
    rt: &R,
    alloc: Global,
    ran: &'static Ran,
    seed: u64,
    differences: &mut Text,
) -> Result<(), NoMemory> {
    let gate = Wavering::new(seed);
    let mut files = files(alloc, ran.files, 0)?;
    let sinks = (sink(alloc, 0)?, sink(alloc, 0)?);
    let outcome = call(rt, alloc, ran.words, &mut files, sinks, &gate)?;
    let text = text_of(&outcome.out);
    let is_due = text == ran.text || !ran.files.is_empty() && has_entries_of(text, ran.text);
    if is_due && outcome.status == Status::Done && gate.steps() == ran.steps {
        return Ok(());
    }
    differences.push_str(report(alloc, ran.words, &outcome)?.as_str())
}

#[test]
fn a_load_passes_the_gate_at_each_step(rt: HostRuntime) -> Result<(), Fail> {
    let mut differences = Text::new(rt.alloc());
    for seed in 0..5 {
        past_wavering(&rt, rt.alloc(), &ONE_MADE, seed, &mut differences)?;
        past_wavering(&rt, rt.alloc(), &THREE_MADE, seed, &mut differences)?;
    }
    assert_eq!(rt; differences.as_str(), "");
    Ok(())
}

#[test]
fn a_run_passes_the_gate_at_each_entry(rt: HostRuntime) -> Result<(), Fail> {
    let mut differences = Text::new(rt.alloc());
    for seed in 0..5 {
        past_wavering(&rt, rt.alloc(), &COMMAND, seed, &mut differences)?;
        past_wavering(&rt, rt.alloc(), &SIGNALS, seed, &mut differences)?;
    }
    assert_eq!(rt; differences.as_str(), "");
    Ok(())
}
