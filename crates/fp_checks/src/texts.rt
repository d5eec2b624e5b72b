/// A queue that has room for one call, and drops the next.
pub const DROPPING: &str = "port P(a: U8)
queued component Q { async input port i: P drop }
instance q: Q base id 0 queue size 1
topology T { instance q }
";

/// The same, where the next call waits for room.
pub const BLOCKING: &str = "port P(a: U8)
queued component Q { async input port i: P block }
instance q: Q base id 0 queue size 1
topology T { instance q }
";

/// The same, where the next call ends the run.
pub const ASSERTING: &str = "port P(a: U8)
queued component Q { async input port i: P assert }
instance q: Q base id 0 queue size 1
topology T { instance q }
";

/// Two calls at that queue.
pub const TWO_CALLS: &str =
    r#"{"callers":[{"name":"k","do":[{"call":"q.i","with":[1]},{"call":"q.i","with":[2]}]}]}"#;

/// A guarded and an unguarded port at one instance, and a port at another.
pub const GUARDED: &str = "port P
passive component A { guarded input port g: P; sync input port s: P }
passive component B { sync input port i: P }
instance a: A base id 0
instance b: B base id 1
topology T { instance a; instance b }
";

/// Four callers, two of them at the guarded port.
pub const FOUR_CALLERS: &str = r#"{"callers":[
  {"name":"k0","do":[{"call":"a.s"}]},
  {"name":"k1","do":[{"call":"b.i"}]},
  {"name":"k2","do":[{"call":"a.g"}]},
  {"name":"k3","do":[{"call":"a.g"}]}
]}"#;

/// Two active instances that hand a call to each other.
pub const LOOPED: &str = "port P
active component C { async input port i: P; output port o: P }
instance a: C base id 0 queue size 4
instance b: C base id 1 queue size 4
topology T { instance a; instance b; connections L { a.o -> b.i, b.o -> a.i } }
";

/// A call that goes round, up to four steps.
pub const FOUR_STEPS: &str = r#"{"steps":4,"callers":[{"name":"k","do":[{"call":"a.i"}]}],
"handlers":[{"of":"C","on":"port i","do":[{"call":"o"}]}]}"#;

/// Connections with written numbers and with given ones.
pub const NUMBERED: &str = "port P
passive component A { output port o: [3] P }
passive component B { sync input port i: [2] P }
instance a: A base id 0
instance b: B base id 1
topology T {
  instance a; instance b
  connections C { a.o -> b.i, a.o[1] -> b.i[1], a.o -> b.i }
}
";

/// A machine that has an action wherever a move from B over its parent's transition passes.
pub const NESTED: &str = "state machine M {
  signal s
  action xa; action xb; action ea; action t; action ia
  initial enter A
  state A {
    initial do { ia } enter B
    entry do { ea }
    exit do { xa }
    on s do { t } enter A
    state B { exit do { xb } }
  }
}
";

/// A machine whose guard chooses between two states.
pub const CHOOSING: &str = "state machine M {
  signal s; guard g
  initial enter A
  state A { on s enter X }
  state B
  choice X { if g enter B else enter A }
}
port P
active component C { sync input port go: P; state machine instance m: M }
instance c: C base id 0 queue size 4
topology T { instance c }
";

/// Two signals to it, at the first of which the guard says no.
pub const TWO_SIGNALS: &str = r#"{"callers":[{"name":"k","do":[{"call":"c.go"},{"call":"c.go"}]}],
"guards":[{"of":"c","machine":"m","guard":"g","answers":[false,true]}],
"handlers":[{"of":"c","on":"port go","do":[{"signal":"m","name":"s"}]}]}"#;

/// A dispatcher of commands and two who carry them out, with all that is joined by patterns.
pub const COMMANDED: &str = "module Fw {
  type CmdArgs
  enum Response { OK, FAIL }
  port Cmd(opCode: U32, ref args: CmdArgs)
  port CmdReg(opCode: U32)
  port CmdResponse(opCode: U32, response: Response)
  port Log(n: U32)
  port LogText(n: U32)
  port Time
  port Tlm(n: U32)
}
module D {
  port G
  active component Dispatcher {
    sync input port regIn: [2] Fw.CmdReg
    output port cmdOut: [2] Fw.Cmd
    async input port status: [2] Fw.CmdResponse
    async input port go: G
    match cmdOut with regIn
  }
  passive component Sinks {
    sync input port logIn: Fw.Log
    sync input port textIn: Fw.LogText
    sync input port tlmIn: Fw.Tlm
    sync input port timeIn: Fw.Time
  }
  active component Worker {
    command recv port cmdIn
    command reg port cmdReg
    command resp port cmdResp
    event port log
    text event port logText
    telemetry port tlm
    time get port clock
    async command RUN(n: U8)
    event Ran(n: U8) severity activity high format \"ran {}\"
    telemetry Count: U32 update on change
  }
  instance disp: Dispatcher base id 0x100 queue size 10
  instance sinks: Sinks base id 0x200
  instance w1: Worker base id 0x300 queue size 5
  instance w2: Worker base id 0x400 queue size 5
  topology Main {
    instance disp; instance sinks; instance w1; instance w2
    command connections instance disp
    event connections instance sinks
    text event connections instance sinks
    telemetry connections instance sinks
    time connections instance sinks
  }
}
";

/// Its connections.
pub const COMMANDED_PORTS: &str = "D.disp.cmdOut[0] -> D.w1.cmdIn[0]
D.disp.cmdOut[1] -> D.w2.cmdIn[0]
D.w1.clock[0] -> D.sinks.timeIn[0]
D.w1.cmdReg[0] -> D.disp.regIn[0]
D.w1.cmdResp[0] -> D.disp.status[0]
D.w1.log[0] -> D.sinks.logIn[0]
D.w1.logText[0] -> D.sinks.textIn[0]
D.w1.tlm[0] -> D.sinks.tlmIn[0]
D.w2.clock[0] -> D.sinks.timeIn[0]
D.w2.cmdReg[0] -> D.disp.regIn[1]
D.w2.cmdResp[0] -> D.disp.status[0]
D.w2.log[0] -> D.sinks.logIn[0]
D.w2.logText[0] -> D.sinks.textIn[0]
D.w2.tlm[0] -> D.sinks.tlmIn[0]
";

/// A call that becomes a command, which emits an event, writes a channel and is answered.
pub const ONE_COMMAND: &str = r#"{"callers":[{"name":"k","do":[{"call":"D.disp.go"}]}],"handlers":[
  {"of":"D.disp","on":"port go","do":[{"command":"cmdOut","name":"RUN","with":[7]}]},
  {"of":"D.Worker","on":"command RUN","do":[{"emit":"Ran","with":[{"$":"n"}]},{"write":"Count","with":[1]},{"respond":"OK"}]}
]}"#;
