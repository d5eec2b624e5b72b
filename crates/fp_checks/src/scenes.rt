use crate::texts::{ASSERTING, COMMANDED, COMMANDED_PORTS, TWO_CALLS};
use fp_main::Status;

/// A call, the files that it reads in their order, and what comes of it where no read and no write fails.
pub struct Scene {
    pub words: &'static str,
    pub files: &'static [(&'static str, &'static str)],
    pub reads: &'static [&'static str],
    pub status: Status,
    pub out: &'static str,
    pub diag: &'static str,
}

const DEFAULTS: Scene = Scene {
    words: "",
    files: &[],
    reads: &["a.fpp"],
    status: Status::Done,
    out: "",
    diag: "",
};

const LISTING: Scene = Scene {
    words: "check a.fpp",
    files: &[("a.fpp", "constant a = 16\n")],
    out: "constant a = 16\n",
    ..DEFAULTS
};

const DIFFERENCE: Scene = Scene {
    words: "check a.fpp",
    files: &[("a.fpp", "constant a = 0x10\nconstant b = a - 17\n")],
    out: "constant a = 16\nconstant b = -1\n",
    ..DEFAULTS
};

const TWO_FILES: Scene = Scene {
    words: "check a.fpp b.fpp",
    files: &[("a.fpp", "constant a = 1\n"), ("b.fpp", "constant b = a\n")],
    reads: &["a.fpp", "b.fpp"],
    out: "constant a = 1\nconstant b = 1\n",
    ..DEFAULTS
};

// Its second file is the first once more.
const TWICE: Scene = Scene {
    words: "check a.fpp a.fpp",
    files: &[("a.fpp", "# nothing\n")],
    reads: &["a.fpp", "a.fpp"],
    ..DEFAULTS
};

const REFUSED: Scene = Scene {
    words: "check a.fpp",
    files: &[("a.fpp", "constant = 1\n")],
    status: Status::Refused,
    diag: "a.fpp:1:10: G1 unexpected token\n",
    ..DEFAULTS
};

const LAST_MISSING: Scene = Scene {
    words: "check d/a.fpp c.fpp",
    files: &[("d/a.fpp", "include \"b.fppi\"\n"), ("d/b.fppi", "")],
    reads: &["d/a.fpp", "d/b.fppi", "c.fpp"],
    status: Status::NoFile,
    diag: "fpp: no file c.fpp\n",
    ..DEFAULTS
};

const WRONG_WORDS: Scene = Scene {
    words: "check",
    reads: &[],
    status: Status::Usage,
    diag: "fpp: usage at word 2\n",
    ..DEFAULTS
};

const CONNECTIONS: Scene = Scene {
    words: "ports D.Main a.fpp",
    files: &[("a.fpp", COMMANDED)],
    out: COMMANDED_PORTS,
    ..DEFAULTS
};

const NO_TOPOLOGY: Scene = Scene {
    words: "ports X a.fpp",
    files: &[("a.fpp", "topology T { }\n")],
    status: Status::NoTopology,
    diag: "fpp: no topology X\n",
    ..DEFAULTS
};

const DICTIONARY: Scene = Scene {
    words: "dict T a.fpp",
    files: &[("a.fpp", "topology T { }\n")],
    out: "{\"commands\":[],\"containers\":[],\"events\":[],\"metadata\":{\"deploymentName\":\"T\",\
        \"dictionarySpecVersion\":\"1.0.0\",\"frameworkVersion\":\"0\",\"libraryVersions\":[],\"projectVersion\":\"0\"},\
        \"parameters\":[],\"records\":[],\"telemetryChannels\":[],\"telemetryPacketSets\":[],\"typeDefinitions\":[]}\n",
    ..DEFAULTS
};

const INCLUDING: &str = "include \"p.fppi\"
queued component Q { async input port i: P drop }
instance q: Q base id 0 queue size 1
topology T { instance q }
";

const RUN: Scene = Scene {
    words: "run T s.json a.fpp",
    files: &[
        ("a.fpp", INCLUDING),
        ("p.fppi", "port P(a: U8)\n"),
        ("s.json", TWO_CALLS),
    ],
    reads: &["a.fpp", "p.fppi", "s.json"],
    out: "1 k q put 1 i[0] via caller (1)\n2 k q drop i[0] via caller (2)\nend complete\n",
    ..DEFAULTS
};

const SCENARIO_REFUSED: Scene = Scene {
    files: &[
        ("a.fpp", INCLUDING),
        ("p.fppi", "port P(a: U8)\n"),
        ("s.json", "{\"steps\":1"),
    ],
    status: Status::Refused,
    out: "",
    diag: "s.json:/: H1 not JSON\n",
    ..RUN
};

const SCENARIO_MISSING: Scene = Scene {
    files: &[("a.fpp", INCLUDING), ("p.fppi", "port P(a: U8)\n")],
    status: Status::NoFile,
    out: "",
    diag: "fpp: no file s.json\n",
    ..RUN
};

// Its scenario isn't read, so that its read can't fail.
const NOT_RUN: Scene = Scene {
    words: "run X s.json a.fpp",
    reads: &["a.fpp", "p.fppi"],
    status: Status::NoTopology,
    out: "",
    diag: "fpp: no topology X\n",
    ..RUN
};

const ASSERTED: Scene = Scene {
    words: "run T s.json a.fpp",
    files: &[("a.fpp", ASSERTING), ("s.json", TWO_CALLS)],
    reads: &["a.fpp", "s.json"],
    status: Status::Asserted,
    out: "1 k q put 1 i[0] via caller (1)\n2 k q assert i[0] via caller (2)\nend asserted\n",
    ..DEFAULTS
};

const LOAD: Scene = Scene {
    words: "make 3",
    reads: &[],
    out: "make 3\nputs 300\ntakes 300\nend complete\n",
    ..DEFAULTS
};

pub static SCENES: [Scene; 16] = [
    LISTING,
    DIFFERENCE,
    TWO_FILES,
    TWICE,
    REFUSED,
    LAST_MISSING,
    WRONG_WORDS,
    CONNECTIONS,
    NO_TOPOLOGY,
    DICTIONARY,
    RUN,
    SCENARIO_REFUSED,
    SCENARIO_MISSING,
    NOT_RUN,
    ASSERTED,
    LOAD,
];
