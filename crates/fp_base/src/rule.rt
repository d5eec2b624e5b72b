ghost use Rattle.std.specs.Prelude.{◌≡◌};
ghost use Rattle.fp_base.specs.Rules.{text_of};

/// A rule that a source or a scenario can break, in the order of the table of rules. The phases stand in the order of their letters in `LGNV`, then `C`
/// with `D` and `K`, then `SITU`; those of scenarios, `H`, in the two phases `H1` to `H5` and `H5` to `H14`.
#[derive(Clone, Copy, PartialEq, Eq)]
pub enum Rule {
    /// L1: the text isn't UTF-8, or no token begins here.
    BadCharacter,
    /// L2: a string on one line meets a newline or the end, or a string between `"""` the end.
    OpenString,
    /// L3: in a string a backslash, itself not behind one, stands directly before a newline.
    BadEscape,
    /// L4: a number above 2^127 - 1.
    NumberTooLarge,
    /// L5: a source file of more than 4 MiB, or more than 16 MiB of them.
    TextTooLong,
    /// G1: with this token no list of members goes on.
    UnexpectedToken,
    /// G2: an expression or a module is more than 64 deep.
    NestingTooDeep,
    /// G3: as `UnexpectedToken`, at the first word of a form of the language that isn't read.
    FormLeftOut,
    /// N1: an earlier definition has the group and the name.
    DefinedTwice,
    /// N2: the use means nothing in any group.
    Undefined,
    /// N3: the use means something, and nothing in the group that is wanted.
    WrongKindOfName,
    /// N4: the file is one of those that include it, or a limit on inclusions is passed.
    BadInclude,
    /// V1: a float type or a float literal.
    FloatUsed,
    /// V2: a value outside -2^127 to 2^127 - 1.
    Outside128Bits,
    /// V3: the divisor is 0.
    ZeroDivisor,
    /// V4: an operand is neither a number nor an enumerated constant.
    OperandKind,
    /// V5: a constant, enumerated constant or type uses itself through others.
    Cycle,
    /// V6: no conversion, for another cause than `OutsideType` and `BadMember`.
    BadConversion,
    /// V7: an integer that the integer type lacks.
    OutsideType,
    /// V8: an array's size isn't 1 to 256.
    ArraySize,
    /// V9: some constants of an enum have values and some don't.
    EnumValuesAllOrNone,
    /// V10: the value is an earlier constant's.
    EnumValueRepeated,
    /// V11: a member or a name is repeated, or unknown to the struct.
    BadMember,
    /// V12: a string's size isn't 1 to 65,535.
    StringSize,
    /// V13: a format's fields aren't as many as the values.
    FieldCount,
    /// V14: a field of another form, or a number's field for a type that isn't an integer type.
    FieldKind,
    /// V15: a brace that is part of no field or escape.
    LoneBrace,
    /// V16: a value or a type of more than 65,536 leaves or 64 levels.
    ValueTooLarge,
    /// V17: a chain of uses of more than 256 definitions.
    ChainTooLong,
    /// C1: a name stands twice in one list of parameters of a port, an internal port, a command or an event.
    ParameterRepeated,
    /// C2: the port of an async input has a result.
    AsyncWithReturn,
    /// C3: a priority or a queue full behaviour where nothing is asynchronous.
    QueueWordNotAllowed,
    /// C4: a port's size isn't 1 to 1,024.
    PortSize,
    /// C5: two ports of one component have one name, internal ports among them.
    PortNameRepeated,
    /// C6: a special port of a kind that is already there, or whose type isn't a port of the model.
    SpecialPort,
    /// C7: a priority outside 32 signed bits.
    PriorityRange,
    /// D1: two commands (implied ones among them), events, channels or parameters of one component have one name.
    NameRepeated,
    /// D2: two of one kind in one component have one opcode or id.
    IdRepeated,
    /// D3: a local id or opcode isn't 0 to 2^32 - 1.
    IdPast32Bits,
    /// D4: a `ref` parameter of an internal port, a command or an event.
    RefParameter,
    /// D5: limits of a channel whose type isn't an integer type, or a colour that is repeated.
    BadLimits,
    /// D6: a throttle isn't 1 to 2^32 - 1.
    BadThrottle,
    /// K1: an async input, an internal port, an async command or a machine instance in a passive component.
    PassiveWithQueueUse,
    /// K2: an active or queued component has none of these.
    QueueWithoutUse,
    /// K3: commands, parameters, events or channels without the special ports that they need.
    SpecialPortMissing,
    /// K4: a match not of two different general ports of one size.
    BadMatch,
    /// K5: an interface imports itself, through others or not.
    InterfaceCycle,
    /// S1: not one initial transition in a machine or in a state that holds states or choices, or any in another state.
    InitialCount,
    /// S2: through choices an initial transition reaches a state that isn't properly inside its own.
    InitialLeavesState,
    /// S3: two transitions of one state are on one signal.
    SignalTwice,
    /// S4: choices reach each other in a ring.
    ChoiceCycle,
    /// S5: a state or choice that no path from the machine's initial transition reaches.
    Unreachable,
    /// S6: a typed action or guard where that value isn't given.
    TypedValue,
    /// S7: a signal, action, guard, state or choice that the machine lacks.
    UndefinedInMachine,
    /// S8: signals, actions, guards, the states and choices of one state, or the machine instances of one component have one name; or a second entry or exit.
    MachineNameRepeated,
    /// S9: a nesting over 16, over 1,000 states and choices, or over 1,000 signals.
    MachineTooLarge,
    /// S10: an instance of a machine without a body.
    ExternalMachine,
    /// I1: missing for an active or queued instance, or there for a passive one.
    QueueSize,
    /// I2: the stack size, priority or cpu of an instance that is not active.
    ForActiveAlone,
    /// I3: the range of ids overlaps with an earlier instance's.
    RangesOverlap,
    /// I4: a number of an instance is outside its range.
    NumberOutOfRange,
    /// T1: an instance that stands twice in a topology, or that the topology lacks.
    BadInstance,
    /// T2: a connection from a port that isn't an output, or to one that isn't an input.
    BadDirection,
    /// T3: the two ports of a connection aren't of one port definition.
    TypesDiffer,
    /// T4: the instance of a pattern hasn't exactly one general port of a type and direction that the pattern needs there.
    PatternPort,
    /// T5: a topology imports itself through others.
    ImportCycle,
    /// T6: the component lacks the port, or a listed target hasn't exactly one of each port that the pattern joins.
    PortMissing,
    /// U1: a written number below 0 or not below the port's size.
    PortNumberRange,
    /// U2: two connections have one number at one output port.
    OutputNumberTwice,
    /// U3: a matched connection has no partner with that other instance.
    MatchPairMissing,
    /// U4: two matched connections at one port with one other instance.
    MatchPairRepeated,
    /// U5: the two connections of a pair have different written numbers.
    MatchNumbersDiffer,
    /// U6: every number below the size is used.
    NoNumberFree,
    /// H1: the text isn't the text of a JSON value.
    NotJson,
    /// H2: an object has a key that it may not have.
    UnknownKey,
    /// H3: the value of a key is of another kind; or an action hasn't exactly one first key.
    WrongKindOfValue,
    /// H4: an object lacks a key that it must have.
    MissingKey,
    /// H5: a limit on scenarios and runs is passed.
    PastSize,
    /// H6: a name that means nothing there.
    UnknownName,
    /// H7: the arguments differ in count, type or JSON form.
    BadArgument,
    /// H8: an output's number without a wire, or a caller's number not below the size.
    NoWire,
    /// H9: synchronous calls lead back to their handler.
    SynchronousCycle,
    /// H10: guards and turns are waited for in a ring.
    LockCycle,
    /// H11: missing, misplaced or not wanted.
    BadReturn,
    /// H12: outside a handler of a queued instance.
    BadDispatch,
    /// H13: a caller's name, or the place of a handler or of a guard's answers, is repeated.
    ScenarioRepeated,
    /// H14: an action that may not stand there.
    ActionNotAllowed,
}

impl Rule {
    /// What is printed of it.
    pub fn text(self) -> &'static str
        ensures { result.now ≡ text_of self }
    {
        match self {
            Rule::BadCharacter => "L1 bad character",
            Rule::OpenString => "L2 open string",
            Rule::BadEscape => "L3 bad escape",
            Rule::NumberTooLarge => "L4 number too large",
            Rule::TextTooLong => "L5 text too long",
            Rule::UnexpectedToken => "G1 unexpected token",
            Rule::NestingTooDeep => "G2 nesting too deep",
            Rule::FormLeftOut => "G3 form left out",
            Rule::DefinedTwice => "N1 defined twice",
            Rule::Undefined => "N2 undefined",
            Rule::WrongKindOfName => "N3 wrong kind of name",
            Rule::BadInclude => "N4 include",
            Rule::FloatUsed => "V1 float",
            Rule::Outside128Bits => "V2 outside 128 bits",
            Rule::ZeroDivisor => "V3 zero divisor",
            Rule::OperandKind => "V4 operand kind",
            Rule::Cycle => "V5 cycle",
            Rule::BadConversion => "V6 bad conversion",
            Rule::OutsideType => "V7 outside the type",
            Rule::ArraySize => "V8 array size",
            Rule::EnumValuesAllOrNone => "V9 enum values all or none",
            Rule::EnumValueRepeated => "V10 enum value repeated",
            Rule::BadMember => "V11 member",
            Rule::StringSize => "V12 string size",
            Rule::FieldCount => "V13 field count",
            Rule::FieldKind => "V14 field kind",
            Rule::LoneBrace => "V15 brace",
            Rule::ValueTooLarge => "V16 too large",
            Rule::ChainTooLong => "V17 chain too long",
            Rule::ParameterRepeated => "C1 parameter repeated",
            Rule::AsyncWithReturn => "C2 async with return",
            Rule::QueueWordNotAllowed => "C3 queue word not allowed",
            Rule::PortSize => "C4 port size",
            Rule::PortNameRepeated => "C5 port name repeated",
            Rule::SpecialPort => "C6 special port",
            Rule::PriorityRange => "C7 priority range",
            Rule::NameRepeated => "D1 name repeated",
            Rule::IdRepeated => "D2 opcode or id repeated",
            Rule::IdPast32Bits => "D3 id past 32 bits",
            Rule::RefParameter => "D4 ref parameter",
            Rule::BadLimits => "D5 limits",
            Rule::BadThrottle => "D6 throttle",
            Rule::PassiveWithQueueUse => "K1 passive with queue use",
            Rule::QueueWithoutUse => "K2 queue without use",
            Rule::SpecialPortMissing => "K3 special port missing",
            Rule::BadMatch => "K4 bad match",
            Rule::InterfaceCycle => "K5 interface cycle",
            Rule::InitialCount => "S1 initial count",
            Rule::InitialLeavesState => "S2 initial leaves its state",
            Rule::SignalTwice => "S3 signal twice",
            Rule::ChoiceCycle => "S4 choice cycle",
            Rule::Unreachable => "S5 unreachable",
            Rule::TypedValue => "S6 typed value",
            Rule::UndefinedInMachine => "S7 undefined",
            Rule::MachineNameRepeated => "S8 name repeated",
            Rule::MachineTooLarge => "S9 machine too large",
            Rule::ExternalMachine => "S10 external machine",
            Rule::QueueSize => "I1 queue size",
            Rule::ForActiveAlone => "I2 for active alone",
            Rule::RangesOverlap => "I3 ranges overlap",
            Rule::NumberOutOfRange => "I4 number out of range",
            Rule::BadInstance => "T1 instance",
            Rule::BadDirection => "T2 direction",
            Rule::TypesDiffer => "T3 types differ",
            Rule::PatternPort => "T4 pattern port",
            Rule::ImportCycle => "T5 import cycle",
            Rule::PortMissing => "T6 port missing",
            Rule::PortNumberRange => "U1 number out of range",
            Rule::OutputNumberTwice => "U2 output number twice",
            Rule::MatchPairMissing => "U3 match pair missing",
            Rule::MatchPairRepeated => "U4 match pair repeated",
            Rule::MatchNumbersDiffer => "U5 match numbers differ",
            Rule::NoNumberFree => "U6 no number free",
            Rule::NotJson => "H1 not JSON",
            Rule::UnknownKey => "H2 unknown key",
            Rule::WrongKindOfValue => "H3 wrong kind of value",
            Rule::MissingKey => "H4 missing key",
            Rule::PastSize => "H5 size",
            Rule::UnknownName => "H6 unknown name",
            Rule::BadArgument => "H7 argument",
            Rule::NoWire => "H8 no wire",
            Rule::SynchronousCycle => "H9 synchronous cycle",
            Rule::LockCycle => "H10 lock cycle",
            Rule::BadReturn => "H11 return",
            Rule::BadDispatch => "H12 dispatch",
            Rule::ScenarioRepeated => "H13 repeated",
            Rule::ActionNotAllowed => "H14 action not allowed",
        }
    }
}
