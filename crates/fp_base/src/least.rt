ghost use Rattle.std.specs.Prelude.{◌≡◌, ◌↔◌, IsTrue, Some, None, cond};
ghost use Rattle.fp_base.specs.Rules.{row};
ghost use Rattle.fp_base.specs.Least.{NoLater, earlier_of, lesser_of, broken_at};

use crate::place::Place;
use crate::refusal::Refusal;
use crate::rule::Rule;

/// The row of a rule in the table of rules.
fn row_of(rule: Rule) -> u8
    ensures { result ≡ row rule }
{
    match rule {
        Rule::BadCharacter => 1,
        Rule::OpenString => 2,
        Rule::BadEscape => 3,
        Rule::NumberTooLarge => 4,
        Rule::TextTooLong => 5,
        Rule::UnexpectedToken => 6,
        Rule::NestingTooDeep => 7,
        Rule::FormLeftOut => 8,
        Rule::DefinedTwice => 9,
        Rule::Undefined => 10,
        Rule::WrongKindOfName => 11,
        Rule::BadInclude => 12,
        Rule::FloatUsed => 13,
        Rule::Outside128Bits => 14,
        Rule::ZeroDivisor => 15,
        Rule::OperandKind => 16,
        Rule::Cycle => 17,
        Rule::BadConversion => 18,
        Rule::OutsideType => 19,
        Rule::ArraySize => 20,
        Rule::EnumValuesAllOrNone => 21,
        Rule::EnumValueRepeated => 22,
        Rule::BadMember => 23,
        Rule::StringSize => 24,
        Rule::FieldCount => 25,
        Rule::FieldKind => 26,
        Rule::LoneBrace => 27,
        Rule::ValueTooLarge => 28,
        Rule::ChainTooLong => 29,
        Rule::ParameterRepeated => 30,
        Rule::AsyncWithReturn => 31,
        Rule::QueueWordNotAllowed => 32,
        Rule::PortSize => 33,
        Rule::PortNameRepeated => 34,
        Rule::SpecialPort => 35,
        Rule::PriorityRange => 36,
        Rule::NameRepeated => 37,
        Rule::IdRepeated => 38,
        Rule::IdPast32Bits => 39,
        Rule::RefParameter => 40,
        Rule::BadLimits => 41,
        Rule::BadThrottle => 42,
        Rule::PassiveWithQueueUse => 43,
        Rule::QueueWithoutUse => 44,
        Rule::SpecialPortMissing => 45,
        Rule::BadMatch => 46,
        Rule::InterfaceCycle => 47,
        Rule::InitialCount => 48,
        Rule::InitialLeavesState => 49,
        Rule::SignalTwice => 50,
        Rule::ChoiceCycle => 51,
        Rule::Unreachable => 52,
        Rule::TypedValue => 53,
        Rule::UndefinedInMachine => 54,
        Rule::MachineNameRepeated => 55,
        Rule::MachineTooLarge => 56,
        Rule::ExternalMachine => 57,
        Rule::QueueSize => 58,
        Rule::ForActiveAlone => 59,
        Rule::RangesOverlap => 60,
        Rule::NumberOutOfRange => 61,
        Rule::BadInstance => 62,
        Rule::BadDirection => 63,
        Rule::TypesDiffer => 64,
        Rule::PatternPort => 65,
        Rule::ImportCycle => 66,
        Rule::PortMissing => 67,
        Rule::PortNumberRange => 68,
        Rule::OutputNumberTwice => 69,
        Rule::MatchPairMissing => 70,
        Rule::MatchPairRepeated => 71,
        Rule::MatchNumbersDiffer => 72,
        Rule::NoNumberFree => 73,
        Rule::NotJson => 74,
        Rule::UnknownKey => 75,
        Rule::WrongKindOfValue => 76,
        Rule::MissingKey => 77,
        Rule::PastSize => 78,
        Rule::UnknownName => 79,
        Rule::BadArgument => 80,
        Rule::NoWire => 81,
        Rule::SynchronousCycle => 82,
        Rule::LockCycle => 83,
        Rule::BadReturn => 84,
        Rule::BadDispatch => 85,
        Rule::ScenarioRepeated => 86,
        Rule::ActionNotAllowed => 87,
    }
}

/// Whether the one stands no later than the other: by file, line and column, and at one place by the row of the rule.
pub fn stands_no_later(one: Refusal, other: Refusal) -> bool
    ensures { IsTrue result ↔ NoLater one other }
{
    let here = one.place;
    let there = other.place;
    if here.file != there.file {
        return here.file < there.file;
    }
    if here.line != there.line {
        return here.line < there.line;
    }
    if here.column != there.column {
        return here.column < there.column;
    }
    row_of(one.rule) <= row_of(other.rule)
}

/// The lesser of two, where there is one.
pub fn lesser(one: Option<Refusal>, other: Option<Refusal>) -> Option<Refusal>
    ensures { result ≡ lesser_of one other }
{
    let Some(a) = one else {
        return other;
    };
    let Some(b) = other else {
        return one;
    };
    if stands_no_later(a, b) { one } else { other }
}

/// That of the earlier phase, where there is one.
pub fn earlier(one: Option<Refusal>, other: Option<Refusal>) -> Option<Refusal>
    ensures { result ≡ earlier_of one other }
{
    match one {
        Some(_) => one,
        None => other,
    }
}

/// The refusal by a rule that is broken at a place.
pub fn refusal_at(rule: Rule, place: Place) -> Refusal
    ensures { result ≡ broken_at rule place }
{
    Refusal {
        rule,
        place,
        other: None,
    }
}

/// The same, where the rule is broken.
pub fn refusal_if(broken: bool, rule: Rule, place: Place) -> Option<Refusal>
    ensures { result ≡ cond broken (Some (broken_at rule place)) None }
{
    if broken {
        Some(refusal_at(rule, place))
    } else {
        None
    }
}
