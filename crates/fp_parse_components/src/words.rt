ghost use Rattle.fp_grammar.specs.Parses.{Parses};
ghost use Rattle.fp_parse_pieces.specs.Kinds.{kind};
ghost use Rattle.fp_parse_components.specs.Kinds as K;

use fp_base::{NoMemory, Span};
use fp_lexer::reserved::{
    ACTIVE, ACTIVITY, ALWAYS, ASSERT, ASYNC, BLOCK, CHANGE, COMMAND, DIAGNOSTIC, DROP, EVENT,
    FATAL, GET, GUARDED, HIGH, HOOK, INPUT, LOW, ON, ORANGE, OUTPUT, PARAM, PASSIVE, QUEUED, RECV,
    RED, REG, RESP, SET, SYNC, TELEMETRY, TEXT, TIME, WARNING, YELLOW,
};
use fp_lexer::{Token, Word};
use fp_parse_pieces::{
    After, AtWord, Either, Leaf, Made, Make, NodeOf, OneLeaf, Parsed, Piece, Seq,
};
use fp_tree::{
    Color, CommandKind, ComponentKind, Full, GeneralKind, Severity, SpecialKind, Update,
};
use std::alloc::Global;

/// `active`, `passive` or `queued`.
pub struct ComponentWord;

impl Leaf for ComponentWord {
    type Node = (Span, ComponentKind);

    ghost grammar = { K.component_kind };

    fn at(tokens: &[Token], at: usize) -> Option<(Span, ComponentKind)> {
        let Some(token) = tokens.get(at) else {
            return None;
        };
        let kind = match &token.what {
            Word::Reserved(ACTIVE) => ComponentKind::Active,
            Word::Reserved(PASSIVE) => ComponentKind::Passive,
            Word::Reserved(QUEUED) => ComponentKind::Queued,
            _ => return None,
        };
        Some((token.at, kind))
    }
}

/// What is done when the queue is full.
pub struct FullWord;

impl Leaf for FullWord {
    type Node = (Span, Full);

    ghost grammar = { K.full_word };

    fn at(tokens: &[Token], at: usize) -> Option<(Span, Full)> {
        let Some(token) = tokens.get(at) else {
            return None;
        };
        let full = match &token.what {
            Word::Reserved(ASSERT) => Full::Assert,
            Word::Reserved(BLOCK) => Full::Block,
            Word::Reserved(DROP) => Full::Dropped,
            Word::Reserved(HOOK) => Full::Hook,
            _ => return None,
        };
        Some((token.at, full))
    }
}

/// Who runs a command.
pub struct CommandWord;

impl Leaf for CommandWord {
    type Node = (Span, CommandKind);

    ghost grammar = { K.command_kind };

    fn at(tokens: &[Token], at: usize) -> Option<(Span, CommandKind)> {
        let Some(token) = tokens.get(at) else {
            return None;
        };
        let kind = match &token.what {
            Word::Reserved(ASYNC) => CommandKind::Async,
            Word::Reserved(SYNC) => CommandKind::Sync,
            Word::Reserved(GUARDED) => CommandKind::Guarded,
            _ => return None,
        };
        Some((token.at, kind))
    }
}

/// How bad it is when a limit is passed.
pub struct ColorWord;

impl Leaf for ColorWord {
    type Node = (Span, Color);

    ghost grammar = { K.color_word };

    fn at(tokens: &[Token], at: usize) -> Option<(Span, Color)> {
        let Some(token) = tokens.get(at) else {
            return None;
        };
        let color = match &token.what {
            Word::Reserved(YELLOW) => Color::Yellow,
            Word::Reserved(ORANGE) => Color::Orange,
            Word::Reserved(RED) => Color::Red,
            _ => return None,
        };
        Some((token.at, color))
    }
}

struct InputWord;

impl Leaf for InputWord {
    type Node = (Span, GeneralKind);

    ghost grammar = { K.input_word };

    fn at(tokens: &[Token], at: usize) -> Option<(Span, GeneralKind)> {
        let Some(token) = tokens.get(at) else {
            return None;
        };
        let kind = match &token.what {
            Word::Reserved(ASYNC) => GeneralKind::AsyncInput,
            Word::Reserved(SYNC) => GeneralKind::SyncInput,
            Word::Reserved(GUARDED) => GeneralKind::GuardedInput,
            _ => return None,
        };
        Some((token.at, kind))
    }
}

struct OutputWord;

impl Leaf for OutputWord {
    type Node = (Span, GeneralKind);

    ghost grammar = { K.output_word };

    fn at(tokens: &[Token], at: usize) -> Option<(Span, GeneralKind)> {
        let Some(token) = tokens.get(at) else {
            return None;
        };
        let kind = match &token.what {
            Word::Reserved(OUTPUT) => GeneralKind::Output,
            _ => return None,
        };
        Some((token.at, kind))
    }
}

struct InputKind;

impl Make for InputKind {
    type Parts = Seq<OneLeaf<InputWord>, AtWord<INPUT>>;

    type Node = (Span, GeneralKind);

    ghost made = { K.made_input };

    fn make(_: Global, parts: NodeOf<Self::Parts>) -> Result<(Span, GeneralKind), NoMemory> {
        let (found, _) = parts;
        Ok(found)
    }
}

type GeneralWords = Either<Made<InputKind>, OneLeaf<OutputWord>>;

/// Which way a general port goes, and the place of its first word.
pub struct GeneralPortKind;

impl Piece for GeneralPortKind {
    type Node = (Span, GeneralKind);

    ghost grammar = { λ depth. K.general_kind };

    fn read(
        alloc: Global,
        tokens: &[Token],
        from: usize,
        depth: u32,
    ) -> Parsed<(Span, GeneralKind)> {
        general_kind(alloc, tokens, from, depth)
    }
}

fn general_kind(
    alloc: Global,
    tokens: &[Token],
    from: usize,
    depth: u32,
) -> Parsed<(Span, GeneralKind)>
    ensures { Parses kind K.general_kind tokens.now from result }
{
    GeneralWords::read(alloc, tokens, from, depth)
}

struct CommandPortWord;

impl Leaf for CommandPortWord {
    type Node = SpecialKind;

    ghost grammar = { K.command_port_word };

    fn at(tokens: &[Token], at: usize) -> Option<SpecialKind> {
        let Some(token) = tokens.get(at) else {
            return None;
        };
        let kind = match &token.what {
            Word::Reserved(RECV) => SpecialKind::CommandRecv,
            Word::Reserved(REG) => SpecialKind::CommandReg,
            Word::Reserved(RESP) => SpecialKind::CommandResp,
            _ => return None,
        };
        Some(kind)
    }
}

struct ParamPortWord;

impl Leaf for ParamPortWord {
    type Node = SpecialKind;

    ghost grammar = { K.param_port_word };

    fn at(tokens: &[Token], at: usize) -> Option<SpecialKind> {
        let Some(token) = tokens.get(at) else {
            return None;
        };
        let kind = match &token.what {
            Word::Reserved(GET) => SpecialKind::ParamGet,
            Word::Reserved(SET) => SpecialKind::ParamSet,
            _ => return None,
        };
        Some(kind)
    }
}

struct TextPortWord;

impl Leaf for TextPortWord {
    type Node = SpecialKind;

    ghost grammar = { K.text_port_word };

    fn at(tokens: &[Token], at: usize) -> Option<SpecialKind> {
        let Some(token) = tokens.get(at) else {
            return None;
        };
        let kind = match &token.what {
            Word::Reserved(EVENT) => SpecialKind::TextEvent,
            _ => return None,
        };
        Some(kind)
    }
}

struct TimePortWord;

impl Leaf for TimePortWord {
    type Node = SpecialKind;

    ghost grammar = { K.time_port_word };

    fn at(tokens: &[Token], at: usize) -> Option<SpecialKind> {
        let Some(token) = tokens.get(at) else {
            return None;
        };
        let kind = match &token.what {
            Word::Reserved(GET) => SpecialKind::TimeGet,
            _ => return None,
        };
        Some(kind)
    }
}

struct SendingWord;

impl Leaf for SendingWord {
    type Node = (Span, SpecialKind);

    ghost grammar = { K.sending_word };

    fn at(tokens: &[Token], at: usize) -> Option<(Span, SpecialKind)> {
        let Some(token) = tokens.get(at) else {
            return None;
        };
        let kind = match &token.what {
            Word::Reserved(EVENT) => SpecialKind::Event,
            Word::Reserved(TELEMETRY) => SpecialKind::Telemetry,
            _ => return None,
        };
        Some((token.at, kind))
    }
}

type CommandPort = Seq<AtWord<COMMAND>, OneLeaf<CommandPortWord>>;

type ParamPort = Seq<AtWord<PARAM>, OneLeaf<ParamPortWord>>;

type TextPort = Seq<AtWord<TEXT>, OneLeaf<TextPortWord>>;

type TimePort = Seq<AtWord<TIME>, OneLeaf<TimePortWord>>;

type SpecialWords = Either<
    CommandPort,
    Either<ParamPort, Either<TextPort, Either<TimePort, OneLeaf<SendingWord>>>>,
>;

/// What a special port is for, and the place of its first word.
pub struct SpecialPortKind;

impl Piece for SpecialPortKind {
    type Node = (Span, SpecialKind);

    ghost grammar = { λ depth. K.special_kind };

    fn read(
        alloc: Global,
        tokens: &[Token],
        from: usize,
        depth: u32,
    ) -> Parsed<(Span, SpecialKind)> {
        special_kind(alloc, tokens, from, depth)
    }
}

fn special_kind(
    alloc: Global,
    tokens: &[Token],
    from: usize,
    depth: u32,
) -> Parsed<(Span, SpecialKind)>
    ensures { Parses kind K.special_kind tokens.now from result }
{
    SpecialWords::read(alloc, tokens, from, depth)
}

struct ActivityWord;

impl Leaf for ActivityWord {
    type Node = Severity;

    ghost grammar = { K.activity_word };

    fn at(tokens: &[Token], at: usize) -> Option<Severity> {
        let Some(token) = tokens.get(at) else {
            return None;
        };
        let severity = match &token.what {
            Word::Reserved(HIGH) => Severity::ActivityHigh,
            Word::Reserved(LOW) => Severity::ActivityLow,
            _ => return None,
        };
        Some(severity)
    }
}

struct WarningWord;

impl Leaf for WarningWord {
    type Node = Severity;

    ghost grammar = { K.warning_word };

    fn at(tokens: &[Token], at: usize) -> Option<Severity> {
        let Some(token) = tokens.get(at) else {
            return None;
        };
        let severity = match &token.what {
            Word::Reserved(HIGH) => Severity::WarningHigh,
            Word::Reserved(LOW) => Severity::WarningLow,
            _ => return None,
        };
        Some(severity)
    }
}

struct SeverityWord;

impl Leaf for SeverityWord {
    type Node = Severity;

    ghost grammar = { K.severity_word };

    fn at(tokens: &[Token], at: usize) -> Option<Severity> {
        let Some(token) = tokens.get(at) else {
            return None;
        };
        let severity = match &token.what {
            Word::Reserved(COMMAND) => Severity::Command,
            Word::Reserved(DIAGNOSTIC) => Severity::Diagnostic,
            Word::Reserved(FATAL) => Severity::Fatal,
            _ => return None,
        };
        Some(severity)
    }
}

type SeverityWords = Either<
    After<ACTIVITY, OneLeaf<ActivityWord>>,
    Either<After<WARNING, OneLeaf<WarningWord>>, OneLeaf<SeverityWord>>,
>;

/// How much an event matters.
pub struct OneSeverity;

impl Piece for OneSeverity {
    type Node = Severity;

    ghost grammar = { λ depth. K.severity_words };

    fn read(alloc: Global, tokens: &[Token], from: usize, depth: u32) -> Parsed<Severity> {
        severity_words(alloc, tokens, from, depth)
    }
}

fn severity_words(alloc: Global, tokens: &[Token], from: usize, depth: u32) -> Parsed<Severity>
    ensures { Parses kind K.severity_words tokens.now from result }
{
    SeverityWords::read(alloc, tokens, from, depth)
}

struct AlwaysWord;

impl Leaf for AlwaysWord {
    type Node = (Span, Update);

    ghost grammar = { K.always_word };

    fn at(tokens: &[Token], at: usize) -> Option<(Span, Update)> {
        let Some(token) = tokens.get(at) else {
            return None;
        };
        let update = match &token.what {
            Word::Reserved(ALWAYS) => Update::Always,
            _ => return None,
        };
        Some((token.at, update))
    }
}

struct ChangeWord;

impl Leaf for ChangeWord {
    type Node = (Span, Update);

    ghost grammar = { K.change_word };

    fn at(tokens: &[Token], at: usize) -> Option<(Span, Update)> {
        let Some(token) = tokens.get(at) else {
            return None;
        };
        let update = match &token.what {
            Word::Reserved(CHANGE) => Update::OnChange,
            _ => return None,
        };
        Some((token.at, update))
    }
}

type UpdateWords = Either<OneLeaf<AlwaysWord>, After<ON, OneLeaf<ChangeWord>>>;

/// When a channel is sent, and the place of the last word that says so.
pub struct OneUpdate;

impl Piece for OneUpdate {
    type Node = (Span, Update);

    ghost grammar = { λ depth. K.update_words };

    fn read(alloc: Global, tokens: &[Token], from: usize, depth: u32) -> Parsed<(Span, Update)> {
        update_words(alloc, tokens, from, depth)
    }
}

fn update_words(alloc: Global, tokens: &[Token], from: usize, depth: u32) -> Parsed<(Span, Update)>
    ensures { Parses kind K.update_words tokens.now from result }
{
    UpdateWords::read(alloc, tokens, from, depth)
}
