ghost use Rattle.std.specs.Prelude.{◌≡◌};
ghost use Rattle.fp_parse_components.specs.Dictionary as D;

use crate::queue::{MaybeFormals, QueuePart, span_or};
use crate::words::{ColorWord, CommandWord, OneSeverity, OneUpdate};
use fp_base::{Boxed, NoMemory, Span, Text};
use fp_lexer::Token;
use fp_lexer::mark::{CLOSE_BRACE, COLON, COMMA, OPEN_BRACE};
use fp_lexer::reserved::{
    COMMAND, EVENT, FORMAT, HIGH, ID, LOW, OPCODE, PARAM, SAVE, SET, SEVERITY, TELEMETRY, THROTTLE,
    UPDATE,
};
use fp_parse_defs::{DefaultPart, FormatPart, OneType, Value, between, expr_or, text_or};
use fp_parse_pieces::{
    After, AtMark, AtWord, Behind, Element, Listed, Made, Make, Maybe, NodeOf, OneLeaf, OneName,
    OneText, Parsed, Piece, Seq,
};
use fp_tree::{Channel, Command, Event, Limit, Limits, ParamDef, Part, Update};
use std::alloc::Global;

/// A command.
pub struct OneCommand;

impl Make for OneCommand {
    type Parts = Seq<
        OneLeaf<CommandWord>,
        After<
            COMMAND,
            Seq<OneName, Seq<MaybeFormals, Seq<Maybe<After<OPCODE, Value>>, QueuePart>>>,
        >,
    >;

    type Node = Part;

    ghost made = { D.made_command };

    fn make(alloc: Global, parts: NodeOf<Self::Parts>) -> Result<Part, NoMemory> {
        let ((word, kind), (name, (formals, (opcode, queue)))) = parts;
        let end = expr_or(span_or(name.at, formals.closing), &opcode);
        let at = between(word, span_or(end, queue.last));
        let note = Text::new(alloc);
        let command = Command {
            kind,
            name,
            formals: formals.row,
            opcode,
            priority: queue.priority,
            full: queue.full,
            queue_word: queue.first,
            at,
            note,
        };
        Ok(Part::Command(Boxed::new(alloc, command)?))
    }
}

impl Piece for OneCommand {
    type Node = Part;

    ghost grammar = { D.command };

    fn read(alloc: Global, tokens: &[Token], from: usize, depth: u32) -> Parsed<Part> {
        Made::<OneCommand>::read(alloc, tokens, from, depth)
    }
}

/// An event.
pub struct OneEvent;

impl Make for OneEvent {
    type Parts = Seq<
        AtWord<EVENT>,
        Seq<
            OneName,
            Seq<
                MaybeFormals,
                After<
                    SEVERITY,
                    Seq<
                        OneSeverity,
                        Seq<
                            Maybe<After<ID, Value>>,
                            After<FORMAT, Seq<OneText, Maybe<After<THROTTLE, Value>>>>,
                        >,
                    >,
                >,
            >,
        >,
    >;

    type Node = Part;

    ghost made = { D.made_event };

    fn make(alloc: Global, parts: NodeOf<Self::Parts>) -> Result<Part, NoMemory> {
        let (word, (name, (formals, (severity, (id, (format, throttle)))))) = parts;
        let at = between(word, expr_or(format.at, &throttle));
        let note = Text::new(alloc);
        let event = Event {
            name,
            formals: formals.row,
            severity,
            id,
            format,
            throttle,
            at,
            note,
        };
        Ok(Part::Event(Boxed::new(alloc, event)?))
    }
}

impl Piece for OneEvent {
    type Node = Part;

    ghost grammar = { D.event };

    fn read(alloc: Global, tokens: &[Token], from: usize, depth: u32) -> Parsed<Part> {
        Made::<OneEvent>::read(alloc, tokens, from, depth)
    }
}

pub struct OneLimit;

impl Make for OneLimit {
    type Parts = Seq<OneLeaf<ColorWord>, Value>;

    type Node = Limit;

    ghost made = { D.made_limit };

    fn make(alloc: Global, parts: NodeOf<Self::Parts>) -> Result<Limit, NoMemory> {
        let ((word, color), value) = parts;
        let at = between(word, value.at);
        let note = Text::new(alloc);
        Ok(Limit {
            color,
            value,
            at,
            note,
        })
    }
}

impl Element for OneLimit {
    type Bare = Made<OneLimit>;

    ghost with_note = { D.limit_with_note };

    fn with_note(node: Limit, note: Text) -> Limit {
        Limit { note, ..node }
    }
}

/// The limits of a channel on one side.
pub struct OneLimits;

impl Make for OneLimits {
    type Parts = Seq<AtMark<OPEN_BRACE>, Seq<Listed<OneLimit, COMMA>, AtMark<CLOSE_BRACE>>>;

    type Node = Limits;

    ghost made = { D.made_limits };

    fn make(_: Global, parts: NodeOf<Self::Parts>) -> Result<Limits, NoMemory> {
        let (opening, (limits, closing)) = parts;
        let at = between(opening, closing);
        Ok(Limits { limits, at })
    }
}

impl Piece for OneLimits {
    type Node = Limits;

    ghost grammar = { D.limits };

    fn read(alloc: Global, tokens: &[Token], from: usize, depth: u32) -> Parsed<Limits> {
        Made::<OneLimits>::read(alloc, tokens, from, depth)
    }
}

fn limits_or(span: Span, last: &Option<Limits>) -> Span
    ensures { result ≡ D.limits_or span last.now }
{
    match last {
        Some(last) => last.at,
        None => span,
    }
}

fn update_of(found: Option<(Span, Update)>) -> Option<Update>
    ensures { result ≡ D.update_of found }
{
    match found {
        Some((_, update)) => Some(update),
        None => None,
    }
}

fn update_or(span: Span, last: Option<(Span, Update)>) -> Span
    ensures { result ≡ D.update_or span last }
{
    match last {
        Some((at, _)) => at,
        None => span,
    }
}

/// A telemetry channel.
pub struct OneChannel;

impl Make for OneChannel {
    type Parts = Seq<
        AtWord<TELEMETRY>,
        Seq<
            OneName,
            Behind<
                COLON,
                Seq<
                    OneType,
                    Seq<
                        Maybe<After<ID, Value>>,
                        Seq<
                            Maybe<After<UPDATE, OneUpdate>>,
                            Seq<
                                FormatPart,
                                Seq<Maybe<After<LOW, OneLimits>>, Maybe<After<HIGH, OneLimits>>>,
                            >,
                        >,
                    >,
                >,
            >,
        >,
    >;

    type Node = Part;

    ghost made = { D.made_channel };

    fn make(alloc: Global, parts: NodeOf<Self::Parts>) -> Result<Part, NoMemory> {
        let (word, (name, (of, (id, (update, (format, (low, high))))))) = parts;
        let end = text_or(update_or(expr_or(of.at, &id), update), &format);
        let at = between(word, limits_or(limits_or(end, &low), &high));
        let update = update_of(update);
        let note = Text::new(alloc);
        let channel = Channel {
            name,
            of,
            id,
            update,
            format,
            low,
            high,
            at,
            note,
        };
        Ok(Part::Channel(Boxed::new(alloc, channel)?))
    }
}

impl Piece for OneChannel {
    type Node = Part;

    ghost grammar = { D.channel };

    fn read(alloc: Global, tokens: &[Token], from: usize, depth: u32) -> Parsed<Part> {
        Made::<OneChannel>::read(alloc, tokens, from, depth)
    }
}

type Opcodes = Seq<
    Maybe<After<SET, After<OPCODE, Value>>>,
    Maybe<After<SAVE, After<OPCODE, Value>>>,
>;

/// A parameter.
pub struct OneParam;

impl Make for OneParam {
    type Parts = Seq<
        AtWord<PARAM>,
        Seq<
            OneName,
            Behind<COLON, Seq<OneType, Seq<DefaultPart, Seq<Maybe<After<ID, Value>>, Opcodes>>>>,
        >,
    >;

    type Node = Part;

    ghost made = { D.made_param };

    fn make(alloc: Global, parts: NodeOf<Self::Parts>) -> Result<Part, NoMemory> {
        let (word, (name, (of, (default, (id, (set, save)))))) = parts;
        let end = expr_or(expr_or(of.at, &default), &id);
        let at = between(word, expr_or(expr_or(end, &set), &save));
        let note = Text::new(alloc);
        let param = ParamDef {
            name,
            of,
            default,
            id,
            set,
            save,
            at,
            note,
        };
        Ok(Part::Param(Boxed::new(alloc, param)?))
    }
}

impl Piece for OneParam {
    type Node = Part;

    ghost grammar = { D.param };

    fn read(alloc: Global, tokens: &[Token], from: usize, depth: u32) -> Parsed<Part> {
        Made::<OneParam>::read(alloc, tokens, from, depth)
    }
}
