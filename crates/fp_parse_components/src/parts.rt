ghost use Rattle.fp_grammar.specs.Parses.{Parses};
ghost use Rattle.fp_parse_pieces.specs.Kinds.{kind};
ghost use Rattle.fp_parse_components.specs.Noted as N;
ghost use Rattle.fp_parse_components.specs.Parts as S;

use crate::dictionary::{OneChannel, OneCommand, OneEvent, OneParam};
use crate::noting::{NotedInterfacePart, NotedPart, noted_interface_parts, noted_parts};
use crate::ports::{OneGeneral, OneInternal, OneMatch, OneSpecial};
use crate::stated::MachineOrRunning;
use fp_base::{Boxed, NoMemory, Row, Text};
use fp_lexer::Token;
use fp_lexer::mark::SEMICOLON;
use fp_parse_defs::{OneArray, OneConstant, OneEnum, OneImport, OneInclude, OneStruct, OneTypeDef};
use fp_parse_pieces::{Either, Element, Listed, Made, Make, Parsed, Piece};
use fp_tree::{Def, General, Import, Include, InterfacePart, Part, Special};
use std::alloc::Global;

type FormOrEnum = Either<OneArray, Either<OneStruct, OneEnum>>;

/// Any definition but a port's.
struct DefinitionBody;

impl Piece for DefinitionBody {
    type Node = Def;

    ghost grammar = { S.definition_sealed };

    fn read(alloc: Global, tokens: &[Token], from: usize, depth: u32) -> Parsed<Def> {
        definition_body(alloc, tokens, from, depth)
    }
}

fn definition_body(alloc: Global, tokens: &[Token], from: usize, depth: u32) -> Parsed<Def>
    ensures { Parses kind (S.definition_sealed depth) tokens.now from result }
{
    Either::<OneConstant, Either<OneTypeDef, FormOrEnum>>::read(alloc, tokens, from, depth)
}

struct DefinitionPart;

impl Make for DefinitionPart {
    type Parts = DefinitionBody;

    type Node = Part;

    ghost made = { λ definition. S.made_definition definition };

    fn make(_: Global, definition: Def) -> Result<Part, NoMemory> {
        Ok(Part::Def(definition))
    }
}

impl Piece for DefinitionPart {
    type Node = Part;

    ghost grammar = { S.definition_part };

    fn read(alloc: Global, tokens: &[Token], from: usize, depth: u32) -> Parsed<Part> {
        Made::<DefinitionPart>::read(alloc, tokens, from, depth)
    }
}

struct GeneralPart;

impl Make for GeneralPart {
    type Parts = OneGeneral;

    type Node = Part;

    ghost made = { S.made_general_part };

    fn make(alloc: Global, port: General) -> Result<Part, NoMemory> {
        Ok(Part::General(Boxed::new(alloc, port)?))
    }
}

struct SpecialPart;

impl Make for SpecialPart {
    type Parts = OneSpecial;

    type Node = Part;

    ghost made = { S.made_special_part };

    fn make(_: Global, port: Special) -> Result<Part, NoMemory> {
        Ok(Part::Special(port))
    }
}

struct ImportPart;

impl Make for ImportPart {
    type Parts = OneImport;

    type Node = Part;

    ghost made = { S.made_import_part };

    fn make(_: Global, import: Import) -> Result<Part, NoMemory> {
        Ok(Part::Import(import))
    }
}

struct IncludePart;

impl Make for IncludePart {
    type Parts = OneInclude;

    type Node = Part;

    ghost made = { S.made_include_part };

    fn make(_: Global, include: Include) -> Result<Part, NoMemory> {
        Ok(Part::Include(include))
    }
}

struct PortPart;

impl Piece for PortPart {
    type Node = Part;

    ghost grammar = { S.port_part };

    fn read(alloc: Global, tokens: &[Token], from: usize, depth: u32) -> Parsed<Part> {
        Either::<Made<GeneralPart>, Either<Made<SpecialPart>, OneInternal>>::read(
            alloc, tokens, from, depth,
        )
    }
}

struct DictionaryPart;

impl Piece for DictionaryPart {
    type Node = Part;

    ghost grammar = { S.dictionary_part };

    fn read(alloc: Global, tokens: &[Token], from: usize, depth: u32) -> Parsed<Part> {
        Either::<OneCommand, Either<OneEvent, Either<OneChannel, OneParam>>>::read(
            alloc, tokens, from, depth,
        )
    }
}

struct OtherPart;

impl Piece for OtherPart {
    type Node = Part;

    ghost grammar = { λ depth. S.other_part };

    fn read(alloc: Global, tokens: &[Token], from: usize, depth: u32) -> Parsed<Part> {
        Either::<OneMatch, Either<Made<ImportPart>, Made<IncludePart>>>::read(
            alloc, tokens, from, depth,
        )
    }
}

type DictionaryOrOther = Either<DictionaryPart, OtherPart>;

/// A part of a component.
pub struct OnePart;

impl Piece for OnePart {
    type Node = Part;

    ghost grammar = { S.part_of };

    fn read(alloc: Global, tokens: &[Token], from: usize, depth: u32) -> Parsed<Part> {
        part(alloc, tokens, from, depth)
    }
}

fn part(alloc: Global, tokens: &[Token], from: usize, depth: u32) -> Parsed<Part>
    ensures { Parses kind (S.part_of depth) tokens.now from result }
{
    Either::<DefinitionPart, Either<MachineOrRunning, Either<PortPart, DictionaryOrOther>>>::read(
        alloc, tokens, from, depth,
    )
}

/// A part of which the annotation stands beside it.
pub struct BarePart;

impl Make for BarePart {
    type Parts = OnePart;

    type Node = NotedPart;

    ghost made = { N.bare_part };

    fn make(alloc: Global, bare: Part) -> Result<NotedPart, NoMemory> {
        let note = Text::new(alloc);
        Ok(NotedPart { bare, note })
    }
}

impl Piece for BarePart {
    type Node = NotedPart;

    ghost grammar = { S.listed_part };

    fn read(alloc: Global, tokens: &[Token], from: usize, depth: u32) -> Parsed<NotedPart> {
        Made::<BarePart>::read(alloc, tokens, from, depth)
    }
}

impl Element for BarePart {
    type Bare = BarePart;

    ghost with_note = { N.part_with_note };

    fn with_note(node: NotedPart, note: Text) -> NotedPart {
        NotedPart { note, ..node }
    }
}

/// The parts of a component, each with its annotation.
pub struct PartList;

impl Make for PartList {
    type Parts = Listed<BarePart, SEMICOLON>;

    type Node = Row<Part>;

    ghost made = { N.noted_parts };

    fn make(alloc: Global, parts: Row<NotedPart>) -> Result<Row<Part>, NoMemory> {
        noted_parts(alloc, parts)
    }
}

impl Piece for PartList {
    type Node = Row<Part>;

    ghost grammar = { S.parts };

    fn read(alloc: Global, tokens: &[Token], from: usize, depth: u32) -> Parsed<Row<Part>> {
        Made::<PartList>::read(alloc, tokens, from, depth)
    }
}

struct InnerGeneral;

impl Make for InnerGeneral {
    type Parts = OneGeneral;

    type Node = InterfacePart;

    ghost made = { S.made_inner_general };

    fn make(alloc: Global, port: General) -> Result<InterfacePart, NoMemory> {
        Ok(InterfacePart::General(Boxed::new(alloc, port)?))
    }
}

struct InnerSpecial;

impl Make for InnerSpecial {
    type Parts = OneSpecial;

    type Node = InterfacePart;

    ghost made = { S.made_inner_special };

    fn make(_: Global, port: Special) -> Result<InterfacePart, NoMemory> {
        Ok(InterfacePart::Special(port))
    }
}

struct InnerImport;

impl Make for InnerImport {
    type Parts = OneImport;

    type Node = InterfacePart;

    ghost made = { S.made_inner_import };

    fn make(_: Global, import: Import) -> Result<InterfacePart, NoMemory> {
        Ok(InterfacePart::Import(import))
    }
}

/// A part of an interface.
pub struct OneInterfacePart;

impl Piece for OneInterfacePart {
    type Node = InterfacePart;

    ghost grammar = { S.interface_part };

    fn read(alloc: Global, tokens: &[Token], from: usize, depth: u32) -> Parsed<InterfacePart> {
        Either::<Made<InnerGeneral>, Either<Made<InnerSpecial>, Made<InnerImport>>>::read(
            alloc, tokens, from, depth,
        )
    }
}

/// A part of an interface of which the annotation stands beside it.
pub struct BareInterfacePart;

impl Make for BareInterfacePart {
    type Parts = OneInterfacePart;

    type Node = NotedInterfacePart;

    ghost made = { N.bare_interface_part };

    fn make(alloc: Global, bare: InterfacePart) -> Result<NotedInterfacePart, NoMemory> {
        let note = Text::new(alloc);
        Ok(NotedInterfacePart { bare, note })
    }
}

impl Piece for BareInterfacePart {
    type Node = NotedInterfacePart;

    ghost grammar = { S.listed_interface_part };

    fn read(
        alloc: Global,
        tokens: &[Token],
        from: usize,
        depth: u32,
    ) -> Parsed<NotedInterfacePart> {
        Made::<BareInterfacePart>::read(alloc, tokens, from, depth)
    }
}

impl Element for BareInterfacePart {
    type Bare = BareInterfacePart;

    ghost with_note = { N.interface_part_with_note };

    fn with_note(node: NotedInterfacePart, note: Text) -> NotedInterfacePart {
        NotedInterfacePart { note, ..node }
    }
}

/// The parts of an interface, each with its annotation.
pub struct InterfacePartList;

impl Make for InterfacePartList {
    type Parts = Listed<BareInterfacePart, SEMICOLON>;

    type Node = Row<InterfacePart>;

    ghost made = { N.noted_interface_parts };

    fn make(alloc: Global, parts: Row<NotedInterfacePart>) -> Result<Row<InterfacePart>, NoMemory> {
        noted_interface_parts(alloc, parts)
    }
}

impl Piece for InterfacePartList {
    type Node = Row<InterfacePart>;

    ghost grammar = { S.interface_parts };

    fn read(
        alloc: Global,
        tokens: &[Token],
        from: usize,
        depth: u32,
    ) -> Parsed<Row<InterfacePart>> {
        Made::<InterfacePartList>::read(alloc, tokens, from, depth)
    }
}
