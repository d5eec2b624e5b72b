ghost use Rattle.fp_parse_defs.specs.Specifiers as S;

use crate::build::between;
use fp_base::{NoMemory, Text};
use fp_lexer::Token;
use fp_lexer::reserved::{IMPORT, INCLUDE};
use fp_parse_pieces::{AtWord, Made, Make, NodeOf, OneText, Parsed, Piece, QualifiedName, Seq};
use fp_tree::{Import, Include};
use std::alloc::Global;

/// An inclusion of a file.
pub struct OneInclude;

impl Make for OneInclude {
    type Parts = Seq<AtWord<INCLUDE>, OneText>;

    type Node = Include;

    ghost made = { S.made_include };

    fn make(alloc: Global, parts: NodeOf<Self::Parts>) -> Result<Include, NoMemory> {
        let (word, file) = parts;
        let at = between(word, file.at);
        let note = Text::new(alloc);
        Ok(Include { file, at, note })
    }
}

impl Piece for OneInclude {
    type Node = Include;

    ghost grammar = { λ depth. S.included };

    fn read(alloc: Global, tokens: &[Token], from: usize, depth: u32) -> Parsed<Include> {
        Made::<OneInclude>::read(alloc, tokens, from, depth)
    }
}

/// An import of an interface or of a topology.
pub struct OneImport;

impl Make for OneImport {
    type Parts = Seq<AtWord<IMPORT>, QualifiedName>;

    type Node = Import;

    ghost made = { S.made_import };

    fn make(alloc: Global, parts: NodeOf<Self::Parts>) -> Result<Import, NoMemory> {
        let (word, of) = parts;
        let at = between(word, of.at);
        let note = Text::new(alloc);
        Ok(Import { of, at, note })
    }
}

impl Piece for OneImport {
    type Node = Import;

    ghost grammar = { λ depth. S.imported };

    fn read(alloc: Global, tokens: &[Token], from: usize, depth: u32) -> Parsed<Import> {
        Made::<OneImport>::read(alloc, tokens, from, depth)
    }
}
