ghost use Rattle.fp_parse_defs.specs.Definitions as D;

use crate::build::{between, expr_or, text_or};
use crate::type_names::{FormatPart, OneType, Value};
use fp_base::{NoMemory, Text};
use fp_lexer::mark::{CLOSE_BRACKET, COLON, EQUALS, OPEN_BRACKET};
use fp_lexer::reserved::REF;
use fp_parse_pieces::{AtWord, Behind, Closed, Element, Made, Make, Maybe, NodeOf, OneName, Seq};
use fp_tree::{EnumConst, Field, Formal};
use std::alloc::Global;

pub struct OneField;

impl Make for OneField {
    type Parts = Seq<
        OneName,
        Behind<
            COLON,
            Seq<
                Maybe<Behind<OPEN_BRACKET, Closed<Value, CLOSE_BRACKET>>>,
                Seq<OneType, FormatPart>,
            >,
        >,
    >;

    type Node = Field;

    ghost made = { D.made_field };

    fn make(alloc: Global, parts: NodeOf<Self::Parts>) -> Result<Field, NoMemory> {
        let (name, (size, (of, format))) = parts;
        let at = between(name.at, text_or(of.at, &format));
        let note = Text::new(alloc);
        Ok(Field {
            name,
            size,
            of,
            format,
            at,
            note,
        })
    }
}

impl Element for OneField {
    type Bare = Made<OneField>;

    ghost with_note = { D.field_with_note };

    fn with_note(node: Field, note: Text) -> Field {
        Field { note, ..node }
    }
}

pub struct OneConst;

impl Make for OneConst {
    type Parts = Seq<OneName, Maybe<Behind<EQUALS, Value>>>;

    type Node = EnumConst;

    ghost made = { D.made_enum_const };

    fn make(alloc: Global, parts: NodeOf<Self::Parts>) -> Result<EnumConst, NoMemory> {
        let (name, value) = parts;
        let at = between(name.at, expr_or(name.at, &value));
        let note = Text::new(alloc);
        Ok(EnumConst {
            name,
            value,
            at,
            note,
        })
    }
}

impl Element for OneConst {
    type Bare = Made<OneConst>;

    ghost with_note = { D.enum_const_with_note };

    fn with_note(node: EnumConst, note: Text) -> EnumConst {
        EnumConst { note, ..node }
    }
}

pub struct OneFormal;

impl Make for OneFormal {
    type Parts = Seq<Maybe<AtWord<REF>>, Seq<OneName, Behind<COLON, OneType>>>;

    type Node = Formal;

    ghost made = { D.made_formal };

    fn make(alloc: Global, parts: NodeOf<Self::Parts>) -> Result<Formal, NoMemory> {
        let (by_ref, (name, of)) = parts;
        let first = match by_ref {
            Some(word) => word,
            None => name.at,
        };
        let at = between(first, of.at);
        let by_ref = by_ref.is_some();
        let note = Text::new(alloc);
        Ok(Formal {
            by_ref,
            name,
            of,
            at,
            note,
        })
    }
}

impl Element for OneFormal {
    type Bare = Made<OneFormal>;

    ghost with_note = { D.formal_with_note };

    fn with_note(node: Formal, note: Text) -> Formal {
        Formal { note, ..node }
    }
}
